//! Different names, each with its number.

ghost use Rattle.std.specs.Prelude.{◌≡◌, ℕ, List, [], Some, IfOk, IfSome, OnOk, OnErr};
ghost use Rattle.std.specs.Option.{option_map};
ghost use Rattle.tb_tree.specs.NameTables.{AreApart, IsKnown, IsNumber, IsMore, place_of};

use crate::Bytes;
use crate::name_index::NameIndex;
use std::alloc::{AllocError, Global};
use std::marker::Model;

/// Each name with its number, from 0, in the order in which they came.
#[derive(Debug, Drop)]
pub struct NameTable {
    names: Vec<Bytes>,
    index: NameIndex,
}

impl Model for NameTable {
    ghost use Rattle.std.specs.Prelude.{List, ℕ};
    ghost use Rattle.tb_tree.specs.NameTables.{IsIndex};

    ghost Value = { List (List ℕ) };

    ghost view = { λ table. table.names.items };

    ghost invariant = { λ table. IsIndex table.names.items table.index };
}

impl NameTable {
    /// No name.
    pub fn new(alloc: Global) -> NameTable
        ensures { result ≡ [] }
    {
        NameTable {
            names: Vec::new(alloc),
            index: NameIndex::new(alloc),
        }
    }

    /// The number of the name, which it gets here where it is new.
    pub fn number(&mut self, alloc: Global, name: &[u8]) -> Result<usize, AllocError>
        ensures number { IfOk result (IsNumber self.new name.now) }
        ensures more { OnOk result (IsMore self.old self.new) }
        ensures kept { OnErr result (self.new ≡ self.old) }
    {
        if let Some(number) = self.index.known(self.names.as_slice(), name) {
            return Ok(number);
        }
        let number = self.names.len();
        self.names.push(Bytes::from_vec(name.to_vec(alloc)?))?;
        if let Err(refused) = self.index.add(alloc, name, number) {
            self.names.pop();
            return Err(refused);
        }
        Ok(number)
    }

    /// The number of the name, or none where it has none.
    pub fn known(&self, name: &[u8]) -> Option<usize>
        ensures known { IsKnown self.now name.now result }
        ensures place { result ≡ place_of name.now self.now }
    {
        self.index.known(self.names.as_slice(), name)
    }

    /// The name of that number.
    pub fn find(&self, number: usize) -> Option<&[u8]>
        ensures name { IfSome result (λ name. IsKnown self.now name.now (Some number)) }
        ensures found { (name : List ℕ) → IsNumber self.now name number → option_map (λ found. found.now) result ≡ Some name }
    {
        Some(self.names.get(number)?.as_slice())
    }

    /// The names by number.
    pub fn into_names(self) -> Vec<Bytes>
        ensures names { result.items ≡ self }
        ensures apart { AreApart self }
    {
        let NameTable { names, .. } = self;
        names
    }
}
