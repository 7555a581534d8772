//! Finds the number of a name.

ghost use Rattle.std.specs.Prelude.{◌≡◌, ◌↔◌, ◌++◌, ◌∷◌, [], ℕ, List, length, IsTrue, None, OnOk, OnErr};
ghost use Rattle.tb_tree.specs.NameTables.{hash_of, IsIndex, IsKnown, IsNumber};

use crate::Bytes;
use std::alloc::{AllocError, Global};
use std::collections::BTreeMap;

/// The number of each of different names. Names with one hash cost no more than a search among them, so a document
/// may choose its names.
#[derive(Debug, Drop)]
pub struct NameIndex {
    /// For each hash the number of the name that came first with it.
    first: BTreeMap<u32, usize>,
    /// The number of each other name.
    others: BTreeMap<Vec<u8>, usize>,
}

impl NameIndex {
    /// No name.
    pub fn new(alloc: Global) -> NameIndex
        ensures { IsIndex [] result }
    {
        NameIndex {
            first: BTreeMap::new(alloc),
            others: BTreeMap::new(alloc),
        }
    }

    /// The number of the name among these, or none where it isn't one of them.
    pub fn known(&self, names: &[Bytes], name: &[u8]) -> Option<usize>
        requires index { IsIndex names.now self.now }
        ensures { IsKnown names.now name.now result }
    {
        let number = self.first.get(&hash_of(name)).copied()?;
        if is_at(number, names, name) {
            return Some(number);
        }
        self.others.get(name).copied()
    }

    /// The next name, which is new, has the next number.
    pub fn add(&mut self, alloc: Global, name: &[u8], number: usize) -> Result<(), AllocError>
        ensures added { OnOk result ((names : List (List ℕ)) → IsIndex names self.old → IsKnown names name.now None
            → number ≡ length names → IsIndex (names ++ name.now ∷ []) self.new) }
        ensures kept { OnErr result ((names : List (List ℕ)) → IsIndex names self.old → IsIndex names self.new) }
    {
        let hash = hash_of(name);
        if self.first.contains_key(&hash) {
            let name = name.to_vec(alloc)?;
            self.others.insert(name, number)?;
            return Ok(());
        }
        self.first.insert(hash, number)?;
        Ok(())
    }
}

/// Whether the name has that number.
fn is_at(number: usize, names: &[Bytes], name: &[u8]) -> bool
    ensures { IsTrue result ↔ IsNumber names.now name.now number }
{
    match names.get(number) {
        Some(known) => known.as_slice() == name,
        None => false,
    }
}

fn hash_of(name: &[u8]) -> u32
    ensures { result ≡ hash_of name.now }
{
    let mut hash = 0u32;
    'bytes: for byte in name {
        hash = hash.wrapping_mul(31).wrapping_add(u32::from(*byte));
    }
    hash
}
