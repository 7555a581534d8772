//! The marks that are told, and their numbers.

ghost use Rattle.std.specs.Prelude.{◌≡◌, ◌+◌, ◌^◌, ◌-◌, ◌<◌, ℕ, List, [], ◌∷◌, ◌++◌, OnOk, None};
ghost use Rattle.tb_tree.specs.NameTables.{place_of};
ghost use Rattle.tb_script.specs.Tallies.{Tells};

use std::alloc::{AllocError, Global};
use std::collections::BTreeMap;

/// The number of each name. Names are ordered, since hashes without a secret let a script choose
/// names that collide.
#[derive(Drop)]
pub struct Marks {
    numbers: BTreeMap<Vec<u8>, u32>,
    pub count: u32,
}

impl Marks {
    pub fn new(alloc: Global) -> Marks
        ensures { Tells result [] }
    {
        Marks {
            numbers: BTreeMap::new(alloc),
            count: 0,
        }
    }

    /// The number of the mark, where it is told.
    pub fn find(&self, name: &[u8]) -> Option<u32>
        ensures { (names : List (List ℕ)) → Tells self.now names
            → result ≡ place_of name.now names }
    {
        self.numbers.get(name).copied()
    }

    /// Gives the next number to a mark that isn't told yet.
    pub fn add(&mut self, alloc: Global, name: &[u8]) -> Result<(), AllocError>
        requires room { self.old.count < 2 ^ 32 - 1 }
        ensures told { OnOk result ((names : List (List ℕ)) → Tells self.old names
            → place_of name.now names ≡ None → Tells self.new (names ++ name.now ∷ [])) }
        ensures count { OnOk result (self.new.count ≡ self.old.count + 1) }
    {
        let key = name.to_vec(alloc)?;
        let number = self.count;
        self.count = number + 1;
        self.numbers.insert(key, number)?;
        Ok(())
    }
}
