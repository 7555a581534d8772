//! Names by number, of which those last found are at hand.

ghost use Rattle.std.specs.Prelude.{◌≡◌, ◌^◌, ◌<◌, ℕ, List, [], Some, length, IfOk, IfSome, OnOk};
ghost use Rattle.std.specs.Option.{option_map};
ghost use Rattle.tb_tree.specs.NameTables.{AreApart, IsKnown, IsNumber, IsMore};

use crate::Bytes;
use crate::name_table::NameTable;
use std::alloc::{AllocError, Global};
use std::marker::Model;

/// Each name with its number, from 0, in the order in which they came.
#[derive(Drop)]
pub struct Names {
    table: NameTable,
    /// The number last found for each of 256 fingerprints.
    recent: Vec<u32>,
}

impl Model for Names {
    ghost use Rattle.std.specs.Prelude.{List, ℕ, ◌^◌, ◌≤◌, length};

    ghost Value = { List (List ℕ) };

    ghost view = { λ names. names.table };

    ghost invariant = { λ names. length names.table ≤ 2 ^ 32 };
}

impl Names {
    /// No name.
    pub fn new(alloc: Global) -> Result<Names, AllocError>
        ensures { IfOk result (λ names. names ≡ []) }
    {
        let mut recent = Vec::new(alloc);
        recent.resize(256, 0)?;
        Ok(Names {
            table: NameTable::new(alloc),
            recent,
        })
    }

    /// The number of the name, which it gets here where it is new.
    pub fn number(&mut self, alloc: Global, name: &[u8]) -> Result<u32, AllocError>
        requires few { length self.old < 2 ^ 32 }
        ensures number { IfOk result (IsNumber self.new name.now) }
        ensures more { OnOk result (IsMore self.old self.new) }
    {
        let slot = fingerprint(name);
        if let Some(number) = self.recent_of(slot, name) {
            return Ok(number);
        }
        let number = self.table.number(alloc, name)? as u32;
        note(slot, number, &mut self.recent);
        Ok(number)
    }

    /// The number of the name, or none where it has none.
    pub fn known(&self, name: &[u8]) -> Option<u32>
        ensures { IsKnown self.now name.now result }
    {
        if let Some(number) = self.recent_of(fingerprint(name), name) {
            return Some(number);
        }
        Some(self.table.known(name)? as u32)
    }

    /// The name's number, where it is the one last found for the fingerprint.
    fn recent_of(&self, slot: usize, name: &[u8]) -> Option<u32>
        ensures { IfSome result (λ number. IsKnown self.now name.now (Some number)) }
    {
        let number = *self.recent.get(slot)?;
        let known = self.table.find(number as usize)?;
        if known == name {
            return Some(number);
        }
        None
    }

    /// The name of that number.
    pub fn find(&self, number: u32) -> Option<&[u8]>
        ensures { (name : List ℕ) → IsNumber self.now name number → option_map (λ found. found.now) result ≡ Some name }
    {
        self.table.find(number as usize)
    }

    /// The names by number.
    pub fn into_table(self) -> Vec<Bytes>
        ensures table { result.items ≡ self }
        ensures apart { AreApart self }
    {
        let Names { table, .. } = self;
        table.into_names()
    }
}

/// The number is the one last found for the fingerprint.
fn note(slot: usize, number: u32, recent: &mut [u32]) {
    if let Some(place) = recent.get_mut(slot) {
        *place = number;
    }
}

/// A number below 256 that tells most names apart.
fn fingerprint(name: &[u8]) -> usize {
    let [first, .., last] = name else {
        return name.len() % 256;
    };
    let middle = name[name.len() / 2];
    let mixed = first
        .wrapping_mul(31)
        .wrapping_add(middle.wrapping_mul(7))
        .wrapping_add(last.wrapping_mul(3));
    usize::from(mixed.wrapping_add((name.len() % 256) as u8))
}
