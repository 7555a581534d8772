//! A row with its keys.

ghost use Rattle.std.specs.Prelude.{◌≡◌, Some};
ghost use Rattle.std.specs.Ordering.{eq_by_cmp};
ghost use Rattle.std.specs.Cmp.Rules.{comparing};
ghost use Rattle.std.proofs.Common.{rules};
ghost use Rattle.tb_group.specs.Parts.{keyed_cmp};
ghost use Rattle.tb_group.specs.PartOrder.{keyed_total};

use crate::part::Part;
use std::cmp::Ordering;
use std::marker::Model;

/// The number of a row, sorted by its keys.
#[derive(Debug, Drop)]
pub struct Keyed<'a> {
    parts: Vec<Part<'a>>,
    row: usize,
}

impl<'a> Model for Keyed<'a> {
    ghost use Rattle.tb_group.specs.Parts.{KeyedRow};

    ghost Value = { KeyedRow };

    ghost view = { λ keyed. record { parts = keyed.parts.items; row = keyed.row } };
}

impl<'a> Keyed<'a> {
    pub fn new(parts: Vec<Part<'a>>, row: usize) -> Keyed<'a>
        ensures { result ≡ record { parts = parts.entry.items; row = row } }
    {
        Keyed { parts, row }
    }

    pub fn row(&self) -> usize
        ensures { result ≡ self.now.row }
    {
        self.row
    }

    fn compare(&self, other: &Keyed<'_>) -> Ordering
        ensures { result ≡ keyed_cmp self.now other.now }
    {
        self.parts.as_slice().cmp(&other.parts.as_slice())
    }
}

impl<'a> PartialEq for Keyed<'a> {
    ghost eq = { eq_by_cmp keyed_cmp };

    ghost laws = { Prim.search (comparing, rules, keyed_total) };

    fn eq(&self, other: &Keyed<'a>) -> bool {
        self.compare(other).is_eq()
    }
}

impl<'a> Eq for Keyed<'a> {
    ghost laws = { Prim.search (comparing, rules, keyed_total) };
}

impl<'a> PartialOrd for Keyed<'a> {
    ghost partial_cmp = { λ a b. Some (keyed_cmp a b) };

    ghost laws = { Prim.search (comparing, rules, keyed_total) };

    fn partial_cmp(&self, other: &Keyed<'a>) -> Option<Ordering> {
        Some(self.compare(other))
    }
}

impl<'a> Ord for Keyed<'a> {
    ghost cmp = { keyed_cmp };

    ghost total = { keyed_total };

    ghost matches_partial_cmp = { Prim.search rules };

    ghost matches_eq = { Prim.search (comparing, rules, keyed_total) };

    fn cmp(&self, other: &Keyed<'a>) -> Ordering {
        self.compare(other)
    }
}
