//! One key of a row.

ghost use Rattle.std.specs.Prelude.{◌≡◌, Some};
ghost use Rattle.std.specs.Option.{option_map};
ghost use Rattle.std.specs.Ordering.{eq_by_cmp};
ghost use Rattle.std.specs.Cmp.Rules.{comparing};
ghost use Rattle.std.proofs.Common.{rules};
ghost use Rattle.tb_group.specs.Parts.{part_of, part_cmp};
ghost use Rattle.tb_group.specs.PartOrder.{parts_total};

use crate::sorted::Sorted;
use std::cmp::Ordering;
use std::marker::Model;

/// A value as it is sorted, or none, and whether its order is turned round.
#[derive(Debug, Drop)]
pub struct Part<'a> {
    value: Sorted<'a>,
    descending: bool,
}

impl<'a> Model for Part<'a> {
    ghost use Rattle.tb_group.specs.Parts.{SortPart, sorted_of};

    ghost Value = { SortPart };

    ghost view = { λ part. record { sorted = sorted_of part.value; descending = part.descending } };
}

impl<'a> Part<'a> {
    pub fn of(value: Option<&[u8]>, descending: bool) -> Part<'_>
        ensures { result ≡ part_of (option_map (λ bytes. bytes.now) value.entry) descending }
    {
        Part {
            value: Sorted::of(value),
            descending,
        }
    }

    fn compare(&self, other: &Part<'_>) -> Ordering
        ensures { result ≡ part_cmp self.now other.now }
    {
        match (self.descending, other.descending) {
            (false, false) => self.value.compare(&other.value),
            (true, true) => other.value.compare(&self.value),
            (false, true) => Ordering::Less,
            (true, false) => Ordering::Greater,
        }
    }
}

impl<'a> PartialEq for Part<'a> {
    ghost eq = { eq_by_cmp part_cmp };

    ghost laws = { Prim.search (comparing, rules, parts_total) };

    fn eq(&self, other: &Part<'a>) -> bool {
        self.compare(other).is_eq()
    }
}

impl<'a> Eq for Part<'a> {
    ghost laws = { Prim.search (comparing, rules, parts_total) };
}

impl<'a> PartialOrd for Part<'a> {
    ghost partial_cmp = { λ a b. Some (part_cmp a b) };

    ghost laws = { Prim.search (comparing, rules, parts_total) };

    fn partial_cmp(&self, other: &Part<'a>) -> Option<Ordering> {
        Some(self.compare(other))
    }
}

impl<'a> Ord for Part<'a> {
    ghost cmp = { part_cmp };

    ghost total = { parts_total };

    ghost matches_partial_cmp = { Prim.search rules };

    ghost matches_eq = { Prim.search (comparing, rules, parts_total) };

    fn cmp(&self, other: &Part<'a>) -> Ordering {
        self.compare(other)
    }
}
