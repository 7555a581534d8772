//! Sums within the range of `i128`.

ghost use Rattle.std.specs.Prelude.{◌≡◌, pos, Some, None, OnOk, OnErr};
ghost use Rattle.tb_number.specs.Range.{sum_with};

use crate::IntText;
use std::marker::Model;

/// A value or a total is outside the range of `i128`.
#[derive(Clone, Copy, Debug, PartialEq, Eq)]
pub struct Past;

/// The total so far. Contracts see it as a number.
#[derive(Debug, Drop)]
pub struct RunningSum {
    total: i128,
}

impl Model for RunningSum {
    ghost use Rattle.std.specs.Prelude.{ℤ};

    ghost Value = { ℤ };

    ghost view = { λ sum. sum.total };
}

impl RunningSum {
    /// The total of nothing.
    pub fn new() -> RunningSum
        ensures { result ≡ pos 0 }
    {
        RunningSum { total: 0 }
    }

    /// Adds the number. The total stays where the number or the new total is outside the range.
    pub fn add(&mut self, value: &IntText<'_>) -> Result<(), Past>
        ensures sum { OnOk result (sum_with self.old value.now ≡ Some self.new) }
        ensures past { OnErr result (sum_with self.old value.now ≡ None) }
        ensures unchanged { OnErr result (self.new ≡ self.old) }
    {
        let value = value.in_range().ok_or(Past)?;
        self.total = self.total.checked_add(value).ok_or(Past)?;
        Ok(())
    }

    pub fn total(&self) -> i128
        ensures { result ≡ self.now }
    {
        self.total
    }
}
