//! Integer texts, kept as their sign and digits.

ghost use Rattle.std.specs.Prelude.{◌≡◌, ◌∷◌, ◌++◌, None, ℤ, FitsSigned, IsTrue, OnOk, OnErr};
ghost use Rattle.std.specs.Int.{w128};
ghost use Rattle.std.specs.Ordering.{int_cmp};
ghost use Rattle.std.specs.List.{list_all};
ghost use Rattle.tb_number.specs.IntText.{is_digit, number_of, signed, Reads};
ghost use Rattle.tb_number.specs.Reading.{integer_of};
ghost use Rattle.tb_number.specs.Canonical.{canonical_text};
ghost use Rattle.tb_number.specs.Range.{within_range};

use crate::digits::{compare_digits, small_number};
use crate::spelling::{
    begins_with_minus, keeps_minus, leading_digits, without_blanks, without_sign, without_zeros,
};
use std::alloc::{AllocError, Global};
use std::cmp::Ordering;
use std::marker::Model;

/// A whole number of any length, as bytes spell it. Contracts see the number alone.
#[derive(Debug, Drop)]
pub struct IntText<'a> {
    negative: bool,
    digits: &'a [u8],
}

impl<'a> Model for IntText<'a> {
    ghost use Rattle.std.specs.Prelude.{ℤ, IsTrue};
    ghost use Rattle.tb_number.specs.IntText.{number_of, signed};
    ghost use Rattle.tb_number.specs.Reduced.{is_reduced};

    ghost Value = { ℤ };

    ghost view = { λ text. signed text.negative (number_of text.digits.now) };

    ghost invariant = { λ text. IsTrue (is_reduced text.negative text.digits.now) };
}

impl<'a> IntText<'a> {
    /// The number that the bytes stand for, or `None` where they are no integer text.
    #[tactic(auto, unfolding(crate::specs::Reading::integer_of))]
    pub fn read(bytes: &[u8]) -> Option<IntText<'_>>
        ensures number { result ≡ integer_of bytes.now }
        ensures reads { Reads bytes.now result }
    {
        let text = without_blanks(bytes);
        let digits = leading_digits(without_sign(text))?;
        Some(IntText::of(begins_with_minus(text), digits))
    }

    /// The order of the two numbers: one pass over the digits, of any length.
    pub fn compare(&self, other: &IntText<'_>) -> Ordering
        ensures { result ≡ int_cmp self.now other.now }
    {
        match (self.negative, other.negative) {
            (false, false) => compare_digits(self.digits, other.digits),
            (true, true) => compare_digits(other.digits, self.digits),
            (false, true) => Ordering::Greater,
            (true, false) => Ordering::Less,
        }
    }

    /// The order of the number and another one, whatever its length.
    pub fn compare_to(&self, other: i128) -> Ordering
        ensures { result ≡ int_cmp self.now other }
    {
        match self.in_range() {
            Some(number) => number.cmp(&other),
            None => self.side(),
        }
    }

    /// Where a number outside the range stands to all that are inside.
    fn side(&self) -> Ordering
        ensures { (other : ℤ) → FitsSigned w128 other → within_range self.now ≡ None
            → result ≡ int_cmp self.now other }
    {
        if self.negative {
            Ordering::Less
        } else {
            Ordering::Greater
        }
    }

    /// The number, or `None` where it is below -2^127 or not below 2^127.
    pub fn in_range(&self) -> Option<i128>
        ensures { result ≡ within_range self.now }
    {
        let number = small_number(self.digits)?;
        if self.negative {
            0i128.checked_sub_unsigned(number)
        } else {
            0i128.checked_add_unsigned(number)
        }
    }

    /// Appends the canonical text. After a refusal nothing is appended.
    pub fn write(&self, _alloc: Global, out: &mut Vec<u8>) -> Result<(), AllocError>
        ensures text { OnOk result (out.new.items ≡ out.old.items ++ canonical_text self.now) }
        ensures unchanged { OnErr result (out.new.items ≡ out.old.items) }
    {
        if self.digits.is_empty() {
            return out.extend_from_slice(b"0");
        }
        if !self.negative {
            return out.extend_from_slice(self.digits);
        }
        push_negative(self.digits, out)
    }

    /// The number that the digits write, below 0 where there is a minus.
    fn of(minus: bool, digits: &[u8]) -> IntText<'_>
        requires { IsTrue (list_all is_digit digits.now) }
        ensures { result ≡ signed minus (number_of digits.now) }
    {
        let digits = without_zeros(digits);
        IntText {
            negative: keeps_minus(minus, digits),
            digits,
        }
    }
}

/// Appends `-` and the digits.
fn push_negative(digits: &[u8], out: &mut Vec<u8>) -> Result<(), AllocError>
    ensures text { OnOk result (out.new.items ≡ out.old.items ++ 45 ∷ digits.now) }
    ensures unchanged { OnErr result (out.new.items ≡ out.old.items) }
{
    let before = out.len();
    out.extend_from_slice(b"-")?;
    let written = out.extend_from_slice(digits);
    if written.is_err() {
        out.truncate(before);
    }
    written
}
