//! A value as it is sorted.

ghost use Rattle.std.specs.Prelude.{◌≡◌};
ghost use Rattle.std.specs.Option.{option_map};
ghost use Rattle.tb_number.specs.Keys.{sorted_as, sorted_cmp};
ghost use Rattle.tb_group.specs.Parts.{sorted_of};

use std::cmp::Ordering;
use tb_number::IntText;

/// No value, a number, or another value.
#[derive(Debug, Drop)]
pub enum Sorted<'a> {
    Nothing,
    Number(IntText<'a>),
    Other(&'a [u8]),
}

impl<'a> Sorted<'a> {
    pub fn of(value: Option<&[u8]>) -> Sorted<'_>
        ensures { sorted_of result ≡ sorted_as (option_map (λ bytes. bytes.now) value.entry) }
    {
        let Some(bytes) = value else {
            return Sorted::Nothing;
        };
        match IntText::read(bytes) {
            Some(number) => Sorted::Number(number),
            None => Sorted::Other(bytes),
        }
    }

    /// No value first, then numbers, then all other values by bytes.
    pub fn compare(&self, other: &Sorted<'_>) -> Ordering
        ensures { result ≡ sorted_cmp (sorted_of self.now) (sorted_of other.now) }
    {
        match (self, other) {
            (Sorted::Number(number), Sorted::Number(other)) => number.compare(other),
            (Sorted::Other(bytes), Sorted::Other(other)) => bytes.cmp(other),
            _ => self.kind().cmp(&other.kind()),
        }
    }

    fn kind(&self) -> u8
        ensures { result ≡ (sorted_of self.now).kind }
    {
        match self {
            Sorted::Nothing => 0,
            Sorted::Number(_number) => 1,
            Sorted::Other(_bytes) => 2,
        }
    }
}
