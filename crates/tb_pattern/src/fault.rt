//! Why a query is refused.

ghost use Rattle.std.specs.Prelude.{◌≡◌};
ghost use Rattle.tb_pattern.specs.declared.fault.PatternFault.TheVariants.{NoMemory};

use std::alloc::{AllocError, AllocFailed};

/// The first of the faults that holds, in this order. Tokens are numbered from 1.
#[derive(Clone, Copy, Debug, PartialEq, Eq)]
pub enum PatternFault {
    /// The first token that begins no `MATCH` query with those before it; one more than there are
    /// where the tokens begin one and are none.
    Syntax(u32),
    /// More than 32 pattern nodes inside each other.
    TooNested,
    /// More than 64 tests.
    TooManyNodes,
    /// The first number, with its sign, outside the signed range of 128 bits.
    LiteralPast(u32),
    NoMemory,
}

impl<T: Drop> From<AllocFailed<T>> for PatternFault {
    ghost from_gives = { λ _ fault. fault ≡ NoMemory };

    fn from(_failed: AllocFailed<T>) -> PatternFault {
        PatternFault::NoMemory
    }
}

impl From<AllocError> for PatternFault {
    ghost from_gives = { λ _ fault. fault ≡ NoMemory };

    fn from(_failed: AllocError) -> PatternFault {
        PatternFault::NoMemory
    }
}
