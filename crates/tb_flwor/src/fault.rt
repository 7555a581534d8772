//! Why a query is refused.

ghost use Rattle.std.specs.Prelude.{◌≡◌};
ghost use Rattle.tb_flwor.specs.declared.fault.QueryFault.TheVariants.{NoMemory};

use std::alloc::{AllocError, AllocFailed};

/// The first of the faults that holds, in this order. Tokens are numbered from 1, bytes from 0.
#[derive(Clone, Copy, Debug, PartialEq, Eq)]
pub enum QueryFault {
    /// More than 65,536 bytes.
    TooLong,
    /// The first byte at which no token begins.
    BadByte(u32),
    /// The quote of a string that isn't closed.
    OpenString(u32),
    /// The first token that begins no query with those before it; one more than there are where the
    /// tokens begin one and are none.
    Syntax(u32),
    /// More than 32 constructors, or pattern nodes of a `MATCH` query, inside each other.
    TooNested,
    /// More than 64 tests.
    TooManyNodes,
    /// More than 32 variables bound.
    TooManyVariables,
    /// The first use of a variable with no binding whose path ends before it.
    UnknownVariable(u32),
    /// The first binding of a name that an earlier binding has.
    RepeatedVariable(u32),
    /// The first number, with its sign, outside the signed range of 128 bits.
    LiteralPast(u32),
    /// The first end tag's name that isn't the name of its start.
    WrongTag(u32),
    /// The first attribute's name that stands earlier in the same constructor.
    RepeatedAttribute(u32),
    NoMemory,
}

impl<T: Drop> From<AllocFailed<T>> for QueryFault {
    ghost from_gives = { λ _ fault. fault ≡ NoMemory };

    fn from(_failed: AllocFailed<T>) -> QueryFault {
        QueryFault::NoMemory
    }
}

impl From<AllocError> for QueryFault {
    ghost from_gives = { λ _ fault. fault ≡ NoMemory };

    fn from(_failed: AllocError) -> QueryFault {
        QueryFault::NoMemory
    }
}
