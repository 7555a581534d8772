//! Why a text is not cut into tokens.

ghost use Rattle.std.specs.Prelude.{◌≡◌};
ghost use Rattle.tb_token.specs.declared.lexer.fault.LexFault.TheVariants.{NoMemory};

use std::alloc::AllocFailed;

/// The first place at which no token begins, in bytes from 0.
#[derive(Clone, Copy, Debug, PartialEq, Eq)]
pub enum LexFault {
    /// A byte that isn't a quote.
    BadByte(u32),
    /// A quote that isn't closed.
    OpenString(u32),
    NoMemory,
}

impl<T: Drop> From<AllocFailed<T>> for LexFault {
    ghost from_gives = { λ _ fault. fault ≡ NoMemory };

    fn from(_failed: AllocFailed<T>) -> LexFault {
        LexFault::NoMemory
    }
}
