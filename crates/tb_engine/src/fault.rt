//! Why a plan has no answer.

ghost use Rattle.std.specs.Prelude.{◌≡◌};
ghost use Rattle.tb_engine.specs.declared.fault.EngineFault.TheVariants.{NoMemory};

use std::alloc::{AllocError, AllocFailed};

#[derive(Clone, Copy, Debug, PartialEq, Eq)]
pub enum EngineFault {
    /// A sum is past the range of signed numbers of 128 bits.
    Past,
    NoMemory,
}

impl<T: Drop> From<AllocFailed<T>> for EngineFault {
    ghost from_gives = { λ _ fault. fault ≡ NoMemory };

    fn from(_failed: AllocFailed<T>) -> EngineFault {
        EngineFault::NoMemory
    }
}

impl From<AllocError> for EngineFault {
    ghost from_gives = { λ _ fault. fault ≡ NoMemory };

    fn from(_failed: AllocError) -> EngineFault {
        EngineFault::NoMemory
    }
}
