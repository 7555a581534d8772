//! Why a column of aggregates isn't made.

ghost use Rattle.std.specs.Prelude.{◌≡◌};
ghost use Rattle.tb_group.specs.declared.fault.GroupFault.TheVariants.{Past, NoMemory};

use std::alloc::{AllocError, AllocFailed};

#[derive(Clone, Copy, Debug, PartialEq, Eq)]
pub enum GroupFault {
    /// A sum is past the range of signed numbers of 128 bits.
    Past,
    NoMemory,
}

impl From<tb_number::Past> for GroupFault {
    ghost from_gives = { λ _ fault. fault ≡ Past };

    fn from(_past: tb_number::Past) -> GroupFault {
        GroupFault::Past
    }
}

impl<T: Drop> From<AllocFailed<T>> for GroupFault {
    ghost from_gives = { λ _ fault. fault ≡ NoMemory };

    fn from(_failed: AllocFailed<T>) -> GroupFault {
        GroupFault::NoMemory
    }
}

impl From<AllocError> for GroupFault {
    ghost from_gives = { λ _ fault. fault ≡ NoMemory };

    fn from(_failed: AllocError) -> GroupFault {
        GroupFault::NoMemory
    }
}
