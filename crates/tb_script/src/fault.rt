//! Faults of scripts.

ghost use Rattle.std.specs.Prelude.{◌≡◌};
ghost use Rattle.tb_script.specs.declared.fault.ScriptFault.TheVariants.{NoMemory};

use std::alloc::{AllocError, AllocFailed};

/// The first fault of a script, with the number of its line from 1, in the order of the tests at a
/// line. `MarkUnknown` and `MarkStuck` are looked for behind all lines.
#[derive(Clone, Copy, Debug, PartialEq, Eq)]
pub enum ScriptFault {
    InputTooLong,
    UnknownLine(u32),
    NoSession(u32),
    BadName(u32),
    MarkTwice(u32),
    TooManySessions(u32),
    TooManyCommands(u32),
    TooManyChanges(u32),
    NotClosed(u32),
    MarkUnknown(u32),
    MarkStuck(u32),
    NoMemory,
}

impl From<AllocError> for ScriptFault {
    ghost from_gives = { λ _ fault. fault ≡ NoMemory };

    fn from(_error: AllocError) -> ScriptFault {
        ScriptFault::NoMemory
    }
}

impl<T: Drop> From<AllocFailed<T>> for ScriptFault {
    ghost from_gives = { λ _ fault. fault ≡ NoMemory };

    fn from(_failed: AllocFailed<T>) -> ScriptFault {
        ScriptFault::NoMemory
    }
}
