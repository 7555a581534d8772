//! What is wrong with lines.

ghost use Rattle.std.specs.Prelude.{◌≡◌};
ghost use Rattle.tb_esis.specs.declared.fault.EsisFault.TheVariants.{NoMemory};

use std::alloc::AllocError;

/// The first fault of lines, with the number of its line, from 1. What is found behind the last line
/// has the number of lines and 1.
#[derive(Clone, Copy, Debug, PartialEq, Eq)]
pub enum EsisFault {
    /// A backslash in data or in a value begins no escape.
    BadEscape(u32),
    /// An element or attribute has a name that is none.
    BadName(u32),
    /// An attribute has no type, has the name of one that waits, or waits where no element begins.
    BadAttribute(u32),
    /// The lines conform or end, and no element has begun.
    NoElement(u32),
    /// An end without an open element, or with another name than the innermost one's.
    WrongEnd(u32),
    /// The lines conform or end within an element.
    NotEnded(u32),
    /// An element begins behind the end of the root.
    SecondRoot(u32),
    /// Data outside the root gives bytes.
    TextOutside(u32),
    /// The 513th element inside each other.
    TooDeep(u32),
    NoMemory,
}

impl From<AllocError> for EsisFault {
    ghost from_gives = { λ _ fault. fault ≡ NoMemory };

    fn from(_refused: AllocError) -> EsisFault {
        EsisFault::NoMemory
    }
}
