//! One step of the order in which commands are done.

/// One command of a session: both counted from 0.
#[derive(Clone, Copy, Debug, PartialEq, Eq)]
pub struct Turnstep {
    pub session: u32,
    pub command: u32,
}
