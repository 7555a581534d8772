//! What a session does that has a number.

/// One step of a session, its session and mark counted from 0.
#[derive(Clone, Copy, Debug, PartialEq, Eq)]
pub enum Event {
    /// The session adds its change to the history.
    Change { session: u32 },
    /// The session looks how long the history is.
    Look { session: u32 },
    /// The session tells the mark what it has seen.
    Tell { session: u32, mark: u32 },
    /// The session learns what the mark was told.
    Hear { session: u32, mark: u32 },
}
