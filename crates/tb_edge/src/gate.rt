//! Where a test can hold a worker or a session, so that a schedule of its choice comes about.

/// Is called where the order of threads can matter. It answers nothing, so no result rests on it.
pub trait Gate: Sync {
    /// A worker is about to work a piece that begins at `lo`.
    fn reach(&self, worker: u32, lo: u32);

    /// A session is about to read the text of a query, which is its command of this number.
    fn enter(&self, session: u32, command: u32);
}

/// Holds nobody.
#[derive(Clone, Copy, Debug, PartialEq, Eq)]
pub struct OpenGate;

impl Gate for OpenGate {
    fn reach(&self, _worker: u32, _lo: u32) {}

    fn enter(&self, _session: u32, _command: u32) {}
}
