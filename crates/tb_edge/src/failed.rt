//! The one error of a source and of a sink.

/// A read or a write failed, and the object's count of faults rose.
#[derive(Clone, Copy, Debug, PartialEq, Eq)]
pub struct Failed;
