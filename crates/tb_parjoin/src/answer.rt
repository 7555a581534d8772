//! What a query is answered.

use crate::JoinTrace;

/// The number of trees, their printed lines, and a trace of each join.
#[derive(Debug, Drop)]
pub struct Answer {
    pub count: u64,
    pub text: Vec<u8>,
    pub trace: Vec<JoinTrace>,
}
