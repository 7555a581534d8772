//! How joins are run.

/// How many workers share a join and how small its pieces are; in which order the edges of a pattern are
/// joined; and whether traces are printed. No answer depends on them.
#[derive(Clone, Copy, Debug, PartialEq, Eq)]
pub struct Settings {
    /// From 1 to 16.
    pub workers: u32,
    /// The most descendants of one piece, from 1.
    pub grain: u32,
    pub order: OrderRule,
    pub trace: bool,
}

/// The edges of a pattern as they are written, or from the last one to the first.
#[derive(Clone, Copy, Debug, PartialEq, Eq)]
pub enum OrderRule {
    Written,
    Reverse,
}
