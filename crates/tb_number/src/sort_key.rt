//! What rows are sorted by.

/// A column, counted from 0, and whether its order is turned round.
#[derive(Clone, Copy, Debug, PartialEq, Eq)]
pub struct SortKey {
    pub column: u32,
    pub descending: bool,
}
