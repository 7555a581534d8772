//! Aggregates of a list of values.

/// What is taken of the list. Sums, least and greatest values look at integer texts alone.
#[derive(Clone, Copy, Debug, PartialEq, Eq)]
pub enum AggKind {
    Count,
    Sum,
    Min,
    Max,
}
