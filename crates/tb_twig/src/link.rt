//! What the join of an edge finds, by numbers of nodes.

/// The numbers of two nodes that an edge of the pattern joins.
#[derive(Clone, Copy, Debug, PartialEq, Eq)]
pub struct Link {
    pub above: u32,
    pub below: u32,
}
