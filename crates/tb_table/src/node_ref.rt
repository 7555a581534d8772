//! Nodes as tables name them.

/// A node: the number of its document, from 0, and its own number in that document, from 1.
#[derive(Clone, Copy, Debug, PartialEq, Eq)]
pub struct NodeRef {
    pub document: u32,
    pub node: u32,
}
