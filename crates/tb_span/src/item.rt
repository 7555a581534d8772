//! What lists of nodes are made of.

ghost use Rattle.std.specs.Prelude.{◌≡◌};

use crate::Label;
use std::marker::Model;

/// Whether an edge goes to kids or to all nodes below.
#[derive(Clone, Copy, Debug, PartialEq, Eq)]
pub enum Axis {
    Child,
    Descendant,
}

/// The places of an ancestor and of a descendant in their two lists, from 0.
#[derive(Clone, Copy, Debug, PartialEq, Eq)]
pub struct Pair {
    pub a: u32,
    pub d: u32,
}

/// A node of a document by its number: 0 for the document node, then document order.
#[derive(Clone, Copy, Debug, PartialEq, Eq)]
pub struct NodeId {
    index: u32,
}

impl Model for NodeId {
    ghost use Rattle.std.specs.Prelude.{ℕ};

    ghost Value = { ℕ };

    ghost view = { λ id. id.index };

    ghost inverse = { λ index. record { index = index } };
}

impl NodeId {
    pub fn new(index: u32) -> NodeId
        ensures { result ≡ index }
    {
        NodeId { index }
    }

    pub fn index(&self) -> u32
        ensures { result ≡ self.now }
    {
        self.index
    }
}

/// A node with its label.
#[derive(Clone, Copy, Debug)]
pub struct Item {
    pub label: Label,
    pub node: NodeId,
}
