//! Paths: from a document or a variable, step by step, to nodes.

use tb_span::Axis;
use tb_tree::{Bytes, Items, Test};

/// Where a path starts.
#[derive(Debug, Drop)]
pub enum Start {
    /// The node of the document of this name.
    Document(Bytes),
    /// The variable of this number. Variables are counted from 0, in the order of their bindings.
    Var(u32),
}

/// From a node to those on its axis that meet the test.
#[derive(Debug, Drop)]
pub struct Step {
    pub axis: Axis,
    pub test: Test,
}

#[derive(Debug, Drop)]
pub struct Path {
    pub start: Start,
    pub steps: Items<Step>,
}
