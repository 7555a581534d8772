//! What trees are written from.

use std::alloc::Global;
use tb_pattern::Edge;
use tb_tree::{Tree, Writer};
use tb_twig::{Branch, Cursors, Runs};

/// The edges as they are laid out, their links, and the document.
#[derive(Debug, Drop)]
pub struct Ground<'a> {
    pub alloc: Global,
    pub laid: &'a [Branch],
    pub runs: Runs<'a>,
    pub tree: &'a Tree,
}

/// A node by its number, and the pattern node that it met, with the edges that leave that. The document node
/// has the number 0 on both sides; the lower end of edge e is pattern node e + 1.
#[derive(Debug, Drop)]
pub struct Stem<'a> {
    pub place: u32,
    pub whole: bool,
    pub edges: &'a [Edge],
    pub node: u32,
}

/// The page that is written, and where links were looked up last.
#[derive(Debug, Drop)]
pub struct Pen {
    pub page: Writer,
    pub cursors: Cursors,
}
