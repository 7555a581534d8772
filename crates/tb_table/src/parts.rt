//! How the cells of a column lie in memory.

ghost use Rattle.std.specs.Prelude.{◌≡◌, ◌≤◌, length};
ghost use Rattle.tb_table.specs.Layout.{span_of};

use crate::{Cell, NodeRef};

/// A part of a list: from `first`, counted from 0, to before `end`.
#[derive(Clone, Copy, Debug)]
pub struct Span {
    pub first: usize,
    pub end: usize,
}

/// The cells of a column. Cells share the nodes and the bytes that their spans name.
#[derive(Drop)]
pub enum Parts {
    /// A node a cell; one of number 0, which no node has, is none.
    Single(Vec<NodeRef>),
    /// The nodes of each cell's span.
    Lists {
        spans: Vec<Span>,
        nodes: Vec<NodeRef>,
    },
    /// The bytes of each cell's span as its value; a span that ends before it begins is none.
    Values {
        spans: Vec<Span>,
        bytes: Vec<u8>,
    },
    /// Cell by cell, of either kind.
    Mixed(Vec<Cell>),
}

/// The items of the span; none where it ends before it begins.
pub fn span_of<T>(items: &[T], span: Span) -> &[T]
    requires { span.end ≤ length items.now }
    ensures { result.now ≡ span_of items.now span }
{
    if span.end <= span.first {
        return &items[..0];
    }
    &items[span.first..span.end]
}
