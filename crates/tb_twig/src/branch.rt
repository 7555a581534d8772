//! The edges of a pattern in a flat list.

use tb_pattern::Mark;
use tb_span::Axis;

/// An edge with the number of the pattern node above it: node 0 is the document node, and node e + 1 the
/// lower end of edge e.
#[derive(Clone, Copy, Debug)]
pub struct Branch {
    pub up: u32,
    pub axis: Axis,
    pub mark: Mark,
}
