//! Witnesses: ways in which a pattern matches.

use tb_span::NodeId;
use tb_tree::Items;

/// A matched node, and what is offered for each edge of its pattern node, in written order.
#[derive(Debug, Drop)]
pub struct Witness {
    pub node: NodeId,
    pub offers: Items<Offer>,
}

/// The list of the witnesses that are offered together for an edge.
pub type Offer = Items<Witness>;
