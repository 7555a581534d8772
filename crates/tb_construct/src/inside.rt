//! The trees of what is offered, inside the node that it is offered at.

ghost use Rattle.std.specs.Prelude.{◌≡◌, map, IfOk, OnOk};
ghost use Rattle.tb_tree.specs.View.{plain_of, plains_of};
ghost use Rattle.tb_pattern.specs.View.{edges_of, pattern_at};
ghost use Rattle.tb_pattern.specs.Witness.{together};
ghost use Rattle.tb_pattern.specs.WitnessTree.{tree_of, trees_of, trees_of_all};
ghost use Rattle.tb_construct.specs.Seen.{nth_node, seen, row_seen};
ghost use Rattle.tb_construct.specs.Kids.{with_kids};

use crate::begin::begun;
use crate::kids::put;
use std::alloc::{AllocError, Global};
use tb_pattern::{Edge, Offer, PNode, Witness};
use tb_tree::{Items, Node, Tree};

/// The trees of a row, edge after edge.
#[cycle(trees)]
pub fn put_offers(
    alloc: Global,
    tree: &Tree,
    edges: &[Edge],
    row: &[Offer],
    kids: &mut Vec<Node>,
) -> Result<(), AllocError>
    ensures { OnOk result (plains_of kids.new.items ≡ with_kids (plains_of kids.old.items)
        (trees_of (edges_of edges.now) (row_seen (nth_node (plain_of tree.now)) row.now))) }
{
    let mut left = row;
    'edges: for edge in edges {
        let Some((offer, others)) = left.split_first() else {
            return Ok(());
        };
        put_trees(alloc, tree, &edge.to, offer.as_slice(), kids)?;
        left = others;
    }
    Ok(())
}

/// The trees of the witnesses that are offered together.
#[cycle(trees)]
fn put_trees(
    alloc: Global,
    tree: &Tree,
    to: &PNode,
    offer: &[Witness],
    kids: &mut Vec<Node>,
) -> Result<(), AllocError>
    ensures { OnOk result (plains_of kids.new.items ≡ with_kids (plains_of kids.old.items)
        (trees_of_all (pattern_at to.now) (together (map (seen (nth_node (plain_of tree.now))) offer.now)))) }
{
    'witnesses: for w in offer {
        put(node_tree(alloc, tree, to, w)?, kids)?;
    }
    Ok(())
}

/// The tree of a witness. A text has no kids, so what is offered at it is not looked at.
#[cycle(trees)]
fn node_tree(alloc: Global, tree: &Tree, to: &PNode, w: &Witness) -> Result<Node, AllocError>
    ensures { IfOk result (λ node. plain_of node
        ≡ tree_of (pattern_at to.now) (seen (nth_node (plain_of tree.now)) w.now)) }
{
    match begun(alloc, tree, w.node.index(), to.whole)? {
        Node::Elem { name, kids } => {
            let mut kids = kids.into_vec();
            put_offers(
                alloc,
                tree,
                to.edges.as_slice(),
                w.offers.as_slice(),
                &mut kids,
            )?;
            Ok(Node::Elem {
                name,
                kids: Items::from_vec(kids),
            })
        }
        leaf => Ok(leaf),
    }
}
