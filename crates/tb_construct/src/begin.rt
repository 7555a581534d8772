//! A matched node before anything is offered inside.

ghost use Rattle.std.specs.Prelude.{◌≡◌, ◌≤◌, IfOk};
ghost use Rattle.tb_tree.specs.View.{plain_of};
ghost use Rattle.tb_tree.specs.Plain.{no_kids};
ghost use Rattle.tb_tree.specs.Numbers.{count};
ghost use Rattle.tb_tree.specs.Nodes.{node_at};
ghost use Rattle.tb_pattern.specs.WitnessTree.{shown};
ghost use Rattle.tb_construct.specs.Seen.{nth_node};

use crate::own::{attribute, bare, element};
use std::alloc::{AllocError, Global};
use tb_tree::{Bytes, Items, Kind, Node, Tree};

/// The tree of the node of that number where nothing is offered at it. Only the document node has the number 0.
pub fn begun(alloc: Global, tree: &Tree, node: u32, whole: bool) -> Result<Node, AllocError>
    ensures { IfOk result (λ begun. plain_of begun ≡ shown whole (nth_node (plain_of tree.now) node) no_kids) }
{
    if node == 0 {
        return document_node(alloc, tree, whole);
    }
    let number = number_of(tree, node);
    match tree.kind(number) {
        Kind::Element => element(alloc, tree, number, whole),
        Kind::Attribute => attribute(alloc, tree, number, whole),
        Kind::Text => tree.node(alloc, number),
    }
}

/// The document node is like an element without a name, whose one kid is the root.
fn document_node(alloc: Global, tree: &Tree, whole: bool) -> Result<Node, AllocError>
    ensures { IfOk result (λ node. plain_of node ≡ shown whole (nth_node (plain_of tree.now) 0) no_kids) }
{
    let name = Bytes::from_vec(Vec::new(alloc));
    if !whole {
        return Ok(bare(alloc, name));
    }
    let mut kids = Vec::new(alloc);
    kids.push(tree.root(alloc)?)?;
    let kids = Items::from_vec(kids);
    Ok(Node::Elem { name, kids })
}

/// The number itself, or that of the root where no node has it.
fn number_of(tree: &Tree, node: u32) -> u32
    ensures some { 1 ≤ result }
    ensures within { result ≤ count (plain_of tree.now) }
    ensures same { node_at (plain_of tree.now) result ≡ node_at (plain_of tree.now) node }
{
    if 1 <= node && node as usize <= tree.count() {
        return node;
    }
    1
}
