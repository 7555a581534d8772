//! Nodes that are made from what a document tells of a number.

ghost use Rattle.std.specs.Prelude.{◌≡◌, ◌≤◌, IfOk};
ghost use Rattle.tb_tree.specs.View.{plain_of};
ghost use Rattle.tb_tree.specs.Plain.{elem, no_kids};
ghost use Rattle.tb_tree.specs.Numbers.{count};
ghost use Rattle.tb_tree.specs.Nodes.{node_at};
ghost use Rattle.tb_tree.specs.Extents.{kind_of};
ghost use Rattle.tb_tree.specs.declared.extent.Kind.TheVariants.{Element, Attribute};
ghost use Rattle.tb_pattern.specs.WitnessTree.{shown};

use crate::kids::put_text;
use std::alloc::{AllocError, Global};
use tb_tree::{Bytes, Items, Node, Tree};

/// An element with its own attributes and kids where it is marked, and else with none.
pub fn element(alloc: Global, tree: &Tree, number: u32, whole: bool) -> Result<Node, AllocError>
    requires some { 1 ≤ number }
    requires within { number ≤ count (plain_of tree.now) }
    requires element { kind_of (node_at (plain_of tree.now) number) ≡ Element }
    ensures { IfOk result (λ node. plain_of node ≡ shown whole (node_at (plain_of tree.now) number) no_kids) }
{
    if whole {
        return tree.node(alloc, number);
    }
    let name = Bytes::from_vec(tree.name(number).to_vec(alloc)?);
    Ok(bare(alloc, name))
}

/// An element whose name is `@` and that of the attribute, with its value as a text where it is marked.
pub fn attribute(alloc: Global, tree: &Tree, number: u32, whole: bool) -> Result<Node, AllocError>
    requires some { 1 ≤ number }
    requires within { number ≤ count (plain_of tree.now) }
    requires attribute { kind_of (node_at (plain_of tree.now) number) ≡ Attribute }
    ensures { IfOk result (λ node. plain_of node ≡ shown whole (node_at (plain_of tree.now) number) no_kids) }
{
    let mut name = Vec::new(alloc);
    name.push(b'@')?;
    name.extend_from_slice(tree.name(number))?;
    let name = Bytes::from_vec(name);
    let mut kids = Vec::new(alloc);
    if whole {
        put_text(tree.value(alloc, number)?, &mut kids)?;
    }
    let kids = Items::from_vec(kids);
    Ok(Node::Elem { name, kids })
}

/// An element without attributes and kids.
pub fn bare(alloc: Global, name: Bytes) -> Node
    ensures { plain_of result ≡ elem name no_kids }
{
    Node::Elem {
        name,
        kids: Items::from_vec(Vec::new(alloc)),
    }
}
