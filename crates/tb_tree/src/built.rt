//! Nodes of a document, made anew from its text and extents.

ghost use Rattle.std.specs.Prelude.{◌≡◌, ◌<◌, ◌+◌, ◌^◌, ℕ, [], map, slice_index_or, IfOk};
ghost use Rattle.tb_tree.specs.Plain.{Plain, Plains, one};
ghost use Rattle.tb_tree.specs.View.{plain_of, plains_of};
ghost use Rattle.tb_tree.specs.Escapes.{unescaped};
ghost use Rattle.tb_tree.specs.Extents.{named};
ghost use Rattle.tb_tree.specs.FlatTrees.{given, raw_behind, node_by, AreNodes, IsOneNode};

use crate::source::{Source, last_of, prefix, raw_behind, suffix};
use crate::{Bytes, Extent, Items, Kind, Node, push_unescaped};
use std::alloc::{AllocError, Global};

/// The nodes of these extents, the first of which has the number.
fn nodes_of(
    alloc: Global,
    source: &Source<'_>,
    extents: &[Extent],
    number: usize,
) -> Result<Vec<Node>, AllocError>
    ensures { IfOk result (λ nodes. (level : ℕ) → (ks : Plains)
        → AreNodes source.now.text.now (map (named source.now.elements.now source.now.attributes.now) extents.now) number level ks
        → plains_of nodes.items ≡ ks) }
{
    let mut nodes = Vec::new(alloc);
    let mut rest = extents;
    let mut number = number;
    'nodes: while let [first, ..] = rest {
        let behind = suffix(rest, 1);
        let last = last_of(first);
        let below = last.saturating_sub(number);
        let kids = nodes_of(
            alloc,
            source,
            prefix(behind, below),
            number.saturating_add(1),
        )?;
        nodes.push(node_by(alloc, source, first, kids)?)?;
        rest = suffix(behind, below);
        number = last + 1;
    }
    Ok(nodes)
}

/// The one node that the source's extents are of, whose number is this.
pub fn node_of(alloc: Global, source: &Source<'_>, number: usize) -> Result<Node, AllocError>
    requires { IsOneNode source.now.text.now source.now.extents.now source.now.elements.now source.now.attributes.now number }
    ensures { IfOk result (λ node. (level : ℕ) → (plain : Plain)
        → AreNodes source.now.text.now (map (named source.now.elements.now source.now.attributes.now) source.now.extents.now) number level (one plain)
        → plain_of node ≡ plain) }
{
    let mut nodes = nodes_of(alloc, source, source.extents, number)?;
    match nodes.pop() {
        Some(node) => Ok(node),
        None => unreachable!(),
    }
}

/// The node of the extent, with these kids.
fn node_by(
    alloc: Global,
    source: &Source<'_>,
    extent: &Extent,
    kids: Vec<Node>,
) -> Result<Node, AllocError>
    ensures { IfOk result (λ node. plain_of node
        ≡ node_by source.now.text.now (named source.now.elements.now source.now.attributes.now extent.now) (plains_of kids.items) extent.now.kind) }
{
    match extent.kind {
        Kind::Element => {
            let name = name_copy(alloc, source.elements, extent.name)?;
            let kids = Items::from_vec(kids);
            Ok(Node::Elem { name, kids })
        }
        Kind::Attribute => {
            let name = name_copy(alloc, source.attributes, extent.name)?;
            let before = 8 + name.as_slice().len();
            let value = value_behind(alloc, source.text, before, extent)?;
            Ok(Node::Attr { name, value })
        }
        Kind::Text => {
            let value = value_behind(alloc, source.text, 1, extent)?;
            Ok(Node::Text { value })
        }
    }
}

/// The name of that number, or no byte.
fn name_copy(alloc: Global, names: &[Bytes], number: u32) -> Result<Bytes, AllocError>
    ensures { IfOk result (λ name. name ≡ slice_index_or names.now number []) }
{
    match names.get(number as usize) {
        Some(name) => name.copy(alloc),
        None => Ok(Bytes::from_vec(Vec::new(alloc))),
    }
}

/// What the extent's line gives behind its first bytes and before its end, or no byte.
fn value_behind(
    alloc: Global,
    text: &[u8],
    before: usize,
    extent: &Extent,
) -> Result<Bytes, AllocError>
    requires { before < 2 ^ 63 + 8 }
    ensures { IfOk result (λ value. value
        ≡ given (unescaped (raw_behind text.now before extent.now.from extent.now.to))) }
{
    let mut value = Vec::new(alloc);
    if !push_unescaped(raw_behind(text, before, extent), &mut value)? {
        value.clear();
    }
    Ok(Bytes::from_vec(value))
}
