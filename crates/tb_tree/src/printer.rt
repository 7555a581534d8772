//! Printing.

ghost use Rattle.std.specs.Prelude.{◌≡◌, ◌≤◌, ◌+◌, ◌++◌, ◌∷◌, [], ℕ, List, length, IsTrue, IfOk, OnOk, OnErr};
ghost use Rattle.tb_tree.specs.View.{plain_of, plains_of};
ghost use Rattle.tb_tree.specs.Plain.{one};
ghost use Rattle.tb_tree.specs.Sound.{is_attribute, are_sound};
ghost use Rattle.tb_tree.specs.Printed.{
  printed,
  printed_node,
  attribute_lines,
  content_lines,
  attribute_line,
  data_line,
  escaped,
};
ghost use Rattle.tb_tree.specs.Written.{named_line, has_escape, IsGrown};

use crate::Node;
use crate::escaped::push_escaped;
use std::alloc::{AllocError, Global};

/// Appends the lines of the nodes, one node after the other. After a refusal `out` is as it was.
pub fn write_nodes(alloc: Global, nodes: &[Node], out: &mut Vec<u8>) -> Result<(), AllocError>
    requires sound { IsTrue (are_sound (plains_of nodes.now)) }
    ensures printed { OnOk result (out.new.items ≡ out.old.items ++ printed (plains_of nodes.now)) }
    ensures unchanged { OnErr result (out.new.items ≡ out.old.items) }
{
    let _ = alloc;
    let before = out.len();
    let result = push_nodes(nodes, out);
    if result.is_err() {
        out.truncate(before);
    }
    result
}

fn push_nodes(nodes: &[Node], out: &mut Vec<u8>) -> Result<(), AllocError>
    ensures printed { OnOk result (out.new.items ≡ out.old.items ++ printed (plains_of nodes.now)) }
    ensures prefix { IsGrown out.old.items out.new.items }
{
    'nodes: for node in nodes {
        push_node(node, out)?;
    }
    Ok(())
}

#[cycle(printing)]
pub fn push_node(node: &Node, out: &mut Vec<u8>) -> Result<(), AllocError>
    ensures printed { OnOk result (out.new.items ≡ out.old.items
        ++ printed_node (plain_of node.now)) }
    ensures prefix { IsGrown out.old.items out.new.items }
{
    match node {
        Node::Elem { name, kids } => {
            push_attributes(kids.as_slice(), out)?;
            push_named(b'(', name.as_slice(), out)?;
            push_content(kids.as_slice(), out)?;
            push_named(b')', name.as_slice(), out)
        }
        Node::Attr { name, value } => {
            push_attribute_told(name.as_slice(), value.as_slice(), out)?;
            Ok(())
        }
        Node::Text { value } => {
            push_data_told(value.as_slice(), out)?;
            Ok(())
        }
    }
}

/// The kids but for the attributes.
#[cycle(printing)]
fn push_content(kids: &[Node], out: &mut Vec<u8>) -> Result<(), AllocError>
    ensures printed { OnOk result (out.new.items ≡ out.old.items
        ++ content_lines (plains_of kids.now)) }
    ensures prefix { IsGrown out.old.items out.new.items }
{
    'kids: for kid in kids {
        if is_attribute(kid) {
            continue;
        }
        push_node(kid, out)?;
    }
    Ok(())
}

fn is_attribute(node: &Node) -> bool
    ensures { result ≡ is_attribute (plain_of node.now) }
{
    match node {
        Node::Attr { .. } => true,
        _ => false,
    }
}

/// The attributes among the kids.
pub fn push_attributes(kids: &[Node], out: &mut Vec<u8>) -> Result<(), AllocError>
    ensures printed { OnOk result (out.new.items ≡ out.old.items
        ++ attribute_lines (plains_of kids.now)) }
    ensures prefix { IsGrown out.old.items out.new.items }
{
    'kids: for kid in kids {
        push_if_attribute(kid, out)?;
    }
    Ok(())
}

fn push_if_attribute(node: &Node, out: &mut Vec<u8>) -> Result<(), AllocError>
    ensures printed { OnOk result (out.new.items ≡ out.old.items
        ++ attribute_lines (one (plain_of node.now))) }
    ensures prefix { IsGrown out.old.items out.new.items }
{
    if let Node::Attr { name, value } = node {
        push_attribute_told(name.as_slice(), value.as_slice(), out)?;
    }
    Ok(())
}

pub fn push_named(lead: u8, name: &[u8], out: &mut Vec<u8>) -> Result<(), AllocError>
    ensures line { OnOk result (out.new.items ≡ out.old.items ++ named_line lead name.now) }
    ensures prefix { IsGrown out.old.items out.new.items }
{
    out.push(lead)?;
    out.extend_from_slice(name)?;
    out.push(b'\n')?;
    Ok(())
}

/// The line of an attribute, and whether its value has an escape.
pub fn push_attribute_told(name: &[u8], value: &[u8], out: &mut Vec<u8>) -> Result<bool, AllocError>
    ensures told { IfOk result (λ told. told ≡ has_escape value.now) }
    ensures line { OnOk result (out.new.items ≡ out.old.items ++ attribute_line name.now value.now) }
    ensures prefix { IsGrown out.old.items out.new.items }
{
    out.push(b'A')?;
    out.extend_from_slice(name)?;
    out.extend_from_slice(b" CDATA ")?;
    let told = push_escaped(value, out)?;
    out.push(b'\n')?;
    Ok(told)
}

/// The line of a text, and whether it has an escape.
pub fn push_data_told(value: &[u8], out: &mut Vec<u8>) -> Result<bool, AllocError>
    ensures told { IfOk result (λ told. told ≡ has_escape value.now) }
    ensures line { OnOk result (out.new.items ≡ out.old.items ++ data_line value.now) }
    ensures prefix { IsGrown out.old.items out.new.items }
{
    out.push(b'-')?;
    let told = push_escaped(value, out)?;
    out.push(b'\n')?;
    Ok(told)
}

/// More of the text whose line is the last one, and whether this has an escape.
pub fn lengthen_data(value: &[u8], out: &mut Vec<u8>) -> Result<bool, AllocError>
    ensures told { IfOk result (λ told. told ≡ has_escape value.now) }
    ensures line { OnOk result ((before : List ℕ) → out.old.items ≡ before ++ 10 ∷ []
        → out.new.items ≡ (before ++ escaped value.now) ++ 10 ∷ []) }
    ensures grown { OnOk result (length out.new.items ≤ length out.old.items + 1 + length (escaped value.now)) }
{
    out.pop();
    let told = push_escaped(value, out)?;
    out.push(b'\n')?;
    Ok(told)
}
