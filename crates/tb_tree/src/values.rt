//! The value of a node.

ghost use Rattle.std.specs.Prelude.{◌≡◌, ◌++◌, IfOk, OnOk};
ghost use Rattle.tb_tree.specs.Plain.{one};
ghost use Rattle.tb_tree.specs.View.{plain_of};
ghost use Rattle.tb_tree.specs.Value.{value_of, texts_below};

use crate::{Bytes, Node};
use std::alloc::{AllocError, Global};

/// An attribute's or a text's own value; of an element all texts below it, in document order.
pub fn value(alloc: Global, node: &Node) -> Result<Bytes, AllocError>
    ensures { IfOk result (λ bytes. bytes ≡ value_of (plain_of node.now)) }
{
    if let Node::Attr { value, .. } = node {
        return value.copy(alloc);
    }
    let mut texts = Vec::new(alloc);
    push_texts(node, &mut texts)?;
    Ok(Bytes::from_vec(texts))
}

/// Appends the text that the node is, or all texts below it.
fn push_texts(node: &Node, texts: &mut Vec<u8>) -> Result<(), AllocError>
    ensures { OnOk result (texts.new.items ≡ texts.old.items
        ++ texts_below (one (plain_of node.now))) }
{
    match node {
        Node::Elem { kids, .. } => {
            let kids = kids.as_slice();
            'kids: for kid in kids {
                push_texts(kid, texts)?;
            }
            Ok(())
        }
        Node::Attr { .. } => Ok(()),
        Node::Text { value } => texts.extend_from_slice(value.as_slice()),
    }
}
