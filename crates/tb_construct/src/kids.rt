//! Kids that are put in one after the other.

ghost use Rattle.std.specs.Prelude.{◌≡◌, OnOk};
ghost use Rattle.tb_tree.specs.View.{plain_of, plains_of};
ghost use Rattle.tb_tree.specs.Plain.{text, one, joined_kids};
ghost use Rattle.tb_construct.specs.Kids.{with_kid};

use std::alloc::AllocError;
use tb_tree::{Bytes, Node};

/// One node more.
pub fn put(node: Node, kids: &mut Vec<Node>) -> Result<(), AllocError>
    ensures { OnOk result (plains_of kids.new.items ≡ with_kid (plains_of kids.old.items) (plain_of node)) }
{
    match node {
        Node::Text { value } => put_text(value, kids),
        other => {
            kids.push(other)?;
            Ok(())
        }
    }
}

/// One text more.
pub fn put_text(value: Bytes, kids: &mut Vec<Node>) -> Result<(), AllocError>
    ensures { OnOk result (plains_of kids.new.items ≡ with_kid (plains_of kids.old.items) (text value)) }
{
    if value.as_slice().is_empty() {
        return Ok(());
    }
    let Some(last) = kids.pop() else {
        return put_apart(value, kids);
    };
    match last {
        Node::Text { value: before } => {
            let mut text = before.into_vec();
            text.extend_from_slice(value.as_slice())?;
            put_apart(Bytes::from_vec(text), kids)
        }
        other => {
            kids.push(other)?;
            put_apart(value, kids)
        }
    }
}

/// A text that joins with nothing.
fn put_apart(value: Bytes, kids: &mut Vec<Node>) -> Result<(), AllocError>
    ensures { OnOk result (plains_of kids.new.items ≡ joined_kids (plains_of kids.old.items) (one (text value))) }
{
    kids.push(Node::Text { value })?;
    Ok(())
}
