//! The text of a node.

ghost use Rattle.std.specs.Prelude.{◌≡◌, ◌≤◌, IfOk, IfSome};
ghost use Rattle.tb_tree.specs.View.{plain_of};
ghost use Rattle.tb_tree.specs.Numbers.{count};
ghost use Rattle.tb_tree.specs.Nodes.{node_at};
ghost use Rattle.tb_tree.specs.Value.{value_of};
ghost use Rattle.tb_table.specs.Documents.{docs_of};
ghost use Rattle.tb_table.specs.Seen.{node_seen, IsNode};
ghost use Rattle.tb_table.specs.Texts.{text_of};

use crate::{Documents, NodeRef};
use std::alloc::{AllocError, Global};
use tb_tree::{Bytes, Tree};

/// A text that stands in a document, or one that was put together.
#[derive(Debug, Drop)]
pub enum Text<'a> {
    Lent(&'a [u8]),
    Made(Bytes),
}

impl Text<'_> {
    pub fn bytes(&self) -> &[u8]
        ensures { result.now ≡ text_of self.now }
    {
        match self {
            Text::Lent(text) => text,
            Text::Made(text) => text.as_slice(),
        }
    }
}

impl Documents {
    /// The value of a node, lent where it stands in one piece.
    pub fn text(&self, alloc: Global, node: NodeRef) -> Result<Text<'_>, AllocError>
        requires { IsNode (docs_of self.now) node }
        ensures { IfOk result (λ text. text_of text ≡ value_of (node_seen (docs_of self.now) node).at.node) }
    {
        let tree = self.store(node.document).tree();
        if let Some(text) = lent(tree, node.node) {
            return Ok(Text::Lent(text));
        }
        let text = tree.value(alloc, node.node)?;
        Ok(Text::Made(text))
    }
}

/// The value where it is lent.
fn lent(tree: &Tree, number: u32) -> Option<&[u8]>
    requires some { 1 ≤ number }
    requires within { number ≤ count (plain_of tree.now) }
    ensures { IfSome result (λ value. value.now ≡ value_of (node_at (plain_of tree.now) number)) }
{
    match tree.lent_value(number) {
        Some(value) => Some(value),
        None => None,
    }
}
