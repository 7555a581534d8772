//! A node of a document.

ghost use Rattle.std.specs.Prelude.{◌≡◌, IfOk};

use crate::{Bytes, Items};
use std::alloc::{AllocError, Global};

/// The kids of an element: its attributes first, then its elements and texts in document order.
pub type Kids = Items<Node>;

/// An element, an attribute or a text. A sound one meets `IsSound`: attributes stand first and have
/// different names, no text is empty, no two texts stand side by side, and each name is a name.
#[derive(Debug, Drop)]
pub enum Node {
    Elem { name: Bytes, kids: Items<Node> },
    Attr { name: Bytes, value: Bytes },
    Text { value: Bytes },
}

impl Node {
    /// The same node with all that is below it.
    pub fn copy(&self, alloc: Global) -> Result<Node, AllocError>
        ensures { IfOk result (λ node. node ≡ self.now) }
    {
        match self {
            Node::Elem { name, kids } => {
                let name = name.copy(alloc)?;
                let kids = kids.as_slice();
                let mut copies = Vec::with_capacity(alloc, kids.len())?;
                'kids: for kid in kids {
                    copies.push(kid.copy(alloc)?)?;
                }
                let kids = Items::from_vec(copies);
                Ok(Node::Elem { name, kids })
            }
            Node::Attr { name, value } => {
                let name = name.copy(alloc)?;
                let value = value.copy(alloc)?;
                Ok(Node::Attr { name, value })
            }
            Node::Text { value } => {
                let value = value.copy(alloc)?;
                Ok(Node::Text { value })
            }
        }
    }
}
