//! The document of a node that a caller built: its parts go into a draft.

ghost use Rattle.std.specs.Prelude.{◌≡◌, ◌≤◌, ◌<◌, ◌^◌, length, IfOk, OnOk};
ghost use Rattle.tb_tree.specs.View.{plain_of, plains_of};
ghost use Rattle.tb_tree.specs.Plain.{one, is_element};
ghost use Rattle.tb_tree.specs.Sound.{IsSound};
ghost use Rattle.tb_tree.specs.Levels.{levels};
ghost use Rattle.tb_tree.specs.Printed.{printed_node};
ghost use Rattle.tb_tree.specs.Planting.{IsReady, AwaitsThem, Plants, Waits, IsPlanted};

use crate::{Draft, Node, Tree};
use std::alloc::{AllocError, Global};

impl Tree {
    /// The document whose root is the node, or none where the node is no element.
    pub fn of_node(alloc: Global, node: &Node) -> Result<Option<Tree>, AllocError>
        requires sound { IsSound (plain_of node.now) }
        requires levels { levels (one (plain_of node.now)) ≤ 512 }
        requires short { length (printed_node (plain_of node.now)) < 2 ^ 32 }
        ensures { IfOk result (λ tree. IsPlanted (plain_of node.now) tree) }
    {
        if !is_element(node) {
            return Ok(None);
        }
        let mut draft = Draft::with_capacity(alloc, 0)?;
        plant(node, &mut draft)?;
        Ok(Some(draft.finish()))
    }
}

fn is_element(node: &Node) -> bool
    ensures { result ≡ is_element (plain_of node.now) }
{
    match node {
        Node::Elem { .. } => true,
        _ => false,
    }
}

/// Puts the node in, but for an attribute, which its element puts in.
#[cycle(planting)]
fn plant(node: &Node, draft: &mut Draft) -> Result<(), AllocError>
    requires ready { IsReady draft.old (one (plain_of node.now)) }
    ensures planted { OnOk result (Plants draft.old draft.new (one (plain_of node.now))) }
{
    match node {
        Node::Elem { name, kids } => {
            plant_attributes(kids.as_slice(), draft)?;
            draft.start(name.as_slice())?;
            plant_kids(kids.as_slice(), draft)?;
            draft.end(name.as_slice())?;
            Ok(())
        }
        Node::Attr { .. } => Ok(()),
        Node::Text { value } => draft.more_text(value.as_slice()),
    }
}

/// Puts the kids in, but for the attributes.
#[cycle(planting)]
fn plant_kids(kids: &[Node], draft: &mut Draft) -> Result<(), AllocError>
    requires ready { IsReady draft.old (plains_of kids.now) }
    ensures planted { OnOk result (Plants draft.old draft.new (plains_of kids.now)) }
{
    'kids: for kid in kids {
        plant(kid, draft)?;
    }
    Ok(())
}

/// The attributes among the kids wait.
fn plant_attributes(kids: &[Node], draft: &mut Draft) -> Result<(), AllocError>
    requires ready { AwaitsThem draft.old (plains_of kids.now) }
    ensures waits { OnOk result (Waits draft.old draft.new (plains_of kids.now)) }
{
    'kids: for kid in kids {
        let Node::Attr { name, value } = kid else {
            continue;
        };
        draft.attribute(name.as_slice(), value.as_slice())?;
    }
    Ok(())
}
