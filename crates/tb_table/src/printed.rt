//! Values as they print, by which they are told from others.

ghost use Rattle.std.specs.Prelude.{◌≡◌, ◌≤◌, ℕ, List, Option, Some, IfOk, IfSome};
ghost use Rattle.std.specs.Option.{option_map};
ghost use Rattle.tb_tree.specs.Printed.{escaped};
ghost use Rattle.tb_tree.specs.Value.{value_of};
ghost use Rattle.tb_tree.specs.Numbers.{count};
ghost use Rattle.tb_tree.specs.Nodes.{node_at};
ghost use Rattle.tb_tree.specs.View.{plain_of};
ghost use Rattle.tb_number.specs.Keys.{is_same_key};
ghost use Rattle.tb_number.specs.KeyParts.{same_parts};
ghost use Rattle.tb_label.specs.PrintedKeys.{printed_key};
ghost use Rattle.tb_table.specs.Documents.{docs_of};
ghost use Rattle.tb_table.specs.Rows.{cell_of};
ghost use Rattle.tb_table.specs.Seen.{IsNode, IsOver, node_seen, cell_seen, first_value};
ghost use Rattle.tb_table.specs.PrintedValues.{printed_of};

use crate::{CellRef, Documents, NodeRef};
use std::alloc::{AllocError, Global};
use tb_label::{printed, printed_key, printed_value};
use tb_number::Key;
use tb_tree::Tree;

/// The bytes that a value prints as, or no value.
#[derive(Debug, Drop)]
pub enum Printed<'a> {
    Absent,
    /// As they lie in a document.
    Lent(&'a [u8]),
    Made(Vec<u8>),
}

impl Printed<'_> {
    pub fn bytes(&self) -> Option<&[u8]>
        ensures { option_map (λ bytes. bytes.now) result ≡ printed_of self.now }
    {
        match self {
            Printed::Absent => None,
            Printed::Lent(bytes) => Some(bytes),
            Printed::Made(bytes) => Some(bytes.as_slice()),
        }
    }

    /// The key of the value that prints so, or that of no value.
    pub fn key(&self) -> Key<'_>
        ensures { (value : Option (List ℕ)) → printed_of self.now ≡ option_map escaped value → result ≡ printed_key value }
    {
        match self.bytes() {
            Some(bytes) => printed_key(bytes),
            None => Key::of(None),
        }
    }
}

impl Documents {
    /// The value of the node as it prints, lent where it lies in one piece.
    pub fn printed(&self, alloc: Global, node: NodeRef) -> Result<Printed<'_>, AllocError>
        requires { IsNode (docs_of self.now) node }
        ensures { IfOk result (λ printed. printed_of printed ≡ Some (escaped (value_of (node_seen (docs_of self.now) node).at.node))) }
    {
        let tree = self.store(node.document).tree();
        if let Some(bytes) = raw(tree, node.node) {
            return Ok(Printed::Lent(bytes));
        }
        let bytes = printed_value(alloc, tree, node.node)?;
        Ok(Printed::Made(bytes))
    }

    /// The value that is the cell's key, as it prints: that of its first node, or its value.
    pub fn first_printed(&self, alloc: Global, cell: CellRef<'_>) -> Result<Printed<'_>, AllocError>
        requires { IsOver (docs_of self.now) (cell_of cell) }
        ensures { IfOk result (λ printed. printed_of printed ≡ option_map escaped (first_value (cell_seen (docs_of self.now) (cell_of cell.entry)))) }
    {
        match cell {
            CellRef::Nodes([]) => Ok(Printed::Absent),
            CellRef::Nodes([first, ..]) => {
                let printed = self.printed(alloc, *first)?;
                Ok(printed)
            }
            CellRef::Value(None) => Ok(Printed::Absent),
            CellRef::Value(Some(value)) => {
                let bytes = printed(alloc, value)?;
                Ok(Printed::Made(bytes))
            }
        }
    }
}

/// The value as it prints, where it lies in one piece.
fn raw(tree: &Tree, number: u32) -> Option<&[u8]>
    requires some { 1 ≤ number }
    requires within { number ≤ count (plain_of tree.now) }
    ensures { IfSome result (λ printed. printed.now ≡ escaped (value_of (node_at (plain_of tree.now) number))) }
{
    match tree.raw_value(number) {
        Some(printed) => Some(printed),
        None => None,
    }
}
