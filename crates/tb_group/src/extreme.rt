//! The least or the greatest number of a cell, kept as text at the end of the bytes.

ghost use Rattle.std.specs.Prelude.{◌≡◌, ◌≤◌, ◌++◌, ℕ, List, ◌∷◌, [], length, OnOk, All, Option, ℤ};
ghost use Rattle.tb_tree.specs.Rows.{values_of};
ghost use Rattle.tb_table.specs.declared.cell.Cell.TheVariants.{Nodes};
ghost use Rattle.tb_table.specs.Documents.{docs_of};
ghost use Rattle.tb_table.specs.Rows.{cell_of};
ghost use Rattle.tb_table.specs.Seen.{cell_seen, IsNode, IsOver};
ghost use Rattle.tb_group.specs.Extremes.{beats, kept_with, kept_text, Keeps};

use std::alloc::{AllocError, Global};
use tb_number::{CmpOp, IntText};
use tb_table::{CellRef, Documents, NodeRef};

/// Keeps the best number of the cell behind the first bytes, in place of what was kept there.
pub fn keep_cell(
    alloc: Global,
    docs: &Documents,
    op: CmpOp,
    cell: CellRef<'_>,
    first: usize,
    bytes: &mut Vec<u8>,
) -> Result<(), AllocError>
    requires over { IsOver (docs_of docs.now) (cell_of cell) }
    requires within { first ≤ length bytes.old.items }
    ensures kept { OnOk result (Keeps op first (values_of (cell_seen (docs_of docs.now) (cell_of cell.entry))) bytes.old.items bytes.new.items) }
    ensures within { OnOk result (first ≤ length bytes.new.items) }
{
    match cell {
        CellRef::Nodes(nodes) => {
            keep_nodes(alloc, docs, op, nodes, first, bytes)?;
        }
        CellRef::Value(Some(value)) => {
            keep_text(alloc, op, value, first, bytes)?;
        }
        CellRef::Value(None) => {}
    }
    Ok(())
}

fn keep_nodes(
    alloc: Global,
    docs: &Documents,
    op: CmpOp,
    nodes: &[NodeRef],
    first: usize,
    bytes: &mut Vec<u8>,
) -> Result<(), AllocError>
    requires nodes { All (IsNode (docs_of docs.now)) nodes.now }
    requires within { first ≤ length bytes.old.items }
    ensures kept { OnOk result (Keeps op first (values_of (cell_seen (docs_of docs.now) (Nodes nodes.now))) bytes.old.items bytes.new.items) }
    ensures within { OnOk result (first ≤ length bytes.new.items) }
{
    'nodes: for node in nodes {
        let text = docs.text(alloc, *node)?;
        keep_text(alloc, op, text.bytes(), first, bytes)?;
    }
    Ok(())
}

/// Keeps the number of the text, where it has one and that is better.
fn keep_text(
    alloc: Global,
    op: CmpOp,
    text: &[u8],
    first: usize,
    bytes: &mut Vec<u8>,
) -> Result<(), AllocError>
    requires { first ≤ length bytes.old.items }
    ensures kept { OnOk result (Keeps op first (text.now ∷ []) bytes.old.items bytes.new.items) }
    ensures within { OnOk result (first ≤ length bytes.new.items) }
{
    match IntText::read(text) {
        Some(number) => {
            keep_better(alloc, op, &number, first, bytes)?;
        }
        None => {}
    }
    Ok(())
}

fn keep_better(
    alloc: Global,
    op: CmpOp,
    number: &IntText<'_>,
    first: usize,
    bytes: &mut Vec<u8>,
) -> Result<(), AllocError>
    requires { first ≤ length bytes.old.items }
    ensures kept { OnOk result ((before : List ℕ) (kept : Option ℤ) → length before ≡ first → bytes.old.items ≡ before ++ kept_text kept
        → bytes.new.items ≡ before ++ kept_text (kept_with op kept number.now)) }
    ensures within { OnOk result (first ≤ length bytes.new.items) }
{
    if !is_better(op, number, &bytes[first..]) {
        return Ok(());
    }
    bytes.truncate(first);
    number.write(alloc, bytes)?;
    Ok(())
}

/// Whether the number is to be kept in place of the one that is written, where one is.
fn is_better(op: CmpOp, number: &IntText<'_>, written: &[u8]) -> bool
    ensures { (kept : Option ℤ) → written.now ≡ kept_text kept → result ≡ beats op kept number.now }
{
    match IntText::read(written) {
        Some(kept) => op.holds(number.compare(&kept)),
        None => true,
    }
}
