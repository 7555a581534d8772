//! The sum of a cell.

ghost use Rattle.std.specs.Prelude.{◌≡◌, ◌∷◌, [], None, Some, OnOk, OnErr, IfOk, All};
ghost use Rattle.tb_tree.specs.Rows.{values_of};
ghost use Rattle.tb_number.specs.Range.{sum_from, running_sum};
ghost use Rattle.tb_query.specs.Operands.{numbers_of};
ghost use Rattle.tb_table.specs.declared.cell.Cell.TheVariants.{Nodes};
ghost use Rattle.tb_table.specs.Documents.{docs_of};
ghost use Rattle.tb_table.specs.Rows.{cell_of};
ghost use Rattle.tb_table.specs.Seen.{cell_seen, IsNode, IsOver};
ghost use Rattle.tb_group.specs.declared.fault.GroupFault.TheVariants as faults;

use crate::GroupFault;
use std::alloc::Global;
use tb_number::{IntText, Past, RunningSum};
use tb_table::{CellRef, Documents, NodeRef};

/// The sum of the numbers of a cell, in their order.
pub fn cell_sum(alloc: Global, docs: &Documents, cell: CellRef<'_>) -> Result<i128, GroupFault>
    requires { IsOver (docs_of docs.now) (cell_of cell) }
    ensures sum { IfOk result (λ sum. running_sum (numbers_of (values_of (cell_seen (docs_of docs.now) (cell_of cell.entry)))) ≡ Some sum) }
    ensures past { result ≡ Err faults.Past → running_sum (numbers_of (values_of (cell_seen (docs_of docs.now) (cell_of cell.entry)))) ≡ None }
{
    let mut sum = RunningSum::new();
    add_cell(alloc, docs, cell, &mut sum)?;
    Ok(sum.total())
}

fn add_cell(
    alloc: Global,
    docs: &Documents,
    cell: CellRef<'_>,
    sum: &mut RunningSum,
) -> Result<(), GroupFault>
    requires { IsOver (docs_of docs.now) (cell_of cell) }
    ensures sum { OnOk result (sum_from sum.old (numbers_of (values_of (cell_seen (docs_of docs.now) (cell_of cell.entry)))) ≡ Some sum.new) }
    ensures past { result ≡ Err faults.Past → sum_from sum.old (numbers_of (values_of (cell_seen (docs_of docs.now) (cell_of cell.entry)))) ≡ None }
{
    match cell {
        CellRef::Nodes(nodes) => {
            add_nodes(alloc, docs, nodes, sum)?;
        }
        CellRef::Value(Some(value)) => {
            add_text(value, sum)?;
        }
        CellRef::Value(None) => {}
    }
    Ok(())
}

fn add_nodes(
    alloc: Global,
    docs: &Documents,
    nodes: &[NodeRef],
    sum: &mut RunningSum,
) -> Result<(), GroupFault>
    requires { All (IsNode (docs_of docs.now)) nodes.now }
    ensures sum { OnOk result (sum_from sum.old (numbers_of (values_of (cell_seen (docs_of docs.now) (Nodes nodes.now)))) ≡ Some sum.new) }
    ensures past { result ≡ Err faults.Past → sum_from sum.old (numbers_of (values_of (cell_seen (docs_of docs.now) (Nodes nodes.now)))) ≡ None }
{
    'nodes: for node in nodes {
        let text = docs.text(alloc, *node)?;
        add_text(text.bytes(), sum)?;
    }
    Ok(())
}

/// Adds the number of a text, where it has one.
fn add_text(text: &[u8], sum: &mut RunningSum) -> Result<(), Past>
    ensures sum { OnOk result (sum_from sum.old (numbers_of (text.now ∷ [])) ≡ Some sum.new) }
    ensures past { OnErr result (sum_from sum.old (numbers_of (text.now ∷ [])) ≡ None) }
{
    match IntText::read(text) {
        Some(number) => sum.add(&number),
        None => Ok(()),
    }
}
