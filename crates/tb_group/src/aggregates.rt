//! A column of aggregates.

ghost use Rattle.std.specs.Prelude.{◌≡◌, ◌+◌, None, Some, length, map, option_map, IfOk};
ghost use Rattle.tb_tree.specs.Documents.{Docs};
ghost use Rattle.tb_tree.specs.Rows.{nodes_of, values_of};
ghost use Rattle.tb_number.specs.Canonical.{canonical_text};
ghost use Rattle.tb_query.specs.Operands.{numbers_of};
ghost use Rattle.tb_query.specs.Operators.{cell_aggregate, aggregated};
ghost use Rattle.tb_table.specs.Documents.{docs_of};
ghost use Rattle.tb_table.specs.Rows.{cell_of, with_cells};
ghost use Rattle.tb_table.specs.Seen.{cell_seen, rows_seen, IsOver, AreOver};
ghost use Rattle.tb_group.specs.declared.fault.GroupFault.TheVariants as faults;
ghost use Rattle.tb_group.specs.Told.{IsTold, IsToldOf};
ghost use Rattle.tb_group.specs.Extremes.{best_of};
ghost use Rattle.tb_group.specs.Columns.{row_values};
ghost use Rattle.tb_table.specs.declared.cell.Cell.TheVariants.{Value};

use crate::GroupFault;
use crate::extreme::keep_cell;
use crate::sum::cell_sum;
use crate::told::{push_number, span_behind};
use std::alloc::{AllocError, Global};
use tb_number::{AggKind, CmpOp};
use tb_table::{CellRef, Column, Documents, Span, Table};

/// Each row gets the aggregate of one of its columns as a cell more. A sum may be past the range.
pub fn aggregate(
    alloc: Global,
    table: Table,
    from: u32,
    kind: AggKind,
    docs: &Documents,
) -> Result<Table, GroupFault>
    requires { AreOver (docs_of docs.now) table.rows }
    ensures rows { IfOk result (λ made. aggregated from kind (rows_seen (docs_of docs.now) table.rows) ≡ Some (rows_seen (docs_of docs.now) made.rows)) }
    ensures past { result ≡ Err faults.Past → aggregated from kind (rows_seen (docs_of docs.now) table.rows) ≡ None }
    ensures over { IfOk result (λ made. AreOver (docs_of docs.now) made.rows) }
    ensures width { IfOk result (λ made. made.width ≡ table.width + 1) }
{
    let column = column_of(alloc, &table, from, kind, docs)?;
    let made = with_column(table, column)?;
    Ok(made)
}

/// The aggregates of the rows.
fn column_of(
    alloc: Global,
    table: &Table,
    from: u32,
    kind: AggKind,
    docs: &Documents,
) -> Result<Column, GroupFault>
    requires { AreOver (docs_of docs.now) table.now.rows }
    ensures values { IfOk result (λ column. option_map (map Value) (row_values (docs_of docs.now) from kind table.now.rows) ≡ Some column) }
    ensures past { result ≡ Err faults.Past → row_values (docs_of docs.now) from kind table.now.rows ≡ None }
{
    let mut spans = Vec::with_capacity(alloc, table.len())?;
    let mut bytes = Vec::new(alloc);
    'rows: for row in 0..table.len() {
        let cell = table.cell(row, from as usize);
        spans.push(push_aggregate(alloc, docs, kind, cell, &mut bytes)?)?;
    }
    Ok(Column::of_values(spans, bytes))
}

fn with_column(table: Table, column: Column) -> Result<Table, AllocError>
    requires { length column ≡ length table.rows }
    ensures rows { IfOk result (λ made. made.rows ≡ with_cells table.rows column) }
    ensures width { IfOk result (λ made. made.width ≡ table.width + 1) }
{
    let mut table = table;
    table.push_column(column)?;
    Ok(table)
}

/// Appends the aggregate of the cell, and tells where it stands.
fn push_aggregate(
    alloc: Global,
    docs: &Documents,
    kind: AggKind,
    cell: CellRef<'_>,
    bytes: &mut Vec<u8>,
) -> Result<Span, GroupFault>
    requires { IsOver (docs_of docs.now) (cell_of cell) }
    ensures told { IfOk result (IsToldOf (cell_aggregate kind (cell_seen (docs_of docs.now) (cell_of cell.entry))) bytes.old.items bytes.new.items) }
    ensures past { result ≡ Err faults.Past → cell_aggregate kind (cell_seen (docs_of docs.now) (cell_of cell.entry)) ≡ None }
{
    match kind {
        AggKind::Count => {
            let span = push_number(node_count(cell) as i128, bytes)?;
            Ok(span)
        }
        AggKind::Sum => {
            let sum = cell_sum(alloc, docs, cell)?;
            let span = push_number(sum, bytes)?;
            Ok(span)
        }
        AggKind::Min => {
            let span = push_best(alloc, docs, CmpOp::Lt, cell, bytes)?;
            Ok(span)
        }
        AggKind::Max => {
            let span = push_best(alloc, docs, CmpOp::Gt, cell, bytes)?;
            Ok(span)
        }
    }
}

fn node_count(cell: CellRef<'_>) -> usize
    ensures { (docs : Docs) → result ≡ length (nodes_of (cell_seen docs (cell_of cell.entry))) }
{
    match cell {
        CellRef::Nodes(nodes) => nodes.len(),
        CellRef::Value(_value) => 0,
    }
}

/// Appends the best number of the cell, where it has one.
fn push_best(
    alloc: Global,
    docs: &Documents,
    op: CmpOp,
    cell: CellRef<'_>,
    bytes: &mut Vec<u8>,
) -> Result<Span, AllocError>
    requires { IsOver (docs_of docs.now) (cell_of cell) }
    ensures { IfOk result (IsTold (option_map canonical_text (best_of op (numbers_of (values_of (cell_seen (docs_of docs.now) (cell_of cell.entry)))))) bytes.old.items bytes.new.items) }
{
    let first = bytes.len();
    keep_cell(alloc, docs, op, cell, first, bytes)?;
    Ok(span_behind(first, bytes.as_slice()))
}
