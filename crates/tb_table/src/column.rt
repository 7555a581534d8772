//! One column of a table.

ghost use Rattle.std.specs.Prelude.{◌≡◌, ◌<◌, ◌≤◌, All, get_or, length, map, IfOk};
ghost use Rattle.tb_table.specs.Layout.{single, listed, valued, cells_of, AreWithin, IsWithin};
ghost use Rattle.tb_table.specs.Rows.{no_cell, cell_of, picked};

use crate::gather::{copies, copies_of, picked_of};
use crate::parts::{Parts, Span, span_of};
use crate::{Cell, CellRef, NodeRef};
use std::alloc::{AllocError, Global};
use std::marker::Model;

/// Cells, one for each row. Contracts see the list of them.
#[derive(Drop)]
pub struct Column {
    parts: Parts,
}

impl Model for Column {
    ghost use Rattle.std.specs.Prelude.{List};
    ghost use Rattle.std.specs.Coded.{codes};
    ghost use Rattle.tb_table.specs.declared.cell.Cell.{Cell};
    ghost use Rattle.tb_table.specs.contracts.cell.Cell as cell_rows;

    ghost Value = { List Cell };

    ghost coded = { Prim.hlevel (codes, cell_rows.the_row.coded) };

    ghost use Rattle.tb_table.specs.Layout.{cells_of, IsWithin};

    ghost view = { λ column. cells_of column.parts };

    ghost invariant = { λ column. IsWithin column.parts };
}

impl Column {
    /// A node a row; one of number 0 is none.
    pub fn of_nodes(nodes: Vec<NodeRef>) -> Column
        ensures { result ≡ map single nodes.items }
    {
        Column {
            parts: Parts::Single(nodes),
        }
    }

    /// For each row the nodes of its span.
    pub fn of_lists(spans: Vec<Span>, nodes: Vec<NodeRef>) -> Column
        requires { AreWithin (length nodes.items) spans.items }
        ensures { result ≡ map (listed nodes.items) spans.items }
    {
        Column {
            parts: Parts::Lists { spans, nodes },
        }
    }

    /// For each row the bytes of its span, or no value where the span ends before it begins.
    pub fn of_values(spans: Vec<Span>, bytes: Vec<u8>) -> Column
        requires { AreWithin (length bytes.items) spans.items }
        ensures { result ≡ map (valued bytes.items) spans.items }
    {
        Column {
            parts: Parts::Values { spans, bytes },
        }
    }

    /// These cells, of either kind.
    pub fn of_cells(cells: Vec<Cell>) -> Column
        ensures { result ≡ cells.items }
    {
        Column {
            parts: Parts::Mixed(cells),
        }
    }

    /// How many cells.
    pub fn len(&self) -> usize
        ensures { result ≡ length self.now }
    {
        match &self.parts {
            Parts::Single(nodes) => nodes.len(),
            Parts::Lists { spans, .. } => spans.len(),
            Parts::Values { spans, .. } => spans.len(),
            Parts::Mixed(cells) => cells.len(),
        }
    }

    /// The cell of a row, counted from 0.
    pub fn cell(&self, row: usize) -> CellRef<'_>
        requires { row < length self.now }
        ensures { cell_of result ≡ get_or self.now row no_cell }
    {
        match &self.parts {
            Parts::Single(nodes) => single(nodes.as_slice(), row),
            Parts::Lists { spans, nodes } => listed(spans.as_slice(), nodes.as_slice(), row),
            Parts::Values { spans, bytes } => valued(spans.as_slice(), bytes.as_slice(), row),
            Parts::Mixed(cells) => cells[row].lent(),
        }
    }

    /// The same cells once more; cells that share nodes share the copies.
    pub fn copy(&self, alloc: Global) -> Result<Column, AllocError>
        ensures { IfOk result (λ column. column ≡ self.now) }
    {
        let parts = copied(alloc, &self.parts)?;
        Ok(Column { parts })
    }

    /// The cells of these rows, in this order. No node and no byte of a span is copied.
    pub fn gather(self, alloc: Global, picks: &[usize]) -> Result<Column, AllocError>
        requires { All (λ p. p < length self) picks.now }
        ensures { IfOk result (λ column. column ≡ picked no_cell self picks.now) }
    {
        let Column { parts } = self;
        let parts = gathered(alloc, parts, picks)?;
        Ok(Column { parts })
    }
}

fn copied(alloc: Global, parts: &Parts) -> Result<Parts, AllocError>
    requires within { IsWithin parts.now }
    ensures cells { IfOk result (λ r. cells_of r ≡ cells_of parts.now) }
    ensures within { IfOk result IsWithin }
{
    match parts {
        Parts::Single(nodes) => {
            let nodes = nodes.as_slice().to_vec(alloc)?;
            Ok(Parts::Single(nodes))
        }
        Parts::Lists { spans, nodes } => {
            let spans = spans.as_slice().to_vec(alloc)?;
            let nodes = nodes.as_slice().to_vec(alloc)?;
            Ok(Parts::Lists { spans, nodes })
        }
        Parts::Values { spans, bytes } => {
            let spans = spans.as_slice().to_vec(alloc)?;
            let bytes = bytes.as_slice().to_vec(alloc)?;
            Ok(Parts::Values { spans, bytes })
        }
        Parts::Mixed(cells) => {
            let cells = copies(alloc, cells.as_slice())?;
            Ok(Parts::Mixed(cells))
        }
    }
}

fn gathered(alloc: Global, parts: Parts, picks: &[usize]) -> Result<Parts, AllocError>
    requires picks { All (λ p. p < length (cells_of parts)) picks.now }
    requires within { IsWithin parts }
    ensures cells { IfOk result (λ r. cells_of r ≡ picked no_cell (cells_of parts) picks.now) }
    ensures within { IfOk result IsWithin }
{
    match parts {
        Parts::Single(nodes) => {
            let nodes = picked_of(alloc, nodes.as_slice(), picks)?;
            Ok(Parts::Single(nodes))
        }
        Parts::Lists { spans, nodes } => {
            let spans = picked_of(alloc, spans.as_slice(), picks)?;
            Ok(Parts::Lists { spans, nodes })
        }
        Parts::Values { spans, bytes } => {
            let spans = picked_of(alloc, spans.as_slice(), picks)?;
            Ok(Parts::Values { spans, bytes })
        }
        Parts::Mixed(cells) => {
            let cells = copies_of(alloc, cells.as_slice(), picks)?;
            Ok(Parts::Mixed(cells))
        }
    }
}

/// The node, or none where its number is 0.
fn single(nodes: &[NodeRef], row: usize) -> CellRef<'_>
    requires { row < length nodes.now }
    ensures { cell_of result ≡ get_or (map single nodes.now) row no_cell }
{
    if nodes[row].node == 0 {
        return CellRef::Nodes(&[]);
    }
    CellRef::Nodes(&nodes[row..row + 1])
}

fn listed<'a>(spans: &[Span], nodes: &'a [NodeRef], row: usize) -> CellRef<'a>
    requires row { row < length spans.now }
    requires within { AreWithin (length nodes.now) spans.now }
    ensures { cell_of result ≡ get_or (map (listed nodes.now) spans.now) row no_cell }
{
    CellRef::Nodes(span_of(nodes, spans[row]))
}

fn valued<'a>(spans: &[Span], bytes: &'a [u8], row: usize) -> CellRef<'a>
    requires row { row < length spans.now }
    requires within { AreWithin (length bytes.now) spans.now }
    ensures { cell_of result ≡ get_or (map (valued bytes.now) spans.now) row no_cell }
{
    let span = spans[row];
    if span.end < span.first {
        return CellRef::Value(None);
    }
    CellRef::Value(Some(&bytes[span.first..span.end]))
}
