//! Random tables with columns of every kind, beside plain lists of cells.

use crate::{Cell, CellRef, Column, NodeRef, Row, Span, Table};
use std::alloc::{AllocError, Global};
use std::test::Fail;
use tb_tree::{Bytes, Items};

/// Numbers by a linear congruence (D. H. Lehmer, 1951).
#[derive(Drop)]
struct Random {
    state: u64,
}

impl Random {
    /// A number below `count`, or 0.
    fn below(&mut self, count: usize) -> usize {
        self.state = self.state.wrapping_mul(48_271) % 2_147_483_647;
        match (self.state / 16).checked_rem(count as u64) {
            Some(number) => number as usize,
            None => 0,
        }
    }
}

fn small(random: &mut Random, count: usize) -> u32 {
    u32::try_from(random.below(count)).unwrap_or(0)
}

fn nodes(alloc: Global, random: &mut Random, count: usize) -> Result<Vec<NodeRef>, AllocError> {
    let mut nodes = Vec::new(alloc);
    for _turn in 0..count {
        nodes.push(NodeRef {
            document: small(random, 2),
            node: small(random, 4),
        })?;
    }
    Ok(nodes)
}

/// Spans within so many items, some of which end before they begin.
fn spans(
    alloc: Global,
    random: &mut Random,
    rows: usize,
    items: usize,
) -> Result<Vec<Span>, AllocError> {
    let mut spans = Vec::new(alloc);
    for _turn in 0..rows {
        let first = random.below(8);
        let end = random.below(8).min(items);
        spans.push(Span { first, end })?;
    }
    Ok(spans)
}

fn part<T: Copy>(alloc: Global, items: &[T], span: Span) -> Result<Vec<T>, AllocError> {
    let mut part = Vec::new(alloc);
    for at in span.first..span.end {
        if let Some(item) = items.get(at) {
            part.push(*item)?;
        }
    }
    Ok(part)
}

fn single(alloc: Global, node: NodeRef) -> Result<Cell, AllocError> {
    let mut nodes = Vec::new(alloc);
    if node.node != 0 {
        nodes.push(node)?;
    }
    Ok(Cell::Nodes(Items::from_vec(nodes)))
}

fn value(alloc: Global, bytes: &[u8], span: Span) -> Result<Cell, AllocError> {
    if span.end < span.first {
        return Ok(Cell::Value(None));
    }
    Ok(Cell::Value(Some(Bytes::from_vec(part(alloc, bytes, span)?))))
}

/// A column of this kind, and its cells.
fn column(
    alloc: Global,
    random: &mut Random,
    kind: usize,
    rows: usize,
) -> Result<(Column, Vec<Cell>), AllocError> {
    let mut cells = Vec::new(alloc);
    if kind == 0 {
        let nodes = nodes(alloc, random, rows)?;
        for node in &nodes {
            cells.push(single(alloc, *node)?)?;
        }
        return Ok((Column::of_nodes(nodes), cells));
    }
    let spans = spans(alloc, random, rows, 6)?;
    if kind == 1 {
        let nodes = nodes(alloc, random, 6)?;
        for span in &spans {
            let part = part(alloc, nodes.as_slice(), *span)?;
            cells.push(Cell::Nodes(Items::from_vec(part)))?;
        }
        return Ok((lists(alloc, spans, nodes), cells));
    }
    let bytes = b"012345".to_vec(alloc)?;
    for span in &spans {
        cells.push(value(alloc, bytes.as_slice(), *span)?)?;
    }
    if kind == 2 {
        return Ok((values(alloc, spans, bytes), cells));
    }
    let mut copies = Vec::new(alloc);
    for cell in &cells {
        copies.push(cell.lent().copy(alloc)?)?;
    }
    Ok((Column::of_cells(copies), cells))
}

fn lists(alloc: Global, spans: Vec<Span>, nodes: Vec<NodeRef>) -> Column {
    'spans: for span in &spans {
        if span.end > nodes.len() {
            return Column::of_cells(Vec::new(alloc));
        }
    }
    Column::of_lists(spans, nodes)
}

fn values(alloc: Global, spans: Vec<Span>, bytes: Vec<u8>) -> Column {
    'spans: for span in &spans {
        if span.end > bytes.len() {
            return Column::of_cells(Vec::new(alloc));
        }
    }
    Column::of_values(spans, bytes)
}

/// A table and its rows, cell by cell.
#[derive(Drop)]
struct Sample {
    table: Table,
    rows: Vec<Vec<Cell>>,
}

/// Up to five rows, and up to five columns of each kind.
fn random_table(alloc: Global, random: &mut Random) -> Result<Sample, Fail> {
    let count = random.below(6);
    let width = random.below(6);
    let mut picks = Vec::new(alloc);
    let mut rows = Vec::new(alloc);
    for _row in 0..count {
        picks.push(0)?;
        rows.push(Vec::new(alloc))?;
    }
    let mut table = gathered(alloc, Table::first(alloc), picks.as_slice())?;
    for _column in 0..width {
        let kind = random.below(4);
        let (column, cells) = column(alloc, random, kind, count)?;
        if column.len() != table.len() {
            return Err("a column of another length".into());
        }
        table.push_column(column)?;
        for (row, cell) in rows.iter_mut().zip(cells) {
            row.push(cell)?;
        }
    }
    Ok(Sample { table, rows })
}

fn gathered(alloc: Global, table: Table, picks: &[usize]) -> Result<Table, Fail> {
    'picks: for pick in picks {
        if *pick >= table.len() {
            return Err("no such row".into());
        }
    }
    Ok(table.gather(alloc, picks)?)
}

fn table_of(alloc: Global, width: usize, rows: &[Row]) -> Result<Table, Fail> {
    'rows: for row in rows {
        if row.cells.as_slice().len() != width {
            return Err("a row of another width".into());
        }
    }
    Ok(Table::from_rows(alloc, width, rows)?)
}

fn is_same(left: CellRef<'_>, right: CellRef<'_>) -> bool {
    match (left, right) {
        (CellRef::Nodes(left), CellRef::Nodes(right)) => left == right,
        (CellRef::Value(left), CellRef::Value(right)) => left == right,
        _ => false,
    }
}

/// The table has these rows, and no node in a column behind them.
fn has_rows(table: &Table, width: usize, rows: &[&[Cell]]) -> bool {
    if table.len() != rows.len() || table.width() != width {
        return false;
    }
    for (number, row) in rows.iter().enumerate() {
        if number >= table.len() || row.len() != width {
            return false;
        }
        for (column, cell) in row.iter().enumerate() {
            if !is_same(table.cell(number, column), cell.lent()) {
                return false;
            }
        }
        if !is_same(table.cell(number, width), CellRef::Nodes(&[])) {
            return false;
        }
    }
    true
}

fn lent(alloc: Global, rows: &[Vec<Cell>]) -> Result<Vec<&[Cell]>, AllocError> {
    let mut lent = Vec::new(alloc);
    for row in rows {
        lent.push(row.as_slice())?;
    }
    Ok(lent)
}

/// The rows of these numbers.
fn picked<'a>(
    alloc: Global,
    rows: &'a [Vec<Cell>],
    picks: &[usize],
) -> Result<Vec<&'a [Cell]>, AllocError> {
    let mut picked = Vec::new(alloc);
    for pick in picks {
        if let Some(row) = rows.get(*pick) {
            picked.push(row.as_slice())?;
        }
    }
    Ok(picked)
}

#[test]
fn gathered_rows_are_those_of_the_numbers(rt: HostRuntime) -> Result<(), Fail> {
    let alloc = rt.alloc();
    let mut random = Random { state: 1 };
    for _turn in 0..200 {
        let Sample { table, rows } = random_table(alloc, &mut random)?;
        let width = table.width();
        assert!(rt; has_rows(&table, width, lent(alloc, rows.as_slice())?.as_slice()));
        let mut picks = Vec::new(alloc);
        for _pick in 0..random.below(9) {
            if !rows.is_empty() {
                picks.push(random.below(rows.len()))?;
            }
        }
        let table = gathered(alloc, table, picks.as_slice())?;
        let expected = picked(alloc, rows.as_slice(), picks.as_slice())?;
        assert!(rt; has_rows(&table, width, expected.as_slice()));
    }
    Ok(())
}

#[test]
fn kept_rows_are_those_with_a_mark(rt: HostRuntime) -> Result<(), Fail> {
    let alloc = rt.alloc();
    let mut random = Random { state: 2 };
    for _turn in 0..200 {
        let Sample { table, rows } = random_table(alloc, &mut random)?;
        let width = table.width();
        let mut marks = Vec::new(alloc);
        let mut picks = Vec::new(alloc);
        for number in 0..rows.len() {
            let mark = random.below(2) == 1;
            marks.push(mark)?;
            if mark {
                picks.push(number)?;
            }
        }
        if marks.len() != table.len() {
            return Err("another number of marks".into());
        }
        let table = table.keep(alloc, marks.as_slice())?;
        let expected = picked(alloc, rows.as_slice(), picks.as_slice())?;
        assert!(rt; has_rows(&table, width, expected.as_slice()));
    }
    Ok(())
}

#[test]
fn copies_and_rows_are_those_of_the_table(rt: HostRuntime) -> Result<(), Fail> {
    let alloc = rt.alloc();
    let mut random = Random { state: 3 };
    for _turn in 0..200 {
        let Sample { table, rows } = random_table(alloc, &mut random)?;
        let width = table.width();
        let copy = table.copy(alloc)?;
        let given = table.into_rows(alloc)?;
        let made = table_of(alloc, width, given.as_slice())?;
        let expected = lent(alloc, rows.as_slice())?;
        assert!(rt; has_rows(&copy, width, expected.as_slice()));
        assert!(rt; has_rows(&made, width, expected.as_slice()));
        if copy.len() != made.len() {
            return Err("another number of rows".into());
        }
        let both = copy.beside(made)?;
        for number in 0..both.len() {
            for column in 0..width {
                let left = both.cell(number, column);
                assert!(rt; is_same(left, both.cell(number, width.saturating_add(column))));
            }
        }
        assert_eq!(rt; both.len(), rows.len());
        assert_eq!(rt; both.width(), width.saturating_mul(2));
    }
    Ok(())
}
