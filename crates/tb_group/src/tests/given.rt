//! A document of values, and tables of its nodes.

ghost use Rattle.std.specs.Prelude.{◌≡◌, All, length, map, IfOk, IsTrue};
ghost use Rattle.tb_table.specs.Documents.{docs_of};
ghost use Rattle.tb_table.specs.Seen.{IsNode, IsOver, AreOver};

use std::alloc::{AllocError, Global};
use std::sync::Arc;
use std::test::Fail;
use tb_esis::read_tree;
use tb_label::Store;
use tb_table::{Cell, Documents, NodeRef, Row, Table};
use tb_tree::{Bytes, Items};

/// One document, in which the value of each number, from 0, is an attribute's.
pub fn documents(alloc: Global, values: &[&[u8]]) -> Result<Documents, Fail> {
    let mut lines = b"(r\n".to_vec(alloc)?;
    for value in values {
        lines.extend_from_slice(b"AV CDATA ")?;
        lines.extend_from_slice(value)?;
        lines.extend_from_slice(b"\n(a\n)a\n")?;
    }
    lines.extend_from_slice(b")r\n")?;
    if lines.len() > 4000 {
        return Err("too many lines".into());
    }
    let Ok(tree) = read_tree(alloc, lines.as_slice()) else {
        return Err("no document".into());
    };
    let store = Arc::new(alloc, Store::build(alloc, tree)?)?;
    let mut documents = Documents::empty(alloc);
    documents.add(Bytes::from_vec(b"d".to_vec(alloc)?), store)?;
    Ok(documents)
}

/// Rows, in each its cells, and in each of these the numbers of values.
pub type Lists = Vec<Vec<Vec<u32>>>;

pub fn lists(alloc: Global, rows: &[&[&[u32]]]) -> Result<Lists, AllocError> {
    let mut lists = Vec::new(alloc);
    for row in rows {
        let mut cells = Vec::new(alloc);
        for cell in *row {
            cells.push(cell.to_vec(alloc)?)?;
        }
        lists.push(cells)?;
    }
    Ok(lists)
}

/// The table of these values' nodes.
pub fn table(alloc: Global, docs: &Documents, lists: &[Vec<Vec<u32>>]) -> Result<Table, Fail>
    ensures { IfOk result (λ table. AreOver (docs_of docs.now) table.rows) }
{
    let Some(first) = lists.first() else {
        return Err("no row".into());
    };
    let rows = rows_of(alloc, lists)?;
    if !are_fit(docs, rows.as_slice(), first.len()) {
        return Err("no table".into());
    }
    let table = Table::from_rows(alloc, first.len(), rows.as_slice())?;
    Ok(table)
}

fn rows_of(alloc: Global, lists: &[Vec<Vec<u32>>]) -> Result<Vec<Row>, AllocError> {
    let mut rows = Vec::new(alloc);
    for list in lists {
        let mut cells = Vec::new(alloc);
        for values in list {
            cells.push(cell_of(alloc, values.as_slice())?)?;
        }
        rows.push(Row {
            cells: Items::from_vec(cells),
        })?;
    }
    Ok(rows)
}

fn cell_of(alloc: Global, values: &[u32]) -> Result<Cell, AllocError> {
    let mut nodes = Vec::new(alloc);
    for value in values {
        nodes.push(NodeRef {
            document: 0,
            node: value.saturating_mul(2).saturating_add(3),
        })?;
    }
    Ok(Cell::Nodes(Items::from_vec(nodes)))
}

/// The rows have so many cells, and these have nodes of the documents alone.
fn are_fit(docs: &Documents, rows: &[Row], width: usize) -> bool
    ensures wide { IsTrue result → All (λ row. length row.cells ≡ width) rows.now }
    ensures over { IsTrue result → AreOver (docs_of docs.now) (map (λ row. row.cells) rows.now) }
{
    'rows: for row in rows {
        let cells = row.cells.as_slice();
        if cells.len() != width || !are_over(docs, cells) {
            return false;
        }
    }
    true
}

fn are_over(docs: &Documents, cells: &[Cell]) -> bool
    ensures { IsTrue result → All (IsOver (docs_of docs.now)) cells.now }
{
    'cells: for cell in cells {
        if !is_over(docs, cell) {
            return false;
        }
    }
    true
}

fn is_over(docs: &Documents, cell: &Cell) -> bool
    ensures { IsTrue result → IsOver (docs_of docs.now) cell.now }
{
    match cell {
        Cell::Nodes(nodes) => are_nodes(docs, nodes.as_slice()),
        Cell::Value(_value) => true,
    }
}

fn are_nodes(docs: &Documents, nodes: &[NodeRef]) -> bool
    ensures { IsTrue result → All (IsNode (docs_of docs.now)) nodes.now }
{
    'nodes: for node in nodes {
        if !is_node(docs, *node) {
            return false;
        }
    }
    true
}

fn is_node(docs: &Documents, node: NodeRef) -> bool
    ensures { IsTrue result → IsNode (docs_of docs.now) node }
{
    if docs.len() <= node.document as usize || node.node == 0 {
        return false;
    }
    node.node as usize <= docs.store(node.document).tree().count()
}
