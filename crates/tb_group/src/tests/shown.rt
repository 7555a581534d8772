//! Tables as text: a line a row, and in it the cells behind each other, nodes by the numbers of their values.

use itoa::Buffer;
use std::alloc::{AllocError, Global};
use std::test::Fail;
use tb_table::{CellRef, NodeRef, Table};

pub fn shown(alloc: Global, table: &Table) -> Result<Vec<u8>, Fail> {
    let mut out = Vec::new(alloc);
    for row in 0..table.len() {
        for column in 0..table.width() {
            if column > 0 {
                out.push(b' ')?;
            }
            push_cell(table.cell(row, column), &mut out)?;
        }
        out.push(b'\n')?;
    }
    Ok(out)
}

fn push_cell(cell: CellRef<'_>, out: &mut Vec<u8>) -> Result<(), AllocError> {
    match cell {
        CellRef::Nodes(nodes) => {
            if nodes.is_empty() {
                out.push(b'-')?;
            }
            for (at, node) in nodes.iter().enumerate() {
                push_node(at, *node, out)?;
            }
        }
        CellRef::Value(None) => out.push(b'~')?,
        CellRef::Value(Some(value)) => {
            out.push(b'=')?;
            out.extend_from_slice(value)?;
        }
    }
    Ok(())
}

fn push_node(at: usize, node: NodeRef, out: &mut Vec<u8>) -> Result<(), AllocError> {
    push_number(at, node.node.saturating_sub(3) / 2, out)
}

/// The number at its place in a cell.
pub fn push_number(at: usize, number: u32, out: &mut Vec<u8>) -> Result<(), AllocError> {
    if at > 0 {
        out.push(b',')?;
    }
    let mut buffer = Buffer::new();
    out.extend_from_slice(buffer.format(number).as_bytes())
}
