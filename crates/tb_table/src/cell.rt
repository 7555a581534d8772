//! Cells, alone and lent.

ghost use Rattle.std.specs.Prelude.{◌≡◌, IfOk};
ghost use Rattle.tb_table.specs.Rows.{cell_of};

use crate::NodeRef;
use std::alloc::{AllocError, Global};
use tb_tree::{Bytes, Items};

/// What a row has in a column: nodes, or a value or none.
#[derive(Debug, Drop)]
pub enum Cell {
    Nodes(Items<NodeRef>),
    Value(Option<Bytes>),
}

/// A cell a column.
#[derive(Debug, Drop)]
pub struct Row {
    pub cells: Items<Cell>,
}

/// A cell where it stands.
#[derive(Clone, Copy, Debug)]
pub enum CellRef<'a> {
    Nodes(&'a [NodeRef]),
    Value(Option<&'a [u8]>),
}

impl Cell {
    pub fn lent(&self) -> CellRef<'_>
        ensures { cell_of result ≡ self.now }
    {
        match self {
            Cell::Nodes(nodes) => CellRef::Nodes(nodes.as_slice()),
            Cell::Value(None) => CellRef::Value(None),
            Cell::Value(Some(value)) => CellRef::Value(Some(value.as_slice())),
        }
    }
}

impl CellRef<'_> {
    pub fn copy(&self, alloc: Global) -> Result<Cell, AllocError>
        ensures { IfOk result (λ cell. cell ≡ cell_of self.now) }
    {
        match self {
            CellRef::Nodes(nodes) => Ok(Cell::Nodes(Items::from_vec(nodes.to_vec(alloc)?))),
            CellRef::Value(None) => Ok(Cell::Value(None)),
            CellRef::Value(Some(value)) => {
                Ok(Cell::Value(Some(Bytes::from_vec(value.to_vec(alloc)?))))
            }
        }
    }
}
