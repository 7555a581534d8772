//! Tables made of rows, and given as rows.

ghost use Rattle.std.specs.Prelude.{◌≡◌, ◌<◌, All, length, map, IfOk};
ghost use Rattle.std.specs.List.{range_with_len};
ghost use Rattle.tb_table.specs.Rows.{column_at, cells_at};

use crate::table::table_from;
use crate::{Cell, Column, Row, Table};
use std::alloc::{AllocError, Global};
use tb_tree::Items;

impl Table {
    /// The rows, each with a cell a column.
    pub fn from_rows(alloc: Global, width: usize, rows: &[Row]) -> Result<Table, AllocError>
        requires { All (λ row. length row.cells ≡ width) rows.now }
        ensures rows { IfOk result (λ table. table.rows ≡ map (λ row. row.cells) rows.now) }
        ensures width { IfOk result (λ table. table.width ≡ width) }
    {
        let mut columns = Vec::with_capacity(alloc, width)?;
        'columns: for column in 0..width {
            let cells = column_of(alloc, rows, column)?;
            columns.push(Column::of_cells(cells))?;
        }
        Ok(table_from(rows.len(), columns))
    }

    /// The rows, cell by cell.
    pub fn into_rows(self, alloc: Global) -> Result<Vec<Row>, AllocError>
        ensures { IfOk result (λ rows. map (λ row. row.cells) rows.items ≡ self.rows) }
    {
        let count = self.len();
        let mut rows = Vec::with_capacity(alloc, count)?;
        'rows: for row in 0..count {
            let cells = row_of(alloc, &self, row)?;
            rows.push(Row { cells })?;
        }
        Ok(rows)
    }
}

/// The cells of a column.
fn column_of(alloc: Global, rows: &[Row], column: usize) -> Result<Vec<Cell>, AllocError>
    requires { All (λ row. column < length row.cells) rows.now }
    ensures { IfOk result (λ cells. cells.items ≡ column_at column (map (λ row. row.cells) rows.now)) }
{
    let mut cells = Vec::with_capacity(alloc, rows.len())?;
    'rows: for row in rows {
        cells.push(row.cells.as_slice()[column].lent().copy(alloc)?)?;
    }
    Ok(cells)
}

/// The cells of a row.
fn row_of(alloc: Global, table: &Table, row: usize) -> Result<Items<Cell>, AllocError>
    requires { row < length table.now.rows }
    ensures { IfOk result (λ cells. cells ≡ cells_at table.now.rows row (range_with_len 0 table.now.width)) }
{
    let width = table.width();
    let mut cells = Vec::with_capacity(alloc, width)?;
    'columns: for column in 0..width {
        let cell = table.cell(row, column).copy(alloc)?;
        cells.push(cell)?;
    }
    Ok(Items::from_vec(cells))
}
