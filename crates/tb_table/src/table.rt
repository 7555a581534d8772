//! Tables.

ghost use Rattle.std.specs.Prelude.{◌≡◌, ◌+◌, ◌<◌, All, [], ◌∷◌, get_or, length, map, IfOk, OnOk};
ghost use Rattle.tb_table.specs.Rows.{Rows, no_cell, cell_of, picked, kept, with_cells, beside, table_of, AreEven};

use crate::gather::marked_rows;
use crate::{CellRef, Column};
use std::alloc::{AllocError, Global};
use std::marker::Model;

/// Rows of cells, kept column by column. Rows and columns are counted from 0.
#[derive(Drop)]
pub struct Table {
    count: usize,
    columns: Vec<Column>,
}

impl Model for Table {
    ghost use Rattle.tb_table.specs.Rows.{Rows, table_of, AreEven};

    ghost Value = { Rows };

    ghost view = { λ table. table_of table.count table.columns.items };

    ghost invariant = { λ table. AreEven table.count table.columns.items };
}

impl Table {
    /// One row and no column.
    pub fn first(alloc: Global) -> Table
        ensures { result ≡ record { width = 0; rows = [] ∷ [] } }
    {
        Table {
            count: 1,
            columns: Vec::new(alloc),
        }
    }

    /// How many rows.
    pub fn len(&self) -> usize
        ensures { result ≡ length self.now.rows }
    {
        self.count
    }

    /// How many columns.
    pub fn width(&self) -> usize
        ensures { result ≡ self.now.width }
    {
        self.columns.len()
    }

    /// The cell of a row in a column; one without nodes where there is no such column.
    pub fn cell(&self, row: usize, column: usize) -> CellRef<'_>
        requires row { row < length self.now.rows }
        ensures { cell_of result ≡ get_or (get_or self.now.rows row []) column no_cell }
    {
        if column < self.columns.len() {
            return self.columns[column].cell(row);
        }
        CellRef::Nodes(&[])
    }

    /// Each row gets one cell more.
    pub fn push_column(&mut self, column: Column) -> Result<(), AllocError>
        requires long { length column ≡ length self.old.rows }
        ensures rows { OnOk result (self.new.rows ≡ with_cells self.old.rows column) }
        ensures width { OnOk result (self.new.width ≡ self.old.width + 1) }
    {
        self.columns.push(column)?;
        Ok(())
    }

    /// The same rows once more.
    pub fn copy(&self, alloc: Global) -> Result<Table, AllocError>
        ensures { IfOk result (λ table. table ≡ self.now) }
    {
        let mut columns = Vec::with_capacity(alloc, self.columns.len())?;
        'columns: for column in &self.columns {
            columns.push(column.copy(alloc)?)?;
        }
        Ok(table_from(self.count, columns))
    }

    /// The rows of these numbers, in this order; a number may come several times.
    pub fn gather(self, alloc: Global, picks: &[usize]) -> Result<Table, AllocError>
        requires { All (λ p. p < length self.rows) picks.now }
        ensures rows { IfOk result (λ table. table.rows ≡ picked [] self.rows picks.now) }
        ensures width { IfOk result (λ table. table.width ≡ self.width) }
    {
        let Table { columns, .. } = self;
        let mut gathered = Vec::with_capacity(alloc, columns.len())?;
        'columns: for column in columns {
            gathered.push(column.gather(alloc, picks)?)?;
        }
        Ok(table_from(picks.len(), gathered))
    }

    /// The rows whose mark is true, in order.
    pub fn keep(self, alloc: Global, marks: &[bool]) -> Result<Table, AllocError>
        requires long { length marks.now ≡ length self.rows }
        ensures rows { IfOk result (λ table. table.rows ≡ kept marks.now self.rows) }
        ensures width { IfOk result (λ table. table.width ≡ self.width) }
    {
        let picks = marked_rows(alloc, marks)?;
        let table = self.gather(alloc, picks.as_slice())?;
        Ok(table)
    }

    /// The rows with those of a table of as many rows beside them.
    pub fn beside(self, other: Table) -> Result<Table, AllocError>
        requires long { length other.rows ≡ length self.rows }
        ensures rows { IfOk result (λ table. table.rows ≡ beside self.rows other.rows) }
        ensures width { IfOk result (λ table. table.width ≡ self.width + other.width) }
    {
        let Table { count, mut columns } = self;
        let Table {
            columns: others,
            ..
        } = other;
        'others: for column in others {
            columns.push(column)?;
        }
        Ok(table_from(count, columns))
    }
}

/// The table of these columns, each of so many cells.
pub fn table_from(count: usize, columns: Vec<Column>) -> Table
    requires { AreEven count columns.items }
    ensures { result ≡ table_of count columns.items }
{
    Table { count, columns }
}
