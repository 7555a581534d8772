//! Items by their numbers.

ghost use Rattle.std.specs.Prelude.{◌≡◌, ◌<◌, All, get_or, length, IfOk};
ghost use Rattle.tb_table.specs.Rows.{no_cell, picked, positions_of};

use crate::Cell;
use std::alloc::{AllocError, Global};

/// The items of these numbers, in this order.
pub fn picked_of<T: Copy>(alloc: Global, items: &[T], picks: &[usize]) -> Result<Vec<T>, AllocError>
    requires { All (λ p. p < length items.now) picks.now }
    ensures { IfOk result (λ r. (d : T) → r.items ≡ picked d items.now picks.now) }
{
    let mut picked = Vec::with_capacity(alloc, picks.len())?;
    'picks: for pick in picks {
        picked.push(items[*pick])?;
    }
    Ok(picked)
}

/// Copies of all these cells, in order.
pub fn copies(alloc: Global, cells: &[Cell]) -> Result<Vec<Cell>, AllocError>
    ensures { IfOk result (λ r. r.items ≡ cells.now) }
{
    let mut copies = Vec::with_capacity(alloc, cells.len())?;
    'cells: for cell in cells {
        copies.push(cell.lent().copy(alloc)?)?;
    }
    Ok(copies)
}

/// Copies of the cells of these numbers, in this order.
pub fn copies_of(alloc: Global, cells: &[Cell], picks: &[usize]) -> Result<Vec<Cell>, AllocError>
    requires { All (λ p. p < length cells.now) picks.now }
    ensures { IfOk result (λ r. r.items ≡ picked no_cell cells.now picks.now) }
{
    let mut copies = Vec::with_capacity(alloc, picks.len())?;
    'picks: for pick in picks {
        copies.push(cells[*pick].lent().copy(alloc)?)?;
    }
    Ok(copies)
}

/// The numbers of the rows whose mark is true, in order.
pub fn marked_rows(alloc: Global, marks: &[bool]) -> Result<Vec<usize>, AllocError>
    ensures { IfOk result (λ picks. picks.items ≡ positions_of 0 marks.now) }
{
    let mut picks = Vec::new(alloc);
    'marks: for (row, mark) in marks.iter().enumerate() {
        if *mark {
            picks.push(row)?;
        }
    }
    Ok(picks)
}
