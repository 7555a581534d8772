//! Rows in order.

ghost use Rattle.std.specs.Prelude.{◌≡◌, ◌<◌, ◌++◌, ◌∷◌, [], All, length, map, IfOk};
ghost use Rattle.std.specs.List.{range_with_len};
ghost use Rattle.tb_query.specs.Lists.{sorted};
ghost use Rattle.tb_query.specs.Operators.{ordered_rows};
ghost use Rattle.tb_table.specs.Documents.{docs_of};
ghost use Rattle.tb_table.specs.Seen.{rows_seen, AreOver};
ghost use Rattle.tb_group.specs.Firsts.{texts_of, firsts};
ghost use Rattle.tb_group.specs.Parts.{keyed_cmp, keyed_at, parts_at};
ghost use Rattle.tb_group.specs.Ordered.{key_columns, columns_of, AreLong};

use crate::first::{bytes_of, first_texts};
use crate::keyed::Keyed;
use crate::part::Part;
use std::alloc::{AllocError, Global};
use tb_number::SortKey;
use tb_table::{Documents, Table, Text};

/// The rows in order by the first values of columns, key after key; ties stay in theirs.
pub fn order(
    alloc: Global,
    table: Table,
    keys: &[SortKey],
    docs: &Documents,
) -> Result<Table, AllocError>
    requires { AreOver (docs_of docs.now) table.rows }
    ensures rows { IfOk result (λ made. rows_seen (docs_of docs.now) made.rows ≡ ordered_rows keys.now (rows_seen (docs_of docs.now) table.rows)) }
    ensures over { IfOk result (λ made. AreOver (docs_of docs.now) made.rows) }
    ensures width { IfOk result (λ made. made.width ≡ table.width) }
{
    let picks = ordered(alloc, &table, keys, docs)?;
    let made = table.gather(alloc, picks.as_slice())?;
    Ok(made)
}

/// The numbers of the rows, in order.
fn ordered(
    alloc: Global,
    table: &Table,
    keys: &[SortKey],
    docs: &Documents,
) -> Result<Vec<usize>, AllocError>
    requires { AreOver (docs_of docs.now) table.now.rows }
    ensures order { IfOk result (λ picks. picks.items ≡ map (λ k. k.row) (sorted keyed_cmp
        (map (keyed_at (key_columns (docs_of docs.now) keys.now table.now.rows) keys.now) (range_with_len 0 (length table.now.rows))))) }
    ensures within { IfOk result (λ picks. All (λ p. p < length table.now.rows) picks.items) }
{
    let columns = columns(alloc, table, keys, docs)?;
    let mut keyed = keyed_rows(alloc, columns.as_slice(), keys, table.len())?;
    keyed.sort()?;
    let picks = rows_of(alloc, keyed.as_slice())?;
    Ok(picks)
}

/// The first values of the keys' columns.
fn columns<'a>(
    alloc: Global,
    table: &'a Table,
    keys: &[SortKey],
    docs: &'a Documents,
) -> Result<Vec<Vec<Option<Text<'a>>>>, AllocError>
    requires { AreOver (docs_of docs.now) table.now.rows }
    ensures { IfOk result (λ columns. columns_of columns.items ≡ key_columns (docs_of docs.now) keys.now table.now.rows) }
{
    let mut columns = Vec::with_capacity(alloc, keys.len())?;
    'keys: for key in keys {
        columns.push(first_texts(alloc, table, key.column, docs)?)?;
    }
    Ok(columns)
}

/// The rows with their keys.
fn keyed_rows<'a>(
    alloc: Global,
    columns: &'a [Vec<Option<Text<'_>>>],
    keys: &[SortKey],
    count: usize,
) -> Result<Vec<Keyed<'a>>, AllocError>
    requires wide { length columns.now ≡ length keys.now }
    requires long { AreLong count columns.now }
    ensures { IfOk result (λ keyed. keyed.items ≡ map (keyed_at (columns_of columns.now) keys.now) (range_with_len 0 count)) }
{
    let mut keyed = Vec::with_capacity(alloc, count)?;
    'rows: for row in 0..count {
        let parts = parts_at(alloc, columns, keys, row)?;
        keyed.push(Keyed::new(parts, row))?;
    }
    Ok(keyed)
}

/// The keys of a row.
fn parts_at<'a>(
    alloc: Global,
    columns: &'a [Vec<Option<Text<'_>>>],
    keys: &[SortKey],
    row: usize,
) -> Result<Vec<Part<'a>>, AllocError>
    requires wide { length columns.now ≡ length keys.now }
    requires long { All (λ column. row < length column.items) columns.now }
    ensures { IfOk result (λ parts. parts.items ≡ parts_at (columns_of columns.now) keys.now row) }
{
    let mut parts = Vec::with_capacity(alloc, keys.len())?;
    'keys: for (at, key) in keys.iter().enumerate() {
        let column = &columns[at];
        parts.push(Part::of(bytes_of(&column[row]), key.descending))?;
    }
    Ok(parts)
}

fn rows_of(alloc: Global, keyed: &[Keyed<'_>]) -> Result<Vec<usize>, AllocError>
    ensures { IfOk result (λ rows. rows.items ≡ map (λ k. k.row) keyed.now) }
{
    let mut rows = Vec::with_capacity(alloc, keyed.len())?;
    'keyed: for one in keyed {
        rows.push(one.row())?;
    }
    Ok(rows)
}
