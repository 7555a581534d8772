//! The first values of a column.

ghost use Rattle.std.specs.Prelude.{◌≡◌, map, IfOk};
ghost use Rattle.std.specs.Option.{option_map};
ghost use Rattle.tb_table.specs.Documents.{docs_of};
ghost use Rattle.tb_table.specs.Rows.{cell_of};
ghost use Rattle.tb_table.specs.Seen.{cell_seen, rows_seen, IsOver, AreOver, first_value};
ghost use Rattle.tb_table.specs.Texts.{text_of};
ghost use Rattle.tb_group.specs.Firsts.{texts_of, firsts};

use std::alloc::{AllocError, Global};
use tb_table::{CellRef, Documents, Table, Text};

/// For each row the first value of the column, or none.
pub fn first_texts<'a>(
    alloc: Global,
    table: &'a Table,
    column: u32,
    docs: &'a Documents,
) -> Result<Vec<Option<Text<'a>>>, AllocError>
    requires { AreOver (docs_of docs.now) table.now.rows }
    ensures { IfOk result (λ texts. texts_of texts.items ≡ firsts (docs_of docs.now) column table.now.rows) }
{
    let mut texts = Vec::with_capacity(alloc, table.len())?;
    'rows: for row in 0..table.len() {
        let cell = table.cell(row, column as usize);
        texts.push(first_text(alloc, docs, cell)?)?;
    }
    Ok(texts)
}

fn first_text<'a>(
    alloc: Global,
    docs: &'a Documents,
    cell: CellRef<'a>,
) -> Result<Option<Text<'a>>, AllocError>
    requires { IsOver (docs_of docs.now) (cell_of cell) }
    ensures { IfOk result (λ text. option_map text_of text ≡ first_value (cell_seen (docs_of docs.now) (cell_of cell.entry))) }
{
    match cell {
        CellRef::Nodes([]) => Ok(None),
        CellRef::Nodes([node, ..]) => {
            let text = docs.text(alloc, *node)?;
            Ok(Some(text))
        }
        CellRef::Value(Some(value)) => Ok(Some(Text::Lent(value))),
        CellRef::Value(None) => Ok(None),
    }
}

/// The bytes of a value, or none.
pub fn bytes_of<'b>(text: &'b Option<Text<'_>>) -> Option<&'b [u8]>
    ensures { option_map (λ bytes. bytes.now) result ≡ option_map text_of text.now }
{
    match text {
        Some(text) => Some(text.bytes()),
        None => None,
    }
}
