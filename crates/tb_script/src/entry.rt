//! The lines of a script outside bodies, each with its body.

ghost use Rattle.std.specs.Prelude.{◌≡◌, ◌<◌, ◌+◌, ◌^◌, IfOk, length};
ghost use Rattle.std.specs.Option.{option_map};
ghost use Rattle.tb_script.specs.Cuts.{Says, NextEntry};

use crate::body::{load_body, query_text};
use crate::form::{Form, name_in};
use crate::line::next_whole;
use std::alloc::{AllocError, Global};
use tb_tree::Bytes;

/// What a line says, with its body where it opens one. A body that has no end isn't closed.
#[derive(Debug, Drop)]
pub enum Said {
    Unknown,
    Session,
    Load {
        name: Bytes,
        lines: Bytes,
        closed: bool,
    },
    Query {
        text: Bytes,
        closed: bool,
    },
    Tell {
        name: Bytes,
    },
    Hear {
        name: Bytes,
    },
}

/// A line that says something, with its number from 1.
#[derive(Debug, Drop)]
pub struct Entry {
    pub line: u32,
    pub said: Said,
}

/// The next entry, the bytes behind it, and the number of their first line. The first line of the
/// bytes has the given number.
pub fn next_entry(
    alloc: Global,
    bytes: &[u8],
    number: u32,
) -> Result<Option<(Entry, &[u8], u32)>, AllocError>
    requires numbers { number + length bytes.now < 2 ^ 32 }
    ensures { IfOk result (λ next. NextEntry number bytes.now (option_map (λ found.
        record { entry = found.0; rest = found.1.now; line = found.2 }) next)) }
{
    let mut line = number;
    let mut rest = bytes;
    'lines: while let Some((text, _, behind)) = next_whole(rest) {
        let form = Form::of(text);
        if let Some(found) = entry_of(alloc, form, line, name_in(text), behind)? {
            return Ok(Some(found));
        }
        rest = behind;
        line += 1;
    }
    Ok(None)
}

/// The entry of a line of the form, where it has one, with the bytes behind it and the number of
/// their first line. The line has a number, perhaps a name in it, and the bytes behind.
fn entry_of<'a>(
    alloc: Global,
    form: Form,
    line: u32,
    name: &[u8],
    behind: &'a [u8],
) -> Result<Option<(Entry, &'a [u8], u32)>, AllocError>
    requires numbers { line + 1 + length behind.now < 2 ^ 32 }
    ensures { IfOk result (λ entry. Says form line name.now behind.now (option_map (λ found.
        record { entry = found.0; rest = found.1.now; line = found.2 }) entry)) }
{
    let next = line + 1;
    let said = match form {
        Form::Passed => return Ok(None),
        Form::Unknown => Said::Unknown,
        Form::Session => Said::Session,
        Form::Tell => Said::Tell {
            name: copied(alloc, name)?,
        },
        Form::Hear => Said::Hear {
            name: copied(alloc, name)?,
        },
        Form::Load => {
            let (lines, closed, rest, next) = load_body(behind, next);
            let name = copied(alloc, name)?;
            let lines = copied(alloc, lines)?;
            let said = Said::Load {
                name,
                lines,
                closed,
            };
            return Ok(Some((Entry { line, said }, rest, next)));
        }
        Form::Query => {
            let (text, closed, rest, next) = query_text(alloc, behind, next)?;
            let text = Bytes::from_vec(text);
            let said = Said::Query { text, closed };
            return Ok(Some((Entry { line, said }, rest, next)));
        }
    };
    Ok(Some((Entry { line, said }, behind, next)))
}

fn copied(alloc: Global, bytes: &[u8]) -> Result<Bytes, AllocError>
    ensures { IfOk result (λ copy. copy ≡ bytes.now) }
{
    Ok(Bytes::from_vec(bytes.to_vec(alloc)?))
}
