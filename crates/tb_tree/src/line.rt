//! Lines of a text.

ghost use Rattle.std.specs.Prelude.{◌≡◌};
ghost use Rattle.std.specs.Option.{option_map};
ghost use Rattle.tb_tree.specs.TextLines.{NextLine, BehindLine, without_return};

use memchr::memchr;

/// The first line without its end, and the bytes behind its end.
pub fn next_line(bytes: &[u8]) -> Option<(&[u8], &[u8])>
    ensures { NextLine bytes.now (option_map (λ found. (found.0.now, found.1.now)) result) }
{
    if bytes.is_empty() {
        return None;
    }
    let Some(at) = memchr(b'\n', bytes) else {
        return Some((bytes, &bytes[bytes.len()..]));
    };
    Some((without_return(&bytes[..at]), &bytes[at + 1..]))
}

/// The bytes behind the line and its end, or none where the bytes begin otherwise.
pub fn behind_line<'b>(bytes: &'b [u8], line: &[u8]) -> Option<&'b [u8]>
    ensures { BehindLine bytes.now line.now (option_map (λ rest. rest.now) result) }
{
    if *bytes.get(line.len())? != b'\n' {
        return None;
    }
    if &bytes[..line.len()] != line {
        return None;
    }
    Some(&bytes[line.len() + 1..])
}

fn without_return(line: &[u8]) -> &[u8]
    ensures { result.now ≡ without_return line.now }
{
    match line {
        [before @ .., last] if *last == b'\r' => before,
        _ => line,
    }
}
