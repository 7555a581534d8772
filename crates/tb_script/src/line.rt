//! The cut of the next line.

ghost use Rattle.std.specs.Option.{option_map};
ghost use Rattle.tb_script.specs.Cuts.{NextWhole};

use tb_tree::next_line;

/// The first line without its end, the same line with it, and the bytes behind.
pub fn next_whole(bytes: &[u8]) -> Option<(&[u8], &[u8], &[u8])>
    ensures { NextWhole bytes.now (option_map (λ cut.
        record { line = cut.0.now; whole = cut.1.now; rest = cut.2.now }) result) }
{
    let (line, rest) = next_line(bytes)?;
    let whole = &bytes[..bytes.len() - rest.len()];
    Some((line, whole, rest))
}
