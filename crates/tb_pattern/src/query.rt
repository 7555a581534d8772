//! A whole `MATCH` query.

ghost use Rattle.std.specs.Prelude.{◌≤◌, length, None};
ghost use Rattle.tb_token.specs.tokens.Cuts.{IsCut};
ghost use Rattle.tb_token.specs.tokens.Lexemes.{toks_of};
ghost use Rattle.tb_pattern.specs.Calls.{Reads};

use crate::build::pattern;
use crate::check::check_match;
use crate::{Pattern, PatternFault};
use std::alloc::Global;
use tb_token::{Token, lexemes};

/// The pattern that the tokens of the text ask for, or the first of their faults. Each token is
/// looked at a few times; brackets inside each other cost no calls before they are known to be few.
pub fn read_pattern(alloc: Global, text: &[u8], tokens: &[Token]) -> Result<Pattern, PatternFault>
    requires short { length text.now ≤ 65536 }
    requires cut { IsCut text.now tokens.now None }
    ensures { Reads (toks_of text.now tokens.now) result }
{
    let lexemes = lexemes(alloc, text, tokens)?;
    check_match(alloc, lexemes.as_slice())?;
    Ok(pattern(alloc, lexemes.as_slice())?)
}
