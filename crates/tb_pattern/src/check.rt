//! The first fault of a `MATCH` query.

ghost use Rattle.std.specs.Prelude.{◌≤◌, length};
ghost use Rattle.tb_pattern.specs.Calls.{Tested};

use crate::PatternFault;
use crate::limits::{first_past, is_too_nested, tests_in};
use crate::syntax::first_wrong_match;
use std::alloc::Global;
use tb_token::Lexeme;

/// Whether the tokens are a query within the limits, or else the first of its faults.
pub fn check_match(alloc: Global, tokens: &[Lexeme]) -> Result<(), PatternFault>
    requires { length tokens.now ≤ 65536 }
    ensures { Tested tokens.now result }
{
    if let Some(number) = first_wrong_match(alloc, tokens)? {
        return Err(PatternFault::Syntax(number));
    }
    if is_too_nested(tokens) {
        return Err(PatternFault::TooNested);
    }
    if tests_in(tokens) > 64 {
        return Err(PatternFault::TooManyNodes);
    }
    if let Some(number) = first_past(alloc, tokens)? {
        return Err(PatternFault::LiteralPast(number));
    }
    Ok(())
}
