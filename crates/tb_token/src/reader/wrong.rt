//! Where tokens stop being a sentence of a grammar.

ghost use Rattle.std.specs.Prelude.{◌≤◌, IfOk, length};
ghost use Rattle.tb_token.specs.reading.Calls.{IsRead};

use crate::lexer::lexeme::Lexeme;
use crate::reader::expression::Grammar;
use crate::reader::stack::{goes_on, may_end};
use std::alloc::{AllocError, Global};

/// The number, from 1, of the first token that begins no sentence of the grammar with those before it, or
/// one more than there are. `None` for a sentence. Expressions inside each other cost no calls.
pub fn first_wrong(
    alloc: Global,
    grammar: &Grammar,
    tokens: &[Lexeme],
) -> Result<Option<u32>, AllocError>
    requires { length tokens.now ≤ 65536 }
    ensures { IfOk result (IsRead grammar.now tokens.now) }
{
    let mut stack = Vec::new(alloc);
    stack.push(grammar.start)?;
    'tokens: for (at, token) in tokens.iter().enumerate() {
        if !goes_on(grammar, token.terminal, &mut stack)? {
            return Ok(Some(at as u32 + 1));
        }
    }
    if may_end(&mut stack) {
        return Ok(None);
    }
    Ok(Some(tokens.len() as u32 + 1))
}
