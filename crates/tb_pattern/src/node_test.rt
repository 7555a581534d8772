//! The test at the beginning of tokens that are a query.

ghost use Rattle.std.specs.Prelude.{◌≡◌, ◌≤◌, IfOk, length};
ghost use Rattle.tb_pattern.specs.Building.{Builds, next};
ghost use Rattle.tb_pattern.specs.BuiltParts.{IsTest, IsAttribute, attribute};
ghost use Rattle.tb_pattern.specs.Value.{bytes_in};
ghost use Rattle.tb_token.specs.grammar.Patterns as part;

use crate::prefix::{begins, begins_name, behind, bytes};
use std::alloc::{AllocError, Global};
use tb_token::Lexeme;
use tb_token::terminals::{AT, STAR};
use tb_tree::{Bytes, Test};

/// NAME | "*" | "@" ( NAME | "*" ) | TEXT
pub fn test<'t, 'a>(
    alloc: Global,
    tokens: &'t [Lexeme<'a>],
) -> Result<(Test, &'t [Lexeme<'a>]), AllocError>
    ensures built { IfOk result (λ r. Builds part.test (IsTest r.0) tokens.now r.1.now) }
    ensures shorter { IfOk result (λ r. length r.1.now ≤ length tokens.now) }
{
    if begins_name(tokens) {
        return Ok((Test::Name(name(alloc, tokens)?), behind(tokens, 1)));
    }
    if begins(tokens, &[STAR]) {
        return Ok((Test::AnyElement, behind(tokens, 1)));
    }
    if begins(tokens, &[AT]) {
        let (test, left) = attribute(alloc, behind(tokens, 1))?;
        return Ok((test, left));
    }
    Ok((Test::AnyText, behind(tokens, 1)))
}

/// NAME | "*", behind `@`
fn attribute<'t, 'a>(
    alloc: Global,
    tokens: &'t [Lexeme<'a>],
) -> Result<(Test, &'t [Lexeme<'a>]), AllocError>
    ensures built { IfOk result (λ r. Builds attribute (IsAttribute r.0) tokens.now r.1.now) }
    ensures shorter { IfOk result (λ r. length r.1.now ≤ length tokens.now) }
{
    if begins_name(tokens) {
        return Ok((Test::AttrName(name(alloc, tokens)?), behind(tokens, 1)));
    }
    Ok((Test::AnyAttr, behind(tokens, 1)))
}

fn name(alloc: Global, tokens: &[Lexeme]) -> Result<Bytes, AllocError>
    ensures { IfOk result (λ name. name ≡ bytes_in (next tokens.now)) }
{
    Ok(Bytes::from_vec(bytes(tokens).to_vec(alloc)?))
}
