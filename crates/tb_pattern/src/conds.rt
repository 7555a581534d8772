//! The conditions at the beginning of tokens that are a query.

ghost use Rattle.std.specs.Prelude.{◌≡◌, ◌≤◌, IfOk, length};
ghost use Rattle.tb_token.specs.grammar.Grammar.{maybe};
ghost use Rattle.tb_pattern.specs.Building.{Builds, BuildsApart, next};
ghost use Rattle.tb_pattern.specs.BuiltParts.{AreConds, IsCond, IsLiteral};
ghost use Rattle.tb_pattern.specs.BuiltParts.{number_or_zero, one_cond};
ghost use Rattle.tb_pattern.specs.Value.{bytes_in};
ghost use Rattle.tb_token.specs.grammar.Patterns as part;

use crate::limits::literal_in;
use crate::prefix::{begins, behind, bytes, op, quoted};
use crate::{Cond, Literal};
use std::alloc::{AllocError, Global};
use tb_token::Lexeme;
use tb_token::terminals::{AND, MINUS, OPEN_CONDS, QUOTED};
use tb_tree::Items;

/// [ "[" cond { AND cond } "]" ]
pub fn conds<'t, 'a>(
    alloc: Global,
    tokens: &'t [Lexeme<'a>],
) -> Result<(Items<Cond>, &'t [Lexeme<'a>]), AllocError>
    ensures built { IfOk result (λ r. Builds (maybe part.conds) (AreConds r.0) tokens.now r.1.now) }
    ensures shorter { IfOk result (λ r. length r.1.now ≤ length tokens.now) }
{
    let mut found = Vec::new(alloc);
    if !begins(tokens, &[OPEN_CONDS]) {
        return Ok((Items::from_vec(found), tokens));
    }
    let (first, mut left) = cond(alloc, behind(tokens, 1))?;
    found.push(first)?;
    'conds: while begins(left, &[AND]) {
        let (next, rest) = cond(alloc, behind(left, 1))?;
        found.push(next)?;
        left = rest;
    }
    Ok((Items::from_vec(found), behind(left, 1)))
}

/// cmp literal
fn cond<'t, 'a>(
    alloc: Global,
    tokens: &'t [Lexeme<'a>],
) -> Result<(Cond, &'t [Lexeme<'a>]), AllocError>
    ensures built { IfOk result (λ r. Builds one_cond (IsCond r.0) tokens.now r.1.now) }
    ensures shorter { IfOk result (λ r. length r.1.now ≤ length tokens.now) }
{
    let (with, left) = literal(alloc, behind(tokens, 1))?;
    Ok((
        Cond {
            op: op(tokens),
            with,
        },
        left,
    ))
}

/// STRING | [ "-" ] NUMBER
pub fn literal<'t, 'a>(
    alloc: Global,
    tokens: &'t [Lexeme<'a>],
) -> Result<(Literal, &'t [Lexeme<'a>]), AllocError>
    ensures built { IfOk result (λ r. BuildsApart part.literal (IsLiteral r.0) tokens.now r.1.now) }
    ensures shorter { IfOk result (λ r. length r.1.now ≤ length tokens.now) }
{
    if begins(tokens, &[QUOTED]) {
        return Ok((Literal::Text(quoted(alloc, tokens)?), behind(tokens, 1)));
    }
    if begins(tokens, &[MINUS]) {
        let digits = behind(tokens, 1);
        return Ok((number(alloc, true, digits)?, behind(digits, 1)));
    }
    Ok((number(alloc, false, tokens)?, behind(tokens, 1)))
}

/// The number of the next token behind its sign; it is within the range.
fn number(alloc: Global, minus: bool, tokens: &[Lexeme]) -> Result<Literal, AllocError>
    ensures { IfOk result (λ literal. literal ≡ number_or_zero minus (bytes_in (next tokens.now))) }
{
    let number = literal_in(alloc, minus, bytes(tokens))?;
    Ok(Literal::Number(number.unwrap_or(0)))
}
