//! The conditions of a query at the beginning of its tokens.

ghost use Rattle.std.specs.Prelude.{◌≡◌, ◌-◌, ◌≤◌, IfOk, length};
ghost use Rattle.tb_token.specs.grammar.Grammar.{either, maybe};
ghost use Rattle.tb_pattern.specs.Building.{Builds, BuildsApart};
ghost use Rattle.tb_token.specs.grammar.Patterns.{literal};
ghost use Rattle.tb_token.specs.grammar.Paths.{operand};
ghost use Rattle.tb_token.specs.grammar.Queries as part;
ghost use Rattle.tb_flwor.specs.Built.{Gives, AreConds, IsRight};
ghost use Rattle.tb_flwor.specs.Value.{cond_from};

use crate::names::BoundNames;
use crate::operand::operand;
use std::alloc::{AllocError, Global};
use tb_pattern::conds::literal;
use tb_pattern::prefix::{begins, behind, op};
use tb_query::{Comparison, Right};
use tb_token::Lexeme;
use tb_token::terminals::{AND, COUNT, DOCUMENT, MAX, MIN, SUM, VARIABLE, WHERE};
use tb_tree::Items;

/// [ WHERE cond { AND cond } ]
pub fn conds<'t, 'a>(
    alloc: Global,
    names: &BoundNames,
    tokens: &'t [Lexeme<'a>],
) -> Result<(Items<Comparison>, &'t [Lexeme<'a>]), AllocError>
    ensures { IfOk result (λ r.
        Builds (maybe part.where_part) (AreConds names.now r.0) tokens.now r.1.now) }
{
    let mut found = Vec::new(alloc);
    if !begins(tokens, &[WHERE]) {
        return Ok((Items::from_vec(found), tokens));
    }
    let (first, mut left) = cond(alloc, names, behind(tokens, 1))?;
    found.push(first)?;
    'conds: while begins(left, &[AND]) {
        let (next, rest) = cond(alloc, names, behind(left, 1))?;
        found.push(next)?;
        left = rest;
    }
    Ok((Items::from_vec(found), left))
}

/// operand cmp ( operand | literal )
fn cond<'t, 'a>(
    alloc: Global,
    names: &BoundNames,
    tokens: &'t [Lexeme<'a>],
) -> Result<(Comparison, &'t [Lexeme<'a>]), AllocError>
    ensures built { IfOk result (λ r.
        Builds part.cond (Gives (cond_from names.now) r.0) tokens.now r.1.now) }
    ensures shorter { IfOk result (λ r. length r.1.now ≤ length tokens.now) }
{
    let (left_operand, cmp) = operand(alloc, names, tokens)?;
    let (right_side, left) = right(alloc, names, behind(cmp, 1))?;
    let comparison = Comparison {
        left: left_operand,
        op: op(cmp),
        right: right_side,
    };
    Ok((comparison, left))
}

/// operand | literal
fn right<'t, 'a>(
    alloc: Global,
    names: &BoundNames,
    tokens: &'t [Lexeme<'a>],
) -> Result<(Right, &'t [Lexeme<'a>]), AllocError>
    ensures built { IfOk result (λ r.
        BuildsApart (either operand literal) (IsRight names.now r.0) tokens.now r.1.now) }
    ensures shorter { IfOk result (λ r. length r.1.now ≤ length tokens.now) }
{
    if begins(tokens, &[DOCUMENT, VARIABLE, COUNT, SUM, MIN, MAX]) {
        let (operand, left) = operand(alloc, names, tokens)?;
        return Ok((Right::Operand(operand), left));
    }
    let (literal, left) = literal(alloc, tokens)?;
    Ok((Right::Literal(literal), left))
}
