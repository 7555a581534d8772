//! How a query groups and orders, at the beginning of its tokens.

ghost use Rattle.std.specs.Prelude.{◌≡◌, ◌-◌, ◌≤◌, IfOk, length};
ghost use Rattle.tb_token.specs.grammar.Grammar.{maybe};
ghost use Rattle.tb_pattern.specs.Building.{Builds};
ghost use Rattle.tb_token.specs.grammar.Queries as part;
ghost use Rattle.tb_flwor.specs.Built.{Gives, IsGroup, AreKeys, IsTurned, direction};
ghost use Rattle.tb_flwor.specs.Value.{key_from};

use crate::names::BoundNames;
use crate::operand::operand;
use crate::path::path;
use std::alloc::{AllocError, Global};
use tb_pattern::prefix::{begins, behind, bytes};
use tb_query::{GroupBy, Key};
use tb_token::Lexeme;
use tb_token::terminals::{ASCENDING, COMMA, DESCENDING, GROUP, ORDER};
use tb_tree::Items;

/// [ GROUP BY VARIABLE ":=" path ]
pub fn group<'t, 'a>(
    alloc: Global,
    names: &BoundNames,
    tokens: &'t [Lexeme<'a>],
) -> Result<(Option<GroupBy>, &'t [Lexeme<'a>]), AllocError>
    ensures { IfOk result (λ r.
        Builds (maybe part.group) (IsGroup names.now r.0) tokens.now r.1.now) }
{
    if !begins(tokens, &[GROUP]) {
        return Ok((None, tokens));
    }
    let variable = behind(behind(tokens, 1), 1);
    let (path, left) = path(alloc, names, behind(behind(variable, 1), 1))?;
    let var = names.number(bytes(variable));
    Ok((Some(GroupBy { var, path }), left))
}

/// [ ORDER BY key { "," key } ]
pub fn keys<'t, 'a>(
    alloc: Global,
    names: &BoundNames,
    tokens: &'t [Lexeme<'a>],
) -> Result<(Items<Key>, &'t [Lexeme<'a>]), AllocError>
    ensures { IfOk result (λ r.
        Builds (maybe part.order) (AreKeys names.now r.0) tokens.now r.1.now) }
{
    let mut found = Vec::new(alloc);
    if !begins(tokens, &[ORDER]) {
        return Ok((Items::from_vec(found), tokens));
    }
    let (first, mut left) = key(alloc, names, behind(behind(tokens, 1), 1))?;
    found.push(first)?;
    'keys: while begins(left, &[COMMA]) {
        let (next, rest) = key(alloc, names, behind(left, 1))?;
        found.push(next)?;
        left = rest;
    }
    Ok((Items::from_vec(found), left))
}

/// operand [ ASCENDING | DESCENDING ]
fn key<'t, 'a>(
    alloc: Global,
    names: &BoundNames,
    tokens: &'t [Lexeme<'a>],
) -> Result<(Key, &'t [Lexeme<'a>]), AllocError>
    ensures built { IfOk result (λ r.
        Builds part.key (Gives (key_from names.now) r.0) tokens.now r.1.now) }
    ensures shorter { IfOk result (λ r. length r.1.now ≤ length tokens.now) }
{
    let (operand, left) = operand(alloc, names, tokens)?;
    let (descending, left) = turned(left);
    Ok((
        Key {
            operand,
            descending,
        },
        left,
    ))
}

/// [ ASCENDING | DESCENDING ]
fn turned<'t, 'a>(tokens: &'t [Lexeme<'a>]) -> (bool, &'t [Lexeme<'a>])
    ensures built { Builds (maybe direction) (IsTurned result.0) tokens.now result.1.now }
    ensures shorter { length result.1.now ≤ length tokens.now }
{
    if begins(tokens, &[ASCENDING, DESCENDING]) {
        return (begins(tokens, &[DESCENDING]), behind(tokens, 1));
    }
    (false, tokens)
}
