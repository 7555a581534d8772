//! The clauses at the beginning of tokens that are a query.

ghost use Rattle.std.specs.Prelude.{◌-◌, ◌≤◌, IfOk, length};
ghost use Rattle.tb_token.specs.grammar.Grammar.{maybe};
ghost use Rattle.tb_pattern.specs.Building.{Builds};
ghost use Rattle.tb_token.specs.grammar.Queries as part;
ghost use Rattle.tb_token.specs.grammar.Terminals.{comma, list_of};
ghost use Rattle.tb_flwor.specs.Built.{Gives, GivesAll, AreBinds, BuildsClauses, IsAllowed, allowing};
ghost use Rattle.tb_flwor.specs.Value.{bind_from, clause_from};

use crate::names::BoundNames;
use crate::path::longpath;
use std::alloc::{AllocError, Global};
use tb_pattern::prefix::{begins, behind, bytes};
use tb_query::Clause;
use tb_token::Lexeme;
use tb_token::terminals::{ALLOWING, COMMA, FOR, LET};
use tb_tree::Items;

/// clause { clause }
pub fn clauses<'t, 'a>(
    alloc: Global,
    names: &BoundNames,
    tokens: &'t [Lexeme<'a>],
) -> Result<(Items<Clause>, &'t [Lexeme<'a>]), AllocError>
    ensures { IfOk result (λ r. BuildsClauses names.now r.0 tokens.now r.1.now) }
{
    let (mut found, mut left) = clause(alloc, names, tokens)?;
    'clauses: while begins(left, &[FOR, LET]) {
        let (mut more, rest) = clause(alloc, names, left)?;
        found.append(&mut more)?;
        left = rest;
    }
    Ok((Items::from_vec(found), left))
}

/// FOR bind { "," bind } | LET VARIABLE ":=" longpath
fn clause<'t, 'a>(
    alloc: Global,
    names: &BoundNames,
    tokens: &'t [Lexeme<'a>],
) -> Result<(Vec<Clause>, &'t [Lexeme<'a>]), AllocError>
    ensures built { IfOk result (λ r.
        Builds part.clause (GivesAll (clause_from names.now) r.0.items) tokens.now r.1.now) }
    ensures shorter { IfOk result (λ r. length r.1.now ≤ length tokens.now - 1) }
{
    if begins(tokens, &[FOR]) {
        let (found, left) = binds(alloc, names, behind(tokens, 1))?;
        return Ok((found, left));
    }
    let variable = behind(tokens, 1);
    let (path, left) = longpath(alloc, names, behind(behind(variable, 1), 1))?;
    let var = names.number(bytes(variable));
    let mut found = Vec::new(alloc);
    found.push(Clause::Let { var, path })?;
    Ok((found, left))
}

/// bind { "," bind }
fn binds<'t, 'a>(
    alloc: Global,
    names: &BoundNames,
    tokens: &'t [Lexeme<'a>],
) -> Result<(Vec<Clause>, &'t [Lexeme<'a>]), AllocError>
    ensures built { IfOk result (λ r.
        Builds (list_of comma part.bind) (AreBinds names.now r.0.items) tokens.now r.1.now) }
    ensures shorter { IfOk result (λ r. length r.1.now ≤ length tokens.now) }
{
    let mut found = Vec::new(alloc);
    let (first, mut left) = bind(alloc, names, tokens)?;
    found.push(first)?;
    'binds: while begins(left, &[COMMA]) {
        let (next, rest) = bind(alloc, names, behind(left, 1))?;
        found.push(next)?;
        left = rest;
    }
    Ok((found, left))
}

/// VARIABLE [ ALLOWING EMPTY ] IN longpath
fn bind<'t, 'a>(
    alloc: Global,
    names: &BoundNames,
    tokens: &'t [Lexeme<'a>],
) -> Result<(Clause, &'t [Lexeme<'a>]), AllocError>
    ensures built { IfOk result (λ r.
        Builds part.bind (Gives (bind_from names.now) r.0) tokens.now r.1.now) }
    ensures shorter { IfOk result (λ r. length r.1.now ≤ length tokens.now) }
{
    let (empty, left) = allowed(behind(tokens, 1));
    let (path, left) = longpath(alloc, names, behind(left, 1))?;
    let var = names.number(bytes(tokens));
    Ok((Clause::For { var, empty, path }, left))
}

/// [ ALLOWING EMPTY ]
fn allowed<'t, 'a>(tokens: &'t [Lexeme<'a>]) -> (bool, &'t [Lexeme<'a>])
    ensures built { Builds (maybe allowing) (IsAllowed result.0) tokens.now result.1.now }
    ensures shorter { length result.1.now ≤ length tokens.now }
{
    if begins(tokens, &[ALLOWING]) {
        return (true, behind(behind(tokens, 1), 1));
    }
    (false, tokens)
}
