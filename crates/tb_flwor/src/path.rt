//! The path at the beginning of tokens that are a query.

ghost use Rattle.std.specs.Prelude.{◌≡◌, ◌-◌, ◌≤◌, IfOk, length};
ghost use Rattle.tb_token.specs.grammar.Grammar.{either, many};
ghost use Rattle.tb_pattern.specs.Building.{Builds};
ghost use Rattle.tb_token.specs.grammar.Patterns.{doc};
ghost use Rattle.tb_token.specs.grammar.Paths as part;
ghost use Rattle.tb_token.specs.grammar.Terminals.{variable};
ghost use Rattle.tb_flwor.specs.Built.{Gives, IsDocument, AreSteps, AreMore, IsStart, IsPath, IsLongpath};
ghost use Rattle.tb_flwor.specs.Value.{step_from};

use crate::names::BoundNames;
use std::alloc::{AllocError, Global};
use tb_pattern::node_test::test;
use tb_pattern::prefix::{axis, begins, behind, bytes, quoted};
use tb_query::{Path, Start, Step};
use tb_token::Lexeme;
use tb_token::terminals::{DOCUMENT, DOUBLE_SLASH, SLASH};
use tb_tree::{Bytes, Items};

/// doc step { step } | VARIABLE { step }
pub fn path<'t, 'a>(
    alloc: Global,
    names: &BoundNames,
    tokens: &'t [Lexeme<'a>],
) -> Result<(Path, &'t [Lexeme<'a>]), AllocError>
    ensures built { IfOk result (λ r. Builds part.path (IsPath names.now r.0) tokens.now r.1.now) }
    ensures shorter { IfOk result (λ r. length r.1.now ≤ length tokens.now - 1) }
{
    if begins(tokens, &[DOCUMENT]) {
        let (name, left) = document(alloc, tokens)?;
        let (steps, left) = steps(alloc, left)?;
        let start = Start::Document(name);
        return Ok((Path { start, steps }, left));
    }
    let start = Start::Var(names.number(bytes(tokens)));
    let (steps, left) = more_steps(alloc, behind(tokens, 1))?;
    Ok((Path { start, steps }, left))
}

/// ( doc | VARIABLE ) step { step }
pub fn longpath<'t, 'a>(
    alloc: Global,
    names: &BoundNames,
    tokens: &'t [Lexeme<'a>],
) -> Result<(Path, &'t [Lexeme<'a>]), AllocError>
    ensures built { IfOk result (λ r.
        Builds part.longpath (IsLongpath names.now r.0) tokens.now r.1.now) }
    ensures shorter { IfOk result (λ r. length r.1.now ≤ length tokens.now - 1) }
{
    let (start, left) = start(alloc, names, tokens)?;
    let (steps, left) = steps(alloc, left)?;
    Ok((Path { start, steps }, left))
}

/// doc | VARIABLE
fn start<'t, 'a>(
    alloc: Global,
    names: &BoundNames,
    tokens: &'t [Lexeme<'a>],
) -> Result<(Start, &'t [Lexeme<'a>]), AllocError>
    ensures built { IfOk result (λ r.
        Builds (either doc variable) (IsStart names.now r.0) tokens.now r.1.now) }
    ensures shorter { IfOk result (λ r. length r.1.now ≤ length tokens.now - 1) }
{
    if begins(tokens, &[DOCUMENT]) {
        let (name, left) = document(alloc, tokens)?;
        return Ok((Start::Document(name), left));
    }
    let start = Start::Var(names.number(bytes(tokens)));
    Ok((start, behind(tokens, 1)))
}

/// DOCUMENT "(" STRING ")"
fn document<'t, 'a>(
    alloc: Global,
    tokens: &'t [Lexeme<'a>],
) -> Result<(Bytes, &'t [Lexeme<'a>]), AllocError>
    ensures built { IfOk result (λ r. Builds doc (IsDocument r.0) tokens.now r.1.now) }
    ensures shorter { IfOk result (λ r. length r.1.now ≤ length tokens.now - 1) }
{
    let string = behind(behind(tokens, 1), 1);
    let name = quoted(alloc, string)?;
    Ok((name, behind(behind(string, 1), 1)))
}

/// step { step }
fn steps<'t, 'a>(
    alloc: Global,
    tokens: &'t [Lexeme<'a>],
) -> Result<(Items<Step>, &'t [Lexeme<'a>]), AllocError>
    ensures built { IfOk result (λ r. Builds part.steps (AreSteps r.0) tokens.now r.1.now) }
    ensures shorter { IfOk result (λ r. length r.1.now ≤ length tokens.now - 1) }
{
    let mut found = Vec::new(alloc);
    let (first, mut left) = step(alloc, tokens)?;
    found.push(first)?;
    'steps: while begins(left, &[SLASH, DOUBLE_SLASH]) {
        let (next, rest) = step(alloc, left)?;
        found.push(next)?;
        left = rest;
    }
    Ok((Items::from_vec(found), left))
}

/// { step }
fn more_steps<'t, 'a>(
    alloc: Global,
    tokens: &'t [Lexeme<'a>],
) -> Result<(Items<Step>, &'t [Lexeme<'a>]), AllocError>
    ensures built { IfOk result (λ r. Builds (many part.step) (AreMore r.0) tokens.now r.1.now) }
    ensures shorter { IfOk result (λ r. length r.1.now ≤ length tokens.now) }
{
    if begins(tokens, &[SLASH, DOUBLE_SLASH]) {
        let (steps, left) = steps(alloc, tokens)?;
        return Ok((steps, left));
    }
    Ok((Items::from_vec(Vec::new(alloc)), tokens))
}

/// axis test
fn step<'t, 'a>(
    alloc: Global,
    tokens: &'t [Lexeme<'a>],
) -> Result<(Step, &'t [Lexeme<'a>]), AllocError>
    ensures built { IfOk result (λ r. Builds part.step (Gives step_from r.0) tokens.now r.1.now) }
    ensures shorter { IfOk result (λ r. length r.1.now ≤ length tokens.now - 1) }
{
    let (test, left) = test(alloc, behind(tokens, 1))?;
    let axis = axis(tokens);
    Ok((Step { axis, test }, left))
}
