//! The operators of `FOR`, and what `FOR` and `LET` bind.

ghost use Rattle.std.specs.Prelude.{◌≡◌, ◌+◌, ◌*◌, ◌<◌, ◌≤◌, [], length, option_map, IfOk};
ghost use Rattle.tb_tlc.specs.Planned.{with_stood, with_clause, with_clauses, first_draft, for_mark};
ghost use Rattle.tb_tlc.specs.Scopes.{seen};

use crate::Op;
use crate::operands::push_stood;
use crate::scope::{Scope, standing};
use crate::stood::StoodPath;
use crate::ties::tie_for;
use std::alloc::{AllocError, Global};
use tb_pattern::Mark;
use tb_query::Clause;

/// Pushes the operators of clauses, and answers the number of the next column.
pub fn push_clauses(
    alloc: Global,
    ops: &mut Vec<Op>,
    scope: &mut Scope,
    ties: &[(StoodPath, StoodPath)],
    clauses: &[Clause],
) -> Result<u32, AllocError>
    requires few { 3 * length clauses.now < 4294967296 }
    requires first { record { ops = ops.old.items; scope = seen scope.old; next = 0 } ≡ first_draft }
    ensures draft { IfOk result (λ next. record { ops = ops.new.items; scope = seen scope.new; next = next }
        ≡ with_clauses ties.now first_draft clauses.now) }
    ensures few { IfOk result (λ next. next ≤ 3 * length clauses.now) }
{
    let mut next = 0;
    'clauses: for i in 0..clauses.len() {
        let later = &clauses[i + 1..];
        next = push_clause(alloc, ops, scope, ties, later, next, &clauses[i])?;
    }
    Ok(next)
}

/// Adds what one clause does, where these come later, and answers the number of the next column.
fn push_clause(
    alloc: Global,
    ops: &mut Vec<Op>,
    scope: &mut Scope,
    ties: &[(StoodPath, StoodPath)],
    later: &[Clause],
    next: u32,
    clause: &Clause,
) -> Result<u32, AllocError>
    requires narrow { next + 3 < 4294967296 }
    ensures draft { IfOk result (λ n. record { ops = ops.new.items; scope = seen scope.new; next = n }
        ≡ with_clause ties.now later.now (record { ops = ops.old.items; scope = seen scope.old; next = next }) clause.now) }
    ensures few { IfOk result (λ n. n ≤ next + 3) }
{
    match clause {
        Clause::For { var, empty, path } => {
            let path = standing(alloc, scope.lets.as_slice(), path)?;
            let tie = tie_for(ties, scope.columns.as_slice(), *var, &path, later);
            push_for(alloc, ops, scope, next, *var, for_mark(*empty), path, tie)
        }
        Clause::Let { var, path } => {
            let path = standing(alloc, scope.lets.as_slice(), path)?;
            scope.lets.insert(0, (*var, path))?;
            Ok(next)
        }
    }
}

/// Binds the variable to the nodes of a path, joined by value where a tie leads to it.
fn push_for(
    alloc: Global,
    ops: &mut Vec<Op>,
    scope: &mut Scope,
    next: u32,
    var: u32,
    mark: Mark,
    path: StoodPath,
    tie: Option<&(StoodPath, StoodPath)>,
) -> Result<u32, AllocError>
    requires narrow { next + 3 < 4294967296 }
    ensures draft { IfOk result (λ n. record { ops = ops.new.items; scope = seen scope.new; next = n }
        ≡ with_stood (record { ops = ops.old.items; scope = seen scope.old; next = next }) var mark path (option_map (λ t. t.now) tie.entry)) }
    ensures few { IfOk result (λ n. n ≤ next + 3) }
{
    match tie {
        None => {
            push_stood(ops, scope.columns.as_slice(), next, mark, path)?;
            scope.columns.insert(0, (var, next))?;
            Ok(next + 1)
        }
        Some(tie) => {
            let left = tie.0.share(alloc)?;
            let right = tie.1.share(alloc)?;
            push_stood(ops, scope.columns.as_slice(), next, Mark::Any, left)?;
            push_stood(ops, scope.columns.as_slice(), next + 1, mark, path)?;
            scope.columns.insert(0, (var, next + 1))?;
            push_stood(ops, scope.columns.as_slice(), next + 2, Mark::Any, right)?;
            ops.push(Op::ValueJoin {
                left: next,
                right: next + 2,
            })?;
            Ok(next + 3)
        }
    }
}

fn for_mark(empty: bool) -> Mark
    ensures { result ≡ for_mark empty }
{
    if empty { Mark::Optional } else { Mark::One }
}
