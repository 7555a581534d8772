//! Conditions that tie a variable to an earlier one.

ghost use Rattle.std.specs.Prelude.{◌≡◌, ◌++◌, [], IfOk, OnOk, option_map};
ghost use Rattle.tb_query.specs.Tuples.{standing};
ghost use Rattle.tb_query.specs.declared.operand.Operand.TheVariants.{Nodes};
ghost use Rattle.tb_tlc.specs.Ties.{ties, ties_of, ties_of_sides, both_ways, is_equality, with_let, lets_after};
ghost use Rattle.tb_tlc.specs.Ties.{binds, is_free, has_column, starts_at, starts_before, leads_to, tie_for};

use crate::scope::standing;
use crate::stood::StoodPath;
use std::alloc::{AllocError, Global};
use tb_number::CmpOp;
use tb_query::{Clause, Comparison, Operand, Path, Right};

/// The ties of all conditions, each either way round.
pub fn ties(
    alloc: Global,
    clauses: &[Clause],
    conds: &[Comparison],
) -> Result<Vec<(StoodPath, StoodPath)>, AllocError>
    ensures { IfOk result (λ all. all.items ≡ ties (lets_after [] clauses.now) conds.now) }
{
    let lets = lets_after(alloc, clauses)?;
    let mut all = Vec::new(alloc);
    'conds: for cond in conds {
        push_ties(alloc, &mut all, lets.as_slice(), cond)?;
    }
    Ok(all)
}

/// The variables of `LET` with their paths, the last one bound first.
fn lets_after(alloc: Global, clauses: &[Clause]) -> Result<Vec<(u32, StoodPath)>, AllocError>
    ensures { IfOk result (λ lets. lets.items ≡ lets_after [] clauses.now) }
{
    let mut lets = Vec::new(alloc);
    'clauses: for clause in clauses {
        push_let(alloc, &mut lets, clause)?;
    }
    Ok(lets)
}

fn push_let(
    alloc: Global,
    lets: &mut Vec<(u32, StoodPath)>,
    clause: &Clause,
) -> Result<(), AllocError>
    ensures { OnOk result (lets.new.items ≡ with_let lets.old.items clause.now) }
{
    match clause {
        Clause::For { .. } => Ok(()),
        Clause::Let { var, path } => {
            let path = standing(alloc, lets.as_slice(), path)?;
            lets.insert(0, (*var, path))?;
            Ok(())
        }
    }
}

/// Those of one condition.
fn push_ties(
    alloc: Global,
    all: &mut Vec<(StoodPath, StoodPath)>,
    lets: &[(u32, StoodPath)],
    cond: &Comparison,
) -> Result<(), AllocError>
    ensures { OnOk result (all.new.items ≡ all.old.items ++ ties_of lets.now cond.now) }
{
    match &cond.left {
        Operand::Nodes(left) => push_sides(alloc, all, lets, cond.op, left, &cond.right),
        Operand::Agg { .. } => Ok(()),
    }
}

fn push_sides(
    alloc: Global,
    all: &mut Vec<(StoodPath, StoodPath)>,
    lets: &[(u32, StoodPath)],
    op: CmpOp,
    left: &Path,
    right: &Right,
) -> Result<(), AllocError>
    ensures { OnOk result (all.new.items ≡ all.old.items ++ ties_of_sides lets.now op (Nodes left.now) right.now) }
{
    match right {
        Right::Operand(operand) => match operand {
            Operand::Nodes(right) => push_both_ways(alloc, all, lets, is_equality(op), left, right),
            Operand::Agg { .. } => Ok(()),
        },
        Right::Literal(_) => Ok(()),
    }
}

fn push_both_ways(
    alloc: Global,
    all: &mut Vec<(StoodPath, StoodPath)>,
    lets: &[(u32, StoodPath)],
    is_tie: bool,
    left: &Path,
    right: &Path,
) -> Result<(), AllocError>
    ensures { OnOk result (all.new.items
        ≡ all.old.items ++ both_ways is_tie (standing lets.now left.now) (standing lets.now right.now)) }
{
    if !is_tie {
        return Ok(());
    }
    let first = standing(alloc, lets, left)?;
    let second = standing(alloc, lets, right)?;
    all.push((first, second))?;
    let first = standing(alloc, lets, right)?;
    let second = standing(alloc, lets, left)?;
    all.push((first, second))?;
    Ok(())
}

fn is_equality(op: CmpOp) -> bool
    ensures { result ≡ is_equality op }
{
    match op {
        CmpOp::Eq => true,
        CmpOp::Ne => false,
        CmpOp::Lt => false,
        CmpOp::Le => false,
        CmpOp::Gt => false,
        CmpOp::Ge => false,
    }
}

/// The first tie that leads to a variable which `FOR` binds to the nodes of a path from a document, and which the
/// clauses to come don't bind again.
pub fn tie_for<'a>(
    all: &'a [(StoodPath, StoodPath)],
    columns: &[(u32, u32)],
    var: u32,
    path: &StoodPath,
    later: &[Clause],
) -> Option<&'a (StoodPath, StoodPath)>
    ensures { option_map (λ tie. tie.now) result ≡ tie_for all.now columns.now var path.now.start later.now }
{
    if path.variable().is_some() {
        return None;
    }
    if !is_free(var, later) {
        return None;
    }
    'ties: for tie in all {
        if leads_to(columns, var, later, tie) {
            return Some(tie);
        }
    }
    None
}

/// Whether the tie leads from an earlier variable to this one.
fn leads_to(
    columns: &[(u32, u32)],
    var: u32,
    later: &[Clause],
    tie: &(StoodPath, StoodPath),
) -> bool
    ensures { result ≡ leads_to columns.now var later.now tie.now }
{
    starts_at(var, &tie.1) && starts_before(columns, var, later, &tie.0)
}

fn starts_at(var: u32, path: &StoodPath) -> bool
    ensures { result ≡ starts_at var path.now.start }
{
    match path.variable() {
        None => false,
        Some(other) => var == other,
    }
}

/// Whether it is another variable that has a column already, and that the clauses to come don't bind.
fn starts_before(columns: &[(u32, u32)], var: u32, later: &[Clause], path: &StoodPath) -> bool
    ensures { result ≡ starts_before columns.now var later.now path.now.start }
{
    match path.variable() {
        None => false,
        Some(other) => other != var && has_column(other, columns) && is_free(other, later),
    }
}

fn has_column(var: u32, columns: &[(u32, u32)]) -> bool
    ensures { result ≡ has_column var columns.now }
{
    'columns: for placed in columns {
        if var == placed.0 {
            return true;
        }
    }
    false
}

/// Whether no `FOR` among the clauses binds the variable.
fn is_free(var: u32, clauses: &[Clause]) -> bool
    ensures { result ≡ is_free var clauses.now }
{
    'clauses: for clause in clauses {
        if binds(var, clause) {
            return false;
        }
    }
    true
}

fn binds(var: u32, clause: &Clause) -> bool
    ensures { result ≡ binds var clause.now }
{
    match clause {
        Clause::For { var: other, .. } => var == *other,
        Clause::Let { .. } => false,
    }
}
