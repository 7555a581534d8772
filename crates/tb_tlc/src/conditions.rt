//! The operators of conditions.

ghost use Rattle.std.specs.Prelude.{◌≡◌, ◌++◌, ◌+◌, ◌<◌, [], ◌∷◌, not, IfOk, OnOk};
ghost use Rattle.std.specs.List.{filter};
ghost use Rattle.tb_query.specs.Comparisons.{is_sum, takes_sum, right_takes_sum, has_sum, as_tested};
ghost use Rattle.tb_tlc.specs.Planned.{literal_against, operand_width, operand_column, right_ops, right_width, right_against, cond_ops, cond_width, conds_ops, conds_width};
ghost use Rattle.tb_tlc.specs.Scopes.{seen};

use crate::Op;
use crate::operands::push_operand;
use crate::scope::Scope;
use std::alloc::{AllocError, Global};
use tb_number::AggKind;
use tb_pattern::Literal;
use tb_query::{Comparison, Operand, Right};
use tb_tree::Against;

/// Pushes the operators of conditions in the order in which they are tested: those without a sum come first.
/// Answers the number of the next column.
pub fn push_conds(
    alloc: Global,
    ops: &mut Vec<Op>,
    scope: &Scope,
    start: u32,
    conds: &[Comparison],
) -> Result<u32, AllocError>
    requires narrow { start + conds_width (as_tested conds.now) < 4294967296 }
    ensures ops { OnOk result (ops.new.items ≡ ops.old.items ++ conds_ops (seen scope.now) start (as_tested conds.now)) }
    ensures next { IfOk result (λ next. next ≡ start + conds_width (as_tested conds.now)) }
{
    let next = push_plain(alloc, ops, scope, start, conds)?;
    let next = push_sums(alloc, ops, scope, next, conds)?;
    Ok(next)
}

/// Those without a sum.
fn push_plain(
    alloc: Global,
    ops: &mut Vec<Op>,
    scope: &Scope,
    start: u32,
    conds: &[Comparison],
) -> Result<u32, AllocError>
    requires narrow { start + conds_width (filter (λ c. not (has_sum c)) conds.now) < 4294967296 }
    ensures ops { OnOk result
        (ops.new.items ≡ ops.old.items ++ conds_ops (seen scope.now) start (filter (λ c. not (has_sum c)) conds.now)) }
    ensures next { IfOk result (λ next. next ≡ start + conds_width (filter (λ c. not (has_sum c)) conds.now)) }
{
    let mut next = start;
    'conds: for cond in conds {
        if !has_sum(cond) {
            next = push_cond(alloc, ops, scope, next, cond)?;
        }
    }
    Ok(next)
}

/// Those with a sum.
fn push_sums(
    alloc: Global,
    ops: &mut Vec<Op>,
    scope: &Scope,
    start: u32,
    conds: &[Comparison],
) -> Result<u32, AllocError>
    requires narrow { start + conds_width (filter has_sum conds.now) < 4294967296 }
    ensures ops { OnOk result
        (ops.new.items ≡ ops.old.items ++ conds_ops (seen scope.now) start (filter has_sum conds.now)) }
    ensures next { IfOk result (λ next. next ≡ start + conds_width (filter has_sum conds.now)) }
{
    let mut next = start;
    'conds: for cond in conds {
        if has_sum(cond) {
            next = push_cond(alloc, ops, scope, next, cond)?;
        }
    }
    Ok(next)
}

/// The operands, and the filter.
fn push_cond(
    alloc: Global,
    ops: &mut Vec<Op>,
    scope: &Scope,
    start: u32,
    cond: &Comparison,
) -> Result<u32, AllocError>
    requires narrow { start + cond_width cond.now < 4294967296 }
    ensures ops { OnOk result (ops.new.items ≡ ops.old.items ++ cond_ops (seen scope.now) start cond.now) }
    ensures next { IfOk result (λ next. next ≡ start + cond_width cond.now) }
{
    let left = push_operand(alloc, ops, scope, start, &cond.left)?;
    let (right, next) = push_right(alloc, ops, scope, left + 1, &cond.right)?;
    ops.push(Op::Filter {
        left,
        op: cond.op,
        right,
    })?;
    Ok(next)
}

/// What a left operand is compared with, and the number of the next column.
fn push_right(
    alloc: Global,
    ops: &mut Vec<Op>,
    scope: &Scope,
    start: u32,
    right: &Right,
) -> Result<(Against, u32), AllocError>
    requires narrow { start + right_width right.now < 4294967296 }
    ensures ops { OnOk result (ops.new.items ≡ ops.old.items ++ right_ops (seen scope.now) start right.now) }
    ensures right { IfOk result (λ made. made.0 ≡ right_against start right.now) }
    ensures next { IfOk result (λ made. made.1 ≡ start + right_width right.now) }
{
    match right {
        Right::Operand(operand) => {
            let column = push_operand(alloc, ops, scope, start, operand)?;
            Ok((Against::Column(column), column + 1))
        }
        Right::Literal(literal) => Ok((against(alloc, literal)?, start)),
    }
}

fn against(alloc: Global, literal: &Literal) -> Result<Against, AllocError>
    ensures { IfOk result (λ against. against ≡ literal_against literal.now) }
{
    match literal {
        Literal::Number(number) => Ok(Against::Number(*number)),
        Literal::Text(text) => Ok(Against::Text(text.copy(alloc)?)),
    }
}

/// Whether a sum is taken on either side.
fn has_sum(cond: &Comparison) -> bool
    ensures { result ≡ has_sum cond.now }
{
    takes_sum(&cond.left) || right_takes_sum(&cond.right)
}

fn right_takes_sum(right: &Right) -> bool
    ensures { result ≡ right_takes_sum right.now }
{
    match right {
        Right::Operand(operand) => takes_sum(operand),
        Right::Literal(_) => false,
    }
}

fn takes_sum(operand: &Operand) -> bool
    ensures { result ≡ takes_sum operand.now }
{
    match operand {
        Operand::Nodes(_) => false,
        Operand::Agg { kind, .. } => is_sum(*kind),
    }
}

fn is_sum(kind: AggKind) -> bool
    ensures { result ≡ is_sum kind }
{
    match kind {
        AggKind::Sum => true,
        AggKind::Count => false,
        AggKind::Min => false,
        AggKind::Max => false,
    }
}
