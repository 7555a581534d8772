//! The operators of paths and operands.

ghost use Rattle.std.specs.Prelude.{◌≡◌, ◌++◌, ◌+◌, ◌<◌, [], ◌∷◌, IfOk, OnOk};
ghost use Rattle.tb_pattern.specs.declared.pattern.Mark.TheVariants as mark;
ghost use Rattle.tb_tlc.specs.Planned.{stand_op, path_op, operand_ops, operand_width, operand_column};
ghost use Rattle.tb_tlc.specs.Scopes.{seen};

use crate::Op;
use crate::scope::{Scope, standing};
use crate::stood::StoodPath;
use std::alloc::{AllocError, Global};
use tb_pattern::Mark;
use tb_query::{Operand, Path};

/// Pushes the operator that adds a column with the nodes of a path. The next column has this number.
pub fn push_path(
    alloc: Global,
    ops: &mut Vec<Op>,
    scope: &Scope,
    next: u32,
    mark: Mark,
    path: &Path,
) -> Result<(), AllocError>
    ensures { OnOk result (ops.new.items ≡ ops.old.items ++ path_op (seen scope.now) next mark path.now ∷ []) }
{
    let path = standing(alloc, scope.lets.as_slice(), path)?;
    push_stood(ops, scope.columns.as_slice(), next, mark, path)
}

/// The same of a path that starts at no variable of `LET`.
pub fn push_stood(
    ops: &mut Vec<Op>,
    columns: &[(u32, u32)],
    next: u32,
    mark: Mark,
    path: StoodPath,
) -> Result<(), AllocError>
    ensures { OnOk result (ops.new.items ≡ ops.old.items ++ stand_op columns.now next mark path ∷ []) }
{
    ops.push(path.into_op(columns, next, mark))?;
    Ok(())
}

/// Pushes the operators of an operand, and answers the column of its values.
pub fn push_operand(
    alloc: Global,
    ops: &mut Vec<Op>,
    scope: &Scope,
    next: u32,
    operand: &Operand,
) -> Result<u32, AllocError>
    requires narrow { next + operand_width operand.now < 4294967296 }
    ensures ops { OnOk result (ops.new.items ≡ ops.old.items ++ operand_ops (seen scope.now) next operand.now) }
    ensures column { IfOk result (λ column. column ≡ operand_column next operand.now) }
    ensures width { IfOk result (λ column. column + 1 ≡ next + operand_width operand.now) }
{
    match operand {
        Operand::Nodes(path) => {
            push_path(alloc, ops, scope, next, Mark::Any, path)?;
            Ok(next)
        }
        Operand::Agg { kind, path } => {
            push_path(alloc, ops, scope, next, Mark::Any, path)?;
            ops.push(Op::Aggregate {
                from: next,
                kind: *kind,
            })?;
            Ok(next + 1)
        }
    }
}
