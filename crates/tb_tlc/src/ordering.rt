//! The operators of `GROUP BY` and `ORDER BY`.

ghost use Rattle.std.specs.Prelude.{◌≡◌, ◌++◌, ◌+◌, ◌<◌, [], ◌∷◌, IfOk, OnOk};
ghost use Rattle.tb_tlc.specs.Planned.{with_group, keys_ops, keys_width, sort_keys, order_ops};
ghost use Rattle.tb_tlc.specs.Scopes.{seen};

use crate::Op;
use crate::operands::{push_operand, push_path};
use crate::scope::Scope;
use std::alloc::{AllocError, Global};
use tb_number::SortKey;
use tb_pattern::Mark;
use tb_query::{GroupBy, Key};
use tb_tree::Items;

/// Pushes the operators of `GROUP BY` where it is written, and answers the number of the next column.
pub fn push_group(
    alloc: Global,
    ops: &mut Vec<Op>,
    scope: &mut Scope,
    next: u32,
    group: &Option<GroupBy>,
) -> Result<u32, AllocError>
    requires narrow { next + 2 < 4294967296 }
    ensures draft { IfOk result (λ n. record { ops = ops.new.items; scope = seen scope.new; next = n }
        ≡ with_group (record { ops = ops.old.items; scope = seen scope.old; next = next }) group.now) }
{
    let Some(by) = group else {
        return Ok(next);
    };
    push_path(alloc, ops, scope, next, Mark::Any, &by.path)?;
    ops.push(Op::Group { key: next })?;
    scope.columns.insert(0, (by.var, next + 1))?;
    Ok(next + 2)
}

/// Pushes the operators of keys and, where there are some, the order by them. Answers the number of the next
/// column.
pub fn push_order(
    alloc: Global,
    ops: &mut Vec<Op>,
    scope: &Scope,
    start: u32,
    keys: &[Key],
) -> Result<u32, AllocError>
    requires narrow { start + keys_width keys.now < 4294967296 }
    ensures ops { OnOk result (ops.new.items
        ≡ ops.old.items ++ (keys_ops (seen scope.now) start keys.now ++ order_ops start keys.now)) }
    ensures next { IfOk result (λ next. next ≡ start + keys_width keys.now) }
{
    let mut sorted = Vec::new(alloc);
    let next = push_keys(alloc, ops, &mut sorted, scope, start, keys)?;
    if !keys.is_empty() {
        ops.push(Op::Order {
            keys: Items::from_vec(sorted),
        })?;
    }
    Ok(next)
}

/// The operators of keys, and the keys by their columns.
fn push_keys(
    alloc: Global,
    ops: &mut Vec<Op>,
    sorted: &mut Vec<SortKey>,
    scope: &Scope,
    start: u32,
    keys: &[Key],
) -> Result<u32, AllocError>
    requires narrow { start + keys_width keys.now < 4294967296 }
    ensures ops { OnOk result (ops.new.items ≡ ops.old.items ++ keys_ops (seen scope.now) start keys.now) }
    ensures keys { OnOk result (sorted.new.items ≡ sorted.old.items ++ sort_keys start keys.now) }
    ensures next { IfOk result (λ next. next ≡ start + keys_width keys.now) }
{
    let mut next = start;
    'keys: for key in keys {
        let column = push_operand(alloc, ops, scope, next, &key.operand)?;
        sorted.push(SortKey {
            column,
            descending: key.descending,
        })?;
        next = column + 1;
    }
    Ok(next)
}
