//! The stack of a join: places of ancestors that lie inside each other, the outermost first.

ghost use Rattle.std.specs.Prelude.{◌≡◌, ◌+◌, ◌*◌, ◌^◌, ◌<◌, ◌≤◌, length, filter, IfOk, OnOk};
ghost use Rattle.tb_span.specs.Span.{Span};
ghost use Rattle.tb_span.specs.Lists.{IsSortedByStart, Nest};
ghost use Rattle.tb_span.specs.Seeds.{label_at};
ghost use Rattle.tb_stackjoin.specs.Stacks.{IsStack, lasts, run, spent, HasPushed};

use smallvec::SmallVec;
use std::alloc::AllocError;
use std::sync::ledger::Ledger;
use tb_span::{Item, Label, Steps};

/// Up to 16 ancestors inside each other take no memory.
pub type Stack = SmallVec<u32, 16>;

/// The label of the item at a place, that it ends behind its start, and that its numbers are short.
pub fn label_of(items: &[Item], place: u32) -> &Label
    requires { place < length items.now }
    ensures is { result.now ≡ label_at items.now place }
    ensures interval { result.now.start < result.now.end }
    ensures short { result.now.end < 2 ^ 32 }
{
    let label = &items[place as usize].label;
    label.interval();
    label
}

/// Takes from the top what ends before the label starts.
pub fn pop_ended<L: Ledger>(a: &[Item], stack: &mut Stack, label: &Label, steps: &mut Steps<L>)
    requires stacked { IsStack a.now (length a.now) stack.old.items }
    ensures left { stack.new.items ≡ filter (lasts a.now label.now.start) stack.old.items }
    ensures cost { spent steps.new stack.new.items ≤ spent steps.old stack.old.items + 1 }
{
    'ended: while let Some(top) = stack.as_slice().last() {
        if !label_of(a, *top).ends_before(label, steps) {
            return;
        }
        stack.pop();
    }
}

/// Puts on all ancestors from place `first` on that start before the label, each inside those that it leaves
/// below. Gives the place of the next one.
pub fn push_started<L: Ledger>(
    a: &[Item],
    first: u32,
    label: &Label,
    stack: &mut Stack,
    steps: &mut Steps<L>,
) -> Result<u32, AllocError>
    requires sorted { IsSortedByStart a.now }
    requires nest { Nest a.now a.now }
    requires within { first ≤ length a.now }
    requires stacked { IsStack a.now first stack.old.items }
    ensures pushed { IfOk result
        (HasPushed a.now first label.now.start stack.old.items stack.new.items) }
    ensures cost { spent steps.new stack.new.items
        ≤ spent steps.old stack.old.items + 3 * run a.now first label.now.start + 1 }
{
    let mut next = first;
    'started: while (next as usize) < a.len() {
        let ancestor = label_of(a, next);
        if !ancestor.starts_before(label, steps) {
            return Ok(next);
        }
        pop_ended(a, stack, ancestor, steps);
        stack.push(next)?;
        next += 1;
    }
    Ok(next)
}
