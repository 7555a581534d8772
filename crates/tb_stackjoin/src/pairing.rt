//! The pairs of one descendant, from the ancestors on the stack.

ghost use Rattle.std.specs.Prelude.{◌≡◌, ◌+◌, ◌++◌, ◌≤◌, length, OnOk};
ghost use Rattle.tb_span.specs.declared.item.Axis.TheVariants.{Child};
ghost use Rattle.tb_stackjoin.specs.Pairs.{paired, related_places};
ghost use Rattle.tb_stackjoin.specs.Stacks.{IsStack, AreAbove};

use crate::stack::label_of;
use std::alloc::AllocError;
use std::sync::ledger::Ledger;
use tb_span::{Axis, Item, Label, Pair, Steps};

/// Pairs the descendant with each place on the stack.
fn pair_each(stack: &[u32], place: u32, pairs: &mut Vec<Pair>) -> Result<(), AllocError>
    ensures { OnOk result (pairs.new.items ≡ pairs.old.items ++ paired stack.now place) }
{
    'each: for ancestor in stack {
        pairs.push(Pair {
            a: *ancestor,
            d: place,
        })?;
    }
    Ok(())
}

/// Pairs the descendant with the top alone, where that is its parent: what lies below stands higher.
fn pair_parent<L: Ledger>(
    a: &[Item],
    stack: &[u32],
    label: &Label,
    place: u32,
    pairs: &mut Vec<Pair>,
    steps: &mut Steps<L>,
) -> Result<(), AllocError>
    requires stacked { IsStack a.now (length a.now) stack.now }
    requires above { AreAbove a.now stack.now label.now }
    ensures pairs { OnOk result (pairs.new.items
        ≡ pairs.old.items ++ paired (related_places Child a.now label.now stack.now) place) }
    ensures cost { steps.new ≤ steps.old + 1 }
{
    let Some(top) = stack.last() else {
        return Ok(());
    };
    if label.is_level_below(label_of(a, *top), steps) {
        pairs.push(Pair { a: *top, d: place })?;
    }
    Ok(())
}

/// Adds the pairs of the descendant with the ancestors on the stack that it has on the axis.
pub fn pair_all<L: Ledger>(
    a: &[Item],
    stack: &[u32],
    label: &Label,
    place: u32,
    axis: Axis,
    pairs: &mut Vec<Pair>,
    steps: &mut Steps<L>,
) -> Result<(), AllocError>
    requires stacked { IsStack a.now (length a.now) stack.now }
    requires above { AreAbove a.now stack.now label.now }
    ensures pairs { OnOk result (pairs.new.items
        ≡ pairs.old.items ++ paired (related_places axis a.now label.now stack.now) place) }
    ensures cost { steps.new ≤ steps.old + 1 }
{
    match axis {
        Axis::Descendant => pair_each(stack, place, pairs),
        Axis::Child => pair_parent(a, stack, label, place, pairs, steps),
    }
}
