//! Reaches opened and ended: the stack has the numbers of the open ones, the outermost first.

ghost use Rattle.std.specs.Prelude.{◌≡◌, ℕ, ◌+◌, ◌-◌, ◌*◌, ◌^◌, ◌<◌, ◌≤◌, ◌++◌, List, [], All, length, map, filter, IfOk, OnOk};
ghost use Rattle.std.specs.List.{range_with_len};
ghost use Rattle.tb_span.specs.Lists.{IsSortedByStart, Nest};
ghost use Rattle.tb_span.specs.Seeds.{label_at, Range, range};
ghost use Rattle.tb_span.specs.declared.item.Axis.TheVariants.{Descendant};
ghost use Rattle.tb_span.specs.declared.item.Item.{Item};
ghost use Rattle.tb_span.specs.declared.item.Pair.{Pair};
ghost use Rattle.tb_stackjoin.specs.Pairs.{below};
ghost use Rattle.tb_stackjoin.specs.Stacks.{IsStack, lasts, run, spent};
ghost use Rattle.tb_stackjoin.specs.Reaches.{ancestors_of, opened, HasReaches};

use crate::reach::{Reach, ancestor_of, end_reach, write_reaches};
use crate::stack::{Stack, label_of};
use std::alloc::AllocError;
use std::sync::ledger::Ledger;
use tb_span::{Item, Label, Pair, Steps};

/// So many reaches wait to be written together, at least.
const WAITING: usize = 64;

/// Ends the reaches from the top whose ancestors end before the label of the descendant at a place, or of an
/// ancestor that starts no later than it.
pub fn end_reaches<L: Ledger>(
    a: &[Item],
    label: &Label,
    place: u32,
    reaches: &mut Vec<Reach>,
    stack: &mut Stack,
    steps: &mut Steps<L>,
)
    requires stacked { IsStack a.now (length a.now) (ancestors_of reaches.old.items stack.old.items) }
    requires numbered { All (λ k. k < length reaches.old.items) stack.old.items }
    ensures left { ancestors_of reaches.new.items stack.new.items
        ≡ filter (lasts a.now label.now.start) (ancestors_of reaches.old.items stack.old.items) }
    ensures numbered { All (λ k. k < length reaches.new.items) stack.new.items }
    ensures few { length reaches.new.items ≤ length reaches.old.items }
    ensures reaches { (d : List Item) → (r : Range) → (passed : List ℕ) → (pairs : List Pair) → place < r.hi
        → label.now.start ≤ (label_at d place).start
        → HasReaches a.now d r place passed pairs reaches.old.items stack.old.items
        → HasReaches a.now d r place passed pairs reaches.new.items stack.new.items }
    ensures cost { spent steps.new stack.new.items ≤ spent steps.old stack.old.items + 1 }
{
    'ended: while let Some(top) = stack.as_slice().last() {
        let number = *top;
        if !label_of(a, ancestor_of(reaches, number)).ends_before(label, steps) {
            return;
        }
        end_reach(reaches, number, place);
        stack.pop();
    }
}

/// Writes the pairs of all reaches when none is open any more. Some wait for each other, so that room is taken
/// seldom.
pub fn write_ended(
    reaches: &mut Vec<Reach>,
    stack: &[u32],
    pairs: &mut Vec<Pair>,
) -> Result<(), AllocError>
    ensures few { OnOk result (length reaches.new.items ≤ length reaches.old.items) }
    ensures numbered { OnOk result (All (λ k. k < length reaches.old.items) stack.now
        → All (λ k. k < length reaches.new.items) stack.now) }
    ensures same { OnOk result
        (ancestors_of reaches.new.items stack.now ≡ ancestors_of reaches.old.items stack.now) }
    ensures reaches { OnOk result ((a d : List Item) → (r : Range) → (place : ℕ) → (passed : List ℕ)
        → HasReaches a d r place passed pairs.old.items reaches.old.items stack.now
        → HasReaches a d r place passed pairs.new.items reaches.new.items stack.now) }
{
    if !stack.is_empty() {
        return Ok(());
    }
    if reaches.len() < WAITING {
        return Ok(());
    }
    write_reaches(reaches, pairs)?;
    Ok(())
}

/// Opens a reach for each ancestor from place `first` on that starts before the label of the descendant at a
/// place, and ends those that it leaves below. Gives the place of the next ancestor.
pub fn open_started<L: Ledger>(
    a: &[Item],
    first: u32,
    label: &Label,
    place: u32,
    hi: u32,
    reaches: &mut Vec<Reach>,
    stack: &mut Stack,
    pairs: &mut Vec<Pair>,
    steps: &mut Steps<L>,
) -> Result<u32, AllocError>
    requires sorted { IsSortedByStart a.now }
    requires nest { Nest a.now a.now }
    requires within { (first ≤ length a.now) × (length reaches.old.items ≤ first) }
    requires stacked { IsStack a.now first (ancestors_of reaches.old.items stack.old.items) }
    requires numbered { All (λ k. k < length reaches.old.items) stack.old.items }
    ensures is { IfOk result (λ next. next ≡ first + run a.now first label.now.start) }
    ensures stack { IfOk result (λ next.
        IsStack a.now next (ancestors_of reaches.new.items stack.new.items)) }
    ensures numbered { IfOk result (λ next. All (λ k. k < length reaches.new.items) stack.new.items) }
    ensures few { IfOk result (λ next. length reaches.new.items ≤ next) }
    ensures reaches { IfOk result (λ next. (d : List Item) → (lo : ℕ) → (passed : List ℕ) → place < hi
        → label.now.start ≤ (label_at d place).start
        → ((k : ℕ) → first ≤ k → k < length a.now
        → below Descendant d (label_at a.now k) (range lo place) ≡ [])
        → HasReaches a.now d (range lo hi) place passed
        pairs.old.items reaches.old.items stack.old.items
        → HasReaches a.now d (range lo hi) place (passed ++ range_with_len first (next - first))
        pairs.new.items reaches.new.items stack.new.items) }
    ensures cost { spent steps.new stack.new.items
        ≤ spent steps.old stack.old.items + 3 * run a.now first label.now.start + 1 }
{
    let mut next = first;
    'started: while (next as usize) < a.len() {
        let ancestor = label_of(a, next);
        if !ancestor.starts_before(label, steps) {
            return Ok(next);
        }
        end_reaches(a, ancestor, place, reaches, stack, steps);
        write_ended(reaches, stack.as_slice(), pairs)?;
        stack.push(reaches.len() as u32)?;
        reaches.push(Reach {
            a: next,
            first: place,
            last: hi,
        })?;
        next += 1;
    }
    Ok(next)
}

/// Opens a reach for each place of a seed.
pub fn open_seed(
    seed: &[u32],
    lo: u32,
    hi: u32,
    reaches: &mut Vec<Reach>,
    stack: &mut Stack,
) -> Result<(), AllocError>
    requires few { length seed.now < 2 ^ 32 }
    requires none { (reaches.old.items ≡ []) × (stack.old.items ≡ []) }
    ensures reaches { OnOk result
        (reaches.new.items ≡ map (λ i. opened (range lo hi) i lo) seed.now) }
    ensures stack { OnOk result (stack.new.items ≡ range_with_len 0 (length seed.now)) }
{
    'seed: for number in 0..seed.len() as u32 {
        stack.push(number)?;
        reaches.push(Reach {
            a: seed[number as usize],
            first: lo,
            last: hi,
        })?;
    }
    Ok(())
}
