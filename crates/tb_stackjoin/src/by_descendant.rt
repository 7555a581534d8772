//! Stack-Tree-Desc (Al-Khalifa and others, ICDE 2002): pairs by descendant.

ghost use Rattle.std.specs.Prelude.{◌≡◌, ◌+◌, ◌^◌, ◌<◌, ◌≤◌, length, IfOk};
ghost use Rattle.tb_span.specs.Lists.{AreJoinable};
ghost use Rattle.tb_span.specs.Seeds.{IsSeed, range};
ghost use Rattle.tb_stackjoin.specs.Pairs.{pairs_by_descendant};
ghost use Rattle.tb_stackjoin.specs.Turns.{most_steps};

use crate::pairing::pair_all;
use crate::stack::{Stack, label_of, pop_ended, push_started};
use std::alloc::{AllocError, Global};
use std::sync::ledger::Ledger;
use tb_span::{Axis, Item, Pair, Steps};

/// The pairs of the descendants from place `lo` up to `hi` of `d` with their ancestors in `a`, by descendant
/// and then by ancestor. The items of `a` before `from` are looked at no more: the places of those that are
/// still open at `d[lo]` are the seed. A whole join has `from` 0, no seed, and all of `d`.
/// At most six comparisons for each place of the seed and for each later ancestor that starts before the last
/// descendant, and four for each descendant.
pub fn join_desc<L: Ledger>(
    alloc: Global,
    a: &[Item],
    d: &[Item],
    seed: &[u32],
    from: u32,
    lo: u32,
    hi: u32,
    axis: Axis,
    steps: &mut Steps<L>,
) -> Result<Vec<Pair>, AllocError>
    requires joinable { AreJoinable a.now d.now }
    requires range { (lo ≤ hi) × (hi ≤ length d.now) × (from ≤ length a.now) }
    requires seeded { IsSeed a.now d.now seed.now from (range lo hi) }
    ensures pairs { IfOk result (λ pairs. pairs.items ≡ pairs_by_descendant axis a.now d.now (range lo hi)) }
    ensures cost { steps.new ≤ steps.old + most_steps a.now d.now seed.now from (range lo hi) }
{
    let mut stack = Stack::from_slice(alloc, seed)?;
    let mut next = from;
    let mut pairs = Vec::new(alloc);
    'each: for place in lo..hi {
        let label = label_of(d, place);
        next = push_started(a, next, label, &mut stack, steps)?;
        pop_ended(a, &mut stack, label, steps);
        pair_all(a, stack.as_slice(), label, place, axis, &mut pairs, steps)?;
    }
    Ok(pairs)
}
