//! Pairs by ancestor.
//!
//! Stack-Tree-Anc (Al-Khalifa and others, ICDE 2002) keeps for each entry of its stack a list of its own pairs
//! and a list of those that it inherits. On the axis of descendants an entry's own pairs are a run of `d`, so two
//! places tell them; and reaches are made in the order of their ancestors, so what an entry inherits stands
//! behind it already.

ghost use Rattle.std.specs.Prelude.{◌≡◌, ◌+◌, ◌^◌, ◌<◌, ◌≤◌, length, IfOk};
ghost use Rattle.tb_span.specs.Lists.{AreJoinable};
ghost use Rattle.tb_span.specs.Seeds.{IsSeed, range};
ghost use Rattle.tb_span.specs.declared.item.Axis.TheVariants.{Child, Descendant};
ghost use Rattle.tb_stackjoin.specs.Pairs.{pairs_by_ancestor};
ghost use Rattle.tb_stackjoin.specs.Turns.{most_steps};

use crate::by_descendant::join_desc;
use crate::opening::{end_reaches, open_seed, open_started};
use crate::order::put_by_ancestor;
use crate::reach::write_reaches;
use crate::stack::{Stack, label_of};
use std::alloc::{AllocError, Global};
use std::sync::ledger::Ledger;
use tb_span::{Axis, Item, Pair, Steps};

/// The pairs that `join_desc` gives, under its conditions and within its bound, by ancestor and then by
/// descendant.
pub fn join_anc<L: Ledger>(
    alloc: Global,
    a: &[Item],
    d: &[Item],
    seed: &[u32],
    from: u32,
    lo: u32,
    hi: u32,
    axis: Axis,
    steps: &mut Steps<L>,
) -> Result<Vec<Pair>, AllocError>
    requires joinable { AreJoinable a.now d.now }
    requires range { (lo ≤ hi) × (hi ≤ length d.now) × (from ≤ length a.now) }
    requires seeded { IsSeed a.now d.now seed.now from (range lo hi) }
    ensures pairs { IfOk result (λ pairs. pairs.items ≡ pairs_by_ancestor axis a.now d.now (range lo hi)) }
    ensures cost { steps.new ≤ steps.old + most_steps a.now d.now seed.now from (range lo hi) }
{
    match axis {
        Axis::Descendant => by_reach(alloc, a, d, seed, from, lo, hi, steps),
        Axis::Child => by_parent(alloc, a, d, seed, from, lo, hi, steps),
    }
}

/// The pairs with all descendants, from the reaches of their ancestors.
fn by_reach<L: Ledger>(
    alloc: Global,
    a: &[Item],
    d: &[Item],
    seed: &[u32],
    from: u32,
    lo: u32,
    hi: u32,
    steps: &mut Steps<L>,
) -> Result<Vec<Pair>, AllocError>
    requires joinable { AreJoinable a.now d.now }
    requires range { (lo ≤ hi) × (hi ≤ length d.now) × (from ≤ length a.now) }
    requires seeded { IsSeed a.now d.now seed.now from (range lo hi) }
    ensures pairs { IfOk result (λ pairs.
        pairs.items ≡ pairs_by_ancestor Descendant a.now d.now (range lo hi)) }
    ensures cost { steps.new ≤ steps.old + most_steps a.now d.now seed.now from (range lo hi) }
{
    let mut pairs = Vec::new(alloc);
    let mut reaches = Vec::new(alloc);
    let mut stack = Stack::new(alloc);
    open_seed(seed, lo, hi, &mut reaches, &mut stack)?;
    let mut next = from;
    'each: for place in lo..hi {
        let label = label_of(d, place);
        next = open_started(
            a,
            next,
            label,
            place,
            hi,
            &mut reaches,
            &mut stack,
            &mut pairs,
            steps,
        )?;
        end_reaches(a, label, place, &mut reaches, &mut stack, steps);
    }
    write_reaches(&mut reaches, &mut pairs)?;
    Ok(pairs)
}

/// The pairs with kids: these are no run of `d`, and one pair for each descendant at most.
fn by_parent<L: Ledger>(
    alloc: Global,
    a: &[Item],
    d: &[Item],
    seed: &[u32],
    from: u32,
    lo: u32,
    hi: u32,
    steps: &mut Steps<L>,
) -> Result<Vec<Pair>, AllocError>
    requires joinable { AreJoinable a.now d.now }
    requires range { (lo ≤ hi) × (hi ≤ length d.now) × (from ≤ length a.now) }
    requires seeded { IsSeed a.now d.now seed.now from (range lo hi) }
    ensures pairs { IfOk result (λ pairs.
        pairs.items ≡ pairs_by_ancestor Child a.now d.now (range lo hi)) }
    ensures cost { steps.new ≤ steps.old + most_steps a.now d.now seed.now from (range lo hi) }
{
    let mut pairs = join_desc(alloc, a, d, seed, from, lo, hi, Axis::Child, steps)?;
    put_by_ancestor(&mut pairs)?;
    Ok(pairs)
}
