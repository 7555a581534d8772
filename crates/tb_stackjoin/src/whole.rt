//! Whole joins, for callers that count no comparisons.

ghost use Rattle.std.specs.Prelude.{◌≡◌, ◌+◌, ◌^◌, ◌<◌, ◌≤◌, [], length, IfOk};
ghost use Rattle.tb_span.specs.Lists.{AreJoinable};
ghost use Rattle.tb_span.specs.Seeds.{all_of};
ghost use Rattle.tb_stackjoin.specs.Pairs.{pairs_by};
ghost use Rattle.tb_stackjoin.specs.Turns.{most_steps};

use crate::by_ancestor::join_anc;
use crate::by_descendant::join_desc;
use std::alloc::{AllocError, Global};
use std::marker::Brand;
use std::sync::ledger::{Blank, Ledger};
use tb_span::{Axis, Item, Pair, Steps};

/// The order of pairs: by descendant and then by ancestor, or by ancestor and then by descendant.
#[derive(Clone, Copy, Debug, PartialEq, Eq)]
pub enum By {
    Desc,
    Anc,
}

/// The pairs of all of `d` with their ancestors in `a`.
pub fn whole_join(
    alloc: Global,
    a: &[Item],
    d: &[Item],
    axis: Axis,
    by: By,
) -> Result<Vec<Pair>, AllocError>
    requires joinable { AreJoinable a.now d.now }
    requires few { length d.now < 2 ^ 32 }
    ensures { IfOk result (λ pairs. pairs.items ≡ pairs_by by axis a.now d.now (all_of d.now)) }
{
    uncounted::<Brand>(alloc, Blank::new(1), a, d, axis, by)
}

/// The same with a counter that nobody asks.
fn uncounted<L: Ledger>(
    alloc: Global,
    blank: Blank,
    a: &[Item],
    d: &[Item],
    axis: Axis,
    by: By,
) -> Result<Vec<Pair>, AllocError>
    requires name { blank.name ≡ L.name }
    requires parts { blank.parts ≡ L.parts }
    requires some { 0 < L.parts }
    requires joinable { AreJoinable a.now d.now }
    requires few { length d.now < 2 ^ 32 }
    ensures { IfOk result (λ pairs. pairs.items ≡ pairs_by by axis a.now d.now (all_of d.now)) }
{
    let mut steps = Steps::<L>::new(blank);
    let pairs = counted(alloc, a, d, axis, by, &mut steps)?;
    Ok(pairs)
}

/// The same with the bound of the joins on what is counted.
fn counted<L: Ledger>(
    alloc: Global,
    a: &[Item],
    d: &[Item],
    axis: Axis,
    by: By,
    steps: &mut Steps<L>,
) -> Result<Vec<Pair>, AllocError>
    requires joinable { AreJoinable a.now d.now }
    requires few { length d.now < 2 ^ 32 }
    ensures pairs { IfOk result (λ pairs. pairs.items ≡ pairs_by by axis a.now d.now (all_of d.now)) }
    ensures cost { steps.new ≤ steps.old + most_steps a.now d.now [] 0 (all_of d.now) }
{
    let end = d.len() as u32;
    match by {
        By::Desc => join_desc(alloc, a, d, &[], 0, 0, end, axis, steps),
        By::Anc => join_anc(alloc, a, d, &[], 0, 0, end, axis, steps),
    }
}
