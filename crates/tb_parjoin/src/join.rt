//! A structural join with its trace.

ghost use Rattle.std.specs.Prelude.{◌≡◌, ◌<◌, ◌^◌, IfOk, length};
ghost use Rattle.tb_span.specs.Lists.{AreJoinable};
ghost use Rattle.tb_span.specs.Seeds.{all_of};
ghost use Rattle.tb_stackjoin.specs.Pairs.{pairs_by};
ghost use Rattle.tb_parjoin.specs.Settings.{AreAllowed};
ghost use Rattle.tb_parjoin.specs.Traces.{whole_trace};

use crate::{JoinTrace, Settings};
use std::alloc::{AllocError, Global};
use std::thread::Threads;
use tb_edge::Gate;
use tb_span::{Axis, Item, Pair};
use tb_stackjoin::{By, whole_join};

/// The pairs of a join, and what ran.
#[derive(Debug, Drop)]
pub struct Joined {
    pub pairs: Vec<Pair>,
    pub trace: JoinTrace,
}

/// The pairs of all of `d` with their ancestors in `a`, by descendant and then by ancestor, or by ancestor and
/// then by descendant. The join isn't cut yet: worker 0 works all of it as one piece.
pub fn structural_join<R: Threads + Sync, G: Gate>(
    rt: &R,
    alloc: Global,
    a: &[Item],
    d: &[Item],
    axis: Axis,
    by: By,
    settings: &Settings,
    gate: &G,
) -> Result<Joined, AllocError>
    requires joinable { AreJoinable a.now d.now }
    requires few { length d.now < 2 ^ 32 }
    requires settings { AreAllowed settings.now }
    ensures pairs { IfOk result (λ joined. joined.pairs.items ≡ pairs_by by axis a.now d.now (all_of d.now)) }
    ensures trace { IfOk result (λ joined. joined.trace ≡ whole_trace (length d.now)) }
{
    let _ = rt;
    let _ = settings;
    if !d.is_empty() {
        gate.reach(0, 0);
    }
    let pairs = whole_join(alloc, a, d, axis, by)?;
    let trace = JoinTrace::whole(alloc, d.len() as u32)?;
    Ok(Joined { pairs, trace })
}
