//! The same pairs by nested loops: the definition's own program, with no bound on its comparisons.

ghost use Rattle.std.specs.Prelude.{◌≡◌, ◌^◌, ◌<◌, ◌≤◌, ◌++◌, All, length, IfOk, OnOk};
ghost use Rattle.tb_span.specs.Span.{Nests};
ghost use Rattle.tb_span.specs.Lists.{IsSortedByStart, AreJoinable, is_related};
ghost use Rattle.tb_span.specs.Seeds.{range};
ghost use Rattle.tb_stackjoin.specs.Pairs.{above, paired, pairs_by_descendant};

use crate::stack::label_of;
use std::alloc::{AllocError, Global};
use std::sync::ledger::Ledger;
use tb_span::{Axis, Item, Label, Pair, Steps};

/// Whether the first node has the second one on the axis. Of two labels that nest, the one that starts first
/// contains the other unless it ends before.
fn has_on_axis<L: Ledger>(u: &Label, v: &Label, axis: Axis, steps: &mut Steps<L>) -> bool
    requires { Nests u.now v.now }
    ensures { result ≡ is_related axis u.now v.now }
{
    v.interval();
    if !u.starts_before(v, steps) {
        return false;
    }
    if u.ends_before(v, steps) {
        return false;
    }
    match axis {
        Axis::Descendant => true,
        Axis::Child => v.is_level_below(u, steps),
    }
}

/// How many items these are: no more than there are starts.
fn count_of(items: &[Item]) -> u32
    requires sorted { IsSortedByStart items.now }
    ensures { result ≡ length items.now }
{
    match items.last() {
        Some(last) => {
            last.label.interval();
            items.len() as u32
        }
        None => 0,
    }
}

/// Adds the pairs of one descendant with all ancestors that have it on the axis.
fn pair_with_all<L: Ledger>(
    a: &[Item],
    label: &Label,
    place: u32,
    axis: Axis,
    pairs: &mut Vec<Pair>,
    steps: &mut Steps<L>,
) -> Result<(), AllocError>
    requires sorted { IsSortedByStart a.now }
    requires nest { All (λ x. Nests x.label label.now) a.now }
    ensures { OnOk result (pairs.new.items
        ≡ pairs.old.items ++ paired (above axis a.now label.now) place) }
{
    'ancestors: for ancestor in 0..count_of(a) {
        if !has_on_axis(label_of(a, ancestor), label, axis, steps) {
            continue;
        }
        pairs.push(Pair {
            a: ancestor,
            d: place,
        })?;
    }
    Ok(())
}

/// The pairs that `join_desc` gives, by comparing each descendant with each ancestor.
pub fn naive_join<L: Ledger>(
    alloc: Global,
    a: &[Item],
    d: &[Item],
    lo: u32,
    hi: u32,
    axis: Axis,
    steps: &mut Steps<L>,
) -> Result<Vec<Pair>, AllocError>
    requires joinable { AreJoinable a.now d.now }
    requires range { (lo ≤ hi) × (hi ≤ length d.now) }
    ensures { IfOk result (λ pairs. pairs.items ≡ pairs_by_descendant axis a.now d.now (range lo hi)) }
{
    let mut pairs = Vec::new(alloc);
    'each: for place in lo..hi {
        pair_with_all(a, label_of(d, place), place, axis, &mut pairs, steps)?;
    }
    Ok(pairs)
}
