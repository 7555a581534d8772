//! What no clause says: that joins succeed with ample memory, and small joins whose pairs were worked by hand.

ghost use Rattle.std.specs.Prelude.{◌≡◌, ◌+◌, [], ◌<◌, ◌≤◌, ◌^◌, IfOk, length, map};
ghost use Rattle.std.specs.List.Sorted.{IsNonDecreasingBy};
ghost use Rattle.tb_span.specs.Lists.{AreJoinable};
ghost use Rattle.tb_span.specs.Seeds.{IsSeed, range};

mod checked;

use super::*;
use checked::{Known, are_joinable, items_of, known_list, open_at, started_before};
use std::alloc::{AllocError, Global};
use std::marker::Brand;
use std::sync::ledger::{Blank, Ledger};
use std::test::Fail;
use tb_span::{Axis, Item, Pair, Steps};

/// The seed of a range, and how many items start before it.
#[derive(Drop)]
struct Seed {
    from: u32,
    places: Vec<u32>,
}

// The seed of the range from place `lo` to the end of `d`.
fn seed_of(alloc: Global, a: &[Known], d: &[Known], lo: u32) -> Result<Seed, AllocError>
    requires few { (length a.now < 2 ^ 32) × (length d.now < 2 ^ 32) }
    requires within { lo ≤ length d.now }
    ensures from { IfOk result (λ seed. seed.from ≤ length a.now) }
    ensures seed { IfOk result (λ seed. IsSeed (map (λ u. u.item) a.now) (map (λ u. u.item) d.now)
        seed.places.items seed.from (range lo (length d.now))) }
{
    if lo as usize == d.len() {
        return Ok(Seed {
            from: 0,
            places: Vec::new(alloc),
        });
    }
    let point = d[lo as usize].start;
    let from = started_before(a, point);
    let places = open_at(alloc, a, from, point)?;
    Ok(Seed { from, places })
}

/// The seed of a range, and the pairs of the range in both orders.
#[derive(Drop)]
struct Outcome {
    seed: Vec<u32>,
    by_descendant: Vec<Pair>,
    by_ancestor: Vec<Pair>,
}

// Joins a range to the end of `d`, and compares its pairs with those of the twin and with the last ones of the
// whole join.
fn by_descendant<L: Ledger>(
    alloc: Global,
    a: &[Item],
    d: &[Item],
    seed: &Seed,
    lo: u32,
    axis: Axis,
    steps: &mut Steps<L>,
) -> Result<Vec<Pair>, Fail>
    requires joinable { AreJoinable a.now d.now }
    requires few { length d.now < 2 ^ 32 }
    requires range { (lo ≤ length d.now) × (seed.now.from ≤ length a.now) }
    requires seeded { IsSeed a.now d.now seed.now.places.items seed.now.from (range lo (length d.now)) }
{
    let hi = d.len() as u32;
    let pairs = join_desc(alloc, a, d, &seed.places, seed.from, lo, hi, axis, steps)?;
    let plain = naive_join(alloc, a, d, lo, hi, axis, steps)?;
    if pairs != plain {
        Err("the join and its twin differ")?;
    }
    let whole = whole_join(alloc, a, d, axis, By::Desc)?;
    if !whole.ends_with(&pairs) {
        Err("the range and the whole join differ")?;
    }
    Ok(pairs)
}

// The same by ancestor; the pairs of each ancestor, one after the other, are all of them.
fn by_ancestor<L: Ledger>(
    alloc: Global,
    a: &[Item],
    d: &[Item],
    seed: &Seed,
    lo: u32,
    axis: Axis,
    steps: &mut Steps<L>,
) -> Result<Vec<Pair>, Fail>
    requires joinable { AreJoinable a.now d.now }
    requires few { (length a.now < 2 ^ 32) × (length d.now < 2 ^ 32) }
    requires range { (lo ≤ length d.now) × (seed.now.from ≤ length a.now) }
    requires seeded { IsSeed a.now d.now seed.now.places.items seed.now.from (range lo (length d.now)) }
{
    let hi = d.len() as u32;
    let pairs = join_anc(alloc, a, d, &seed.places, seed.from, lo, hi, axis, steps)?;
    let mut plain = naive_join(alloc, a, d, lo, hi, axis, steps)?;
    plain.sort_by_key(|pair| pair.a)?;
    if pairs != plain {
        Err("the join by ancestor and its twin differ")?;
    }
    let mut whole = whole_join(alloc, a, d, axis, By::Anc)?;
    whole.retain(|pair| pair.d >= lo);
    if pairs != whole {
        Err("the range and the whole join by ancestor differ")?;
    }
    if !are_its_parts(alloc, &pairs, a.len() as u32)? {
        Err("the pairs of all ancestors are not all pairs")?;
    }
    Ok(pairs)
}

// Whether the pairs of each ancestor begin where those before it end, and are all pairs together.
fn are_its_parts(alloc: Global, pairs: &[Pair], ancestors: u32) -> Result<bool, AllocError>
    requires rises { IsNonDecreasingBy (λ p. p.a) pairs.now }
{
    let mut all: Vec<Pair> = Vec::new(alloc);
    'ancestors: for ancestor in 0..ancestors {
        if start_of(pairs, ancestor) != all.len() {
            return Ok(false);
        }
        all.extend_from_slice(pairs_of(pairs, ancestor))?;
        if end_of(pairs, ancestor) != all.len() {
            return Ok(false);
        }
    }
    Ok(all.as_slice() == pairs)
}

// Joins the range from place `lo` to the end of `d` in both orders.
fn joined<L: Ledger>(
    alloc: Global,
    blank: Blank,
    a: &[Known],
    d: &[Known],
    lo: u32,
    axis: Axis,
) -> Result<Outcome, Fail>
    requires name { blank.name ≡ L.name }
    requires parts { blank.parts ≡ L.parts }
    requires some { 0 < L.parts }
    requires few { (length a.now < 2 ^ 32) × (length d.now < 2 ^ 32) }
    requires within { lo ≤ length d.now }
{
    if !are_joinable(a, d) {
        Err("the lists can't be joined")?;
    }
    let seed = seed_of(alloc, a, d, lo)?;
    let a = items_of(alloc, a)?;
    let d = items_of(alloc, d)?;
    let mut steps = Steps::<L>::new(blank);
    let by_descendant = by_descendant(alloc, &a, &d, &seed, lo, axis, &mut steps)?;
    let by_ancestor = by_ancestor(alloc, &a, &d, &seed, lo, axis, &mut steps)?;
    let Seed { places, .. } = seed;
    Ok(Outcome {
        seed: places,
        by_descendant,
        by_ancestor,
    })
}

// The same with a ledger of its own, for lists of any length.
fn joined_from(
    alloc: Global,
    a: &[Known],
    d: &[Known],
    lo: usize,
    axis: Axis,
) -> Result<Outcome, Fail> {
    if a.len() > 1_000_000 {
        Err("too many ancestors")?;
    }
    if d.len() > 1_000_000 {
        Err("too many descendants")?;
    }
    if lo > d.len() {
        Err("a range behind the list")?;
    }
    joined::<Brand>(alloc, Blank::new(1), a, d, lo as u32, axis)
}

// Joins from some cuts, and gives how many pairs the whole join has.
fn pairs_in_all(alloc: Global, a: &[Known], d: &[Known], axis: Axis) -> Result<usize, Fail> {
    for lo in [d.len() / 3, d.len() / 2, d.len()] {
        joined_from(alloc, a, d, lo, axis)?;
    }
    Ok(joined_from(alloc, a, d, 0, axis)?.by_ancestor.len())
}

// As many nodes inside each other as an u16 can count, or fewer.
fn chain(alloc: Global, length: u16) -> Result<Vec<(u32, u32, u16)>, AllocError> {
    let mut numbers = Vec::new(alloc);
    for level in 1..=length {
        let start = u32::from(level);
        numbers.push((start, 200_000 - start, level))?;
    }
    Ok(numbers)
}

// So many nodes beside each other, like the first one.
fn beside(alloc: Global, count: u16, first: (u32, u32, u16)) -> Result<Vec<(u32, u32, u16)>, Fail> {
    let mut numbers = Vec::new(alloc);
    for place in 0..count {
        let on = 4 * u32::from(place);
        let start = first.0.checked_add(on).ok_or("a start too large")?;
        let end = first.1.checked_add(on).ok_or("an end too large")?;
        numbers.push((start, end, first.2))?;
    }
    Ok(numbers)
}

fn numbers_of(alloc: Global, pairs: &[Pair]) -> Result<Vec<(u32, u32)>, AllocError> {
    let mut numbers = Vec::new(alloc);
    for pair in pairs {
        numbers.push((pair.a, pair.d))?;
    }
    Ok(numbers)
}

const NESTED: &[(u32, u32, u16)] = &[(2, 7, 1), (3, 6, 2), (4, 5, 3)];

const FLAT: &[(u32, u32, u16)] = &[(2, 3, 2), (4, 5, 2), (6, 7, 2), (8, 9, 2)];

const TREE: &[(u32, u32, u16)] = &[
    (2, 13, 1),
    (3, 8, 2),
    (4, 5, 3),
    (6, 7, 3),
    (9, 12, 2),
    (10, 11, 3),
];

const UPPER: &[(u32, u32, u16)] = &[(2, 13, 1), (3, 8, 2), (9, 12, 2)];

const LOWER: &[(u32, u32, u16)] = &[(4, 5, 3), (6, 7, 3), (10, 11, 3)];

const BEHIND: &[(u32, u32, u16)] = &[(14, 17, 1), (15, 16, 2)];

#[test]
fn small_lists_have_the_pairs_that_were_worked_by_hand(rt: HostRuntime) -> Result<(), Fail> {
    let none: &[u32] = &[];
    let all: &[(u32, u32)] = &[(0, 1), (0, 2), (1, 2)];
    let parents: &[(u32, u32)] = &[(0, 1), (1, 2)];
    let below: &[(u32, u32)] = &[(0, 2), (1, 2)];
    let rows = [
        (NESTED, 0, Axis::Descendant, none, all, all),
        (NESTED, 0, Axis::Child, none, parents, parents),
        (NESTED, 2, Axis::Descendant, &[0, 1], below, below),
        (NESTED, 2, Axis::Child, &[0, 1], &[(1, 2)], &[(1, 2)]),
        (
            TREE,
            2,
            Axis::Descendant,
            &[0, 1],
            &[(0, 2), (1, 2), (0, 3), (1, 3), (0, 4), (0, 5), (4, 5)],
            &[(0, 2), (0, 3), (0, 4), (0, 5), (1, 2), (1, 3), (4, 5)],
        ),
        (
            TREE,
            0,
            Axis::Child,
            none,
            &[(0, 1), (1, 2), (1, 3), (0, 4), (4, 5)],
            &[(0, 1), (0, 4), (1, 2), (1, 3), (4, 5)],
        ),
    ];
    for (list, lo, axis, seed, by_descendant, by_ancestor) in rows {
        let list = known_list(rt.alloc(), list)?;
        let outcome = joined_from(rt.alloc(), &list, &list, lo, axis)?;
        assert_eq!(rt; outcome.seed.as_slice(), seed);
        assert_eq!(rt;
            numbers_of(rt.alloc(), &outcome.by_descendant)?.as_slice(),
            by_descendant
        );
        assert_eq!(rt;
            numbers_of(rt.alloc(), &outcome.by_ancestor)?.as_slice(),
            by_ancestor
        );
    }
    Ok(())
}

#[test]
fn each_shape_of_lists_has_the_pairs_of_its_nested_loops(rt: HostRuntime) -> Result<(), Fail> {
    let long = chain(rt.alloc(), 512)?;
    let many = beside(rt.alloc(), 200, (2, 5, 1))?;
    let inner = beside(rt.alloc(), 200, (3, 4, 2))?;
    let rows = [
        ("flat", FLAT, FLAT, 0, 0),
        (
            "a chain of 512",
            long.as_slice(),
            long.as_slice(),
            130_816,
            511,
        ),
        (
            "one in each of many",
            many.as_slice(),
            inner.as_slice(),
            200,
            200,
        ),
        ("equal lists", TREE, TREE, 8, 5),
        ("one list inside the other", UPPER, LOWER, 6, 3),
        ("the lists the other way round", LOWER, UPPER, 0, 0),
        ("no overlap", TREE, BEHIND, 0, 0),
        ("no descendants", NESTED, &[], 0, 0),
        ("no ancestors", &[], NESTED, 0, 0),
    ];
    for (name, above, below, descendants, kids) in rows {
        let a = known_list(rt.alloc(), above)?;
        let d = known_list(rt.alloc(), below)?;
        assert_eq!(rt;
            pairs_in_all(rt.alloc(), &a, &d, Axis::Descendant)?,
            descendants,
            "{name}"
        );
        assert_eq!(rt;
            pairs_in_all(rt.alloc(), &a, &d, Axis::Child)?,
            kids,
            "{name}, by child"
        );
    }
    Ok(())
}
