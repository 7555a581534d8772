//! Items with numbers that show, and whether their lists can be joined: a test has to know it before it joins.

ghost use Rattle.std.specs.Prelude.{◌≡◌, ℕ, ◌<◌, ◌≤◌, ◌^◌, All, AllPairs, IsTrue, IfOk, length, map};
ghost use Rattle.tb_span.specs.Span.{IsAbove, Nests};
ghost use Rattle.tb_span.specs.Lists.{AreJoinable};
ghost use Rattle.tb_span.specs.Seeds.{label_at, is_open_at, open_places};

use std::alloc::{AllocError, Global};
use std::test::Fail;
use tb_span::{Item, Label, NodeId};

/// An item beside the numbers of its label, which the item itself doesn't show.
#[derive(Clone, Copy)]
pub struct Known {
    pub item: Item,
    pub start: u32,
    pub end: u32,
    pub level: u16,
    ghost start_is: { item.label.start ≡ start },
    ghost end_is: { item.label.end ≡ end },
    ghost level_is: { item.label.level ≡ level },
}

fn known_item(start: u32, end: u32, level: u16) -> Option<Known> {
    let label = Label::new(start, end, level)?;
    let node = NodeId::new(start);
    Some(Known {
        item: Item { label, node },
        start,
        end,
        level,
    })
}

pub fn known_list(alloc: Global, numbers: &[(u32, u32, u16)]) -> Result<Vec<Known>, Fail> {
    let mut list = Vec::new(alloc);
    for (start, end, level) in numbers {
        list.push(known_item(*start, *end, *level).ok_or("a label ends before it starts")?)?;
    }
    Ok(list)
}

fn is_above(u: &Known, v: &Known) -> bool
    ensures { IsTrue result → IsAbove u.now.item.label v.now.item.label }
{
    u.start < v.start && v.end < u.end && u.level < v.level
}

fn is_same(u: &Known, v: &Known) -> bool
    ensures { IsTrue result → u.now.item.label ≡ v.now.item.label }
{
    u.start == v.start && u.end == v.end && u.level == v.level
}

fn nest(u: &Known, v: &Known) -> bool
    ensures { IsTrue result → Nests u.now.item.label v.now.item.label }
{
    if u.end < v.start {
        return true;
    }
    if v.end < u.start {
        return true;
    }
    if is_above(u, v) {
        return true;
    }
    if is_above(v, u) {
        return true;
    }
    is_same(u, v)
}

fn nests_with_all(u: &Known, vs: &[Known]) -> bool
    ensures { IsTrue result → All (λ v. Nests u.now.item.label v.item.label) vs.now }
{
    'all: for v in vs {
        if !nest(u, v) {
            return false;
        }
    }
    true
}

fn all_nest(us: &[Known], vs: &[Known]) -> bool
    ensures { IsTrue result → All (λ u. All (λ v. Nests u.item.label v.item.label) vs.now) us.now }
{
    'all: for u in us {
        if !nests_with_all(u, vs) {
            return false;
        }
    }
    true
}

fn starts_before_all(u: &Known, vs: &[Known]) -> bool
    ensures { IsTrue result → All (λ v. u.now.item.label.start < v.item.label.start) vs.now }
{
    'all: for v in vs {
        if u.start >= v.start {
            return false;
        }
    }
    true
}

fn rises(us: &[Known]) -> bool
    ensures { IsTrue result → AllPairs (λ u v. u.item.label.start < v.item.label.start) us.now }
{
    'all: for place in 0..us.len() {
        if !starts_before_all(&us[place], &us[place + 1..]) {
            return false;
        }
    }
    true
}

pub fn are_joinable(a: &[Known], d: &[Known]) -> bool
    ensures { IsTrue result → AreJoinable (map (λ u. u.item) a.now) (map (λ u. u.item) d.now) }
{
    if !rises(a) {
        return false;
    }
    if !rises(d) {
        return false;
    }
    if !all_nest(a, a) {
        return false;
    }
    if !all_nest(d, d) {
        return false;
    }
    all_nest(a, d)
}

pub fn items_of(alloc: Global, list: &[Known]) -> Result<Vec<Item>, AllocError>
    ensures { IfOk result (λ items. items.items ≡ map (λ u. u.item) list.now) }
{
    let mut items = Vec::new(alloc);
    'all: for u in list {
        items.push(u.item)?;
    }
    Ok(items)
}

fn is_open(u: &Known, point: u32) -> bool
    ensures { result ≡ is_open_at point u.now.item.label }
{
    u.start < point && point < u.end
}

// The places below `from` that are open at the point.
pub fn open_at(alloc: Global, list: &[Known], from: u32, point: u32) -> Result<Vec<u32>, AllocError>
    requires { from ≤ length list.now }
    ensures { IfOk result (λ seed. seed.items ≡ open_places (map (λ u. u.item) list.now) from point) }
{
    let mut seed = Vec::new(alloc);
    'all: for place in 0..from {
        if !is_open(&list[place as usize], point) {
            continue;
        }
        seed.push(place)?;
    }
    Ok(seed)
}

// How many items start before the point, from the front on.
pub fn started_before(list: &[Known], point: u32) -> u32
    requires { length list.now < 2 ^ 32 }
    ensures within { result ≤ length list.now }
    ensures started { (i : ℕ) → i < result → (label_at (map (λ u. u.item) list.now) i).start < point }
{
    let mut from = 0;
    'all: while (from as usize) < list.len() {
        if list[from as usize].start >= point {
            return from;
        }
        from += 1;
    }
    from
}
