//! What no clause says: that joins are run with ample memory, and small joins whose pairs were worked by hand.

use crate::{By, OrderRule, Ran, Settings, structural_join};
use std::alloc::{AllocError, Global};
use std::test::Fail;
use std::thread::Threads;
use tb_edge::OpenGate;
use tb_esis::read_tree;
use tb_label::Store;
use tb_span::{Axis, Pair};
use tb_tree::{Bytes, Test};

const SETTINGS: Settings = Settings {
    workers: 4,
    grain: 1,
    order: OrderRule::Written,
    trace: false,
};

// Two elements `a` inside each other, the inner one with an element `b`, and behind it another `b`.
const NESTED: &[u8] = b"(a\n(a\n(b\n)b\n)a\n(b\n)b\n)a\n";

// The pairs of places of a join, how many descendants it had, and the pieces that were worked.
#[derive(Debug, Drop)]
struct Told {
    pairs: Vec<(u32, u32)>,
    size: u32,
    ran: Vec<Ran>,
}

fn store(alloc: Global, lines: &[u8]) -> Result<Store, Fail> {
    if lines.len() > 1000 {
        return Err("too many lines".into());
    }
    match read_tree(alloc, lines) {
        Ok(tree) => Ok(Store::build(alloc, tree)?),
        Err(_) => Err("no document".into()),
    }
}

fn named(alloc: Global, name: &[u8]) -> Result<Test, AllocError> {
    Ok(Test::Name(Bytes::from_vec(name.to_vec(alloc)?)))
}

fn numbers_of(alloc: Global, pairs: &[Pair]) -> Result<Vec<(u32, u32)>, AllocError> {
    let mut numbers = Vec::new(alloc);
    for pair in pairs {
        numbers.push((pair.a, pair.d))?;
    }
    Ok(numbers)
}

// Joins the elements of two names.
fn joined<R: Threads + Sync>(
    rt: &R,
    alloc: Global,
    above: &[u8],
    below: &[u8],
    axis: Axis,
    by: By,
) -> Result<Told, Fail> {
    let store = store(alloc, NESTED)?;
    let above = named(alloc, above)?;
    let below = named(alloc, below)?;
    let a = store.list(&above);
    let d = store.list(&below);
    let joined = structural_join(rt, alloc, a, d, axis, by, &SETTINGS, &OpenGate)?;
    Ok(Told {
        pairs: numbers_of(alloc, &joined.pairs)?,
        size: joined.trace.size(),
        ran: joined.trace.ran().to_vec(alloc)?,
    })
}

const WHOLE: &[Ran] = &[Ran {
    lo: 0,
    hi: 2,
    worker: 0,
}];

#[test]
fn nested_elements_join_by_descendant_and_by_ancestor(rt: HostRuntime) -> Result<(), Fail> {
    let rows: [(Axis, By, &[(u32, u32)]); 4] = [
        (Axis::Descendant, By::Desc, &[(0, 0), (1, 0), (0, 1)]),
        (Axis::Descendant, By::Anc, &[(0, 0), (0, 1), (1, 0)]),
        (Axis::Child, By::Desc, &[(1, 0), (0, 1)]),
        (Axis::Child, By::Anc, &[(0, 1), (1, 0)]),
    ];
    for (axis, by, pairs) in rows {
        let told = joined(&rt, rt.alloc(), b"a", b"b", axis, by)?;
        assert_eq!(rt; told.pairs.as_slice(), pairs);
        assert_eq!(rt; told.size, 2);
        assert_eq!(rt; told.ran.as_slice(), WHOLE);
    }
    Ok(())
}

#[test]
fn a_join_without_descendants_has_no_piece(rt: HostRuntime) -> Result<(), Fail> {
    for by in [By::Desc, By::Anc] {
        let told = joined(&rt, rt.alloc(), b"a", b"x", Axis::Descendant, by)?;
        assert_eq!(rt; told.pairs.len(), 0);
        assert_eq!(rt; told.size, 0);
        assert_eq!(rt; told.ran.len(), 0);
    }
    Ok(())
}

#[test]
fn a_join_without_ancestors_has_its_piece(rt: HostRuntime) -> Result<(), Fail> {
    for by in [By::Desc, By::Anc] {
        let told = joined(&rt, rt.alloc(), b"x", b"b", Axis::Descendant, by)?;
        assert_eq!(rt; told.pairs.len(), 0);
        assert_eq!(rt; told.size, 2);
        assert_eq!(rt; told.ran.as_slice(), WHOLE);
    }
    Ok(())
}
