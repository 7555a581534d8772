//! Joins of two lists of elements of a document.

use crate::named;
use std::time::Instant;
use std::{env, io};
use tb_label::Store;
use tb_span::{Axis, Pair};
use tb_stackjoin::{By, whole_join};
use tb_tree::Test;

/// Times a join of two lists, and says under this name how many pairs it found, and which.
pub fn time_lists(
    rt: &HostRuntime,
    store: &Store,
    name: &str,
    above: &Test,
    below: &Test,
    axis: Axis,
    by: By,
) -> io::Result<()> {
    let start = Instant::now(rt)?;
    let pairs = whole_join(rt.alloc(), store.list(above), store.list(below), axis, by)?;
    let took = start.elapsed(rt)?;
    println!(rt; "{name} {}", pairs.len())?;
    println!(rt; "{name}-sum {}", pairs_sum(&pairs))?;
    eprintln!(rt; "{name} {}", took.as_nanos())
}

/// Times the join that the words behind `join` ask for: the names of its two lists, an axis (`child`, or any
/// other word for descendants) and an order (`anc`, or any other word for pairs by descendant).
pub fn time_one_join(rt: &HostRuntime, store: &Store) -> io::Result<()> {
    let above = named_by(rt, 2)?;
    let below = named_by(rt, 3)?;
    let axis = axis_of(is_word(rt, 4, "child")?);
    let by = order_of(is_word(rt, 5, "anc")?);
    eprintln!(rt; "ready 0")?;
    time_lists(rt, store, "join", &above, &below, axis, by)
}

/// Whether the word at a place is this one; the first word is at 1.
pub fn is_word(rt: &HostRuntime, place: usize, word: &str) -> io::Result<bool> {
    let given = env::args(rt)?.nth(place);
    Ok(given.is_some_and(|given| given.as_str() == word))
}

/// The elements that the word at a place names.
fn named_by(rt: &HostRuntime, place: usize) -> io::Result<Test> {
    match env::args(rt)?.nth(place) {
        Some(name) => Ok(named(rt.alloc(), name.as_bytes())?),
        None => Ok(Test::AnyElement),
    }
}

fn axis_of(child: bool) -> Axis {
    if child { Axis::Child } else { Axis::Descendant }
}

fn order_of(anc: bool) -> By {
    if anc { By::Anc } else { By::Desc }
}

/// A number that differs where the pairs do, most likely.
fn pairs_sum(pairs: &[Pair]) -> u64 {
    let mut sum = 1u64;
    'pairs: for pair in pairs {
        sum = sum.wrapping_mul(31).wrapping_add(u64::from(pair.a));
        sum = sum.wrapping_mul(31).wrapping_add(u64::from(pair.d));
    }
    sum
}
