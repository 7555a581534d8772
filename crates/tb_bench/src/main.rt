//! `tb_bench`: times the engine's calls one by one, for `bench/`.
//!
//! It reads a document on standard input, labels it, and joins its elements `part` with its elements `item`.
//! With the word `join` it times one join of the elements that two further words name, with the word `match` the
//! pattern and the order of edges of two further words, and with the word `answer` the answer of the pattern of one
//! further word. With the word `script` it reads a script instead, and puts its commands in order; with the word
//! `plan` it reads one query, and makes its plan. What it found goes to standard output, and how long each call
//! took, in nanoseconds, to standard error.
#![tactic(auto)]

ghost use Rattle.std.specs.Prelude.{◌≡◌, ◌^◌, ◌<◌, ◌≤◌, IfOk, IfSome};
ghost use Rattle.tb_tree.specs.Plain.{one};
ghost use Rattle.tb_tree.specs.View.{plain_of};
ghost use Rattle.tb_tree.specs.Numbers.{count};
ghost use Rattle.tb_tree.specs.Levels.{levels};

use std::alloc::{AllocError, Global};
use std::io;
use std::process::ExitCode;
use std::time::Instant;
use tb_edge::{HostSource, read_up_to};
use tb_esis::read_tree;
use tb_label::Store;
use tb_span::Axis;
use tb_stackjoin::By;
use tb_tree::{Bytes, Kind, Test, Tree};

mod answer;
mod join;
mod patterns;
mod plan;
mod script;

use answer::time_answer;
use join::{is_word, time_lists, time_one_join};
use patterns::time_match;
use plan::time_plan;
use script::time_script;

/// Bytes of a document or a script at most.
const MOST_INPUT: usize = 67_108_864;

fn main(rt: HostRuntime) -> io::Result<ExitCode> {
    let mut source = HostSource::new(rt.stdin());
    let Ok(lines) = read_up_to(rt.alloc(), &mut source, MOST_INPUT) else {
        eprintln!(rt; "no input")?;
        return Ok(ExitCode::FAILURE);
    };
    if is_word(&rt, 1, "script")? {
        return time_script(&rt, &lines);
    }
    if is_word(&rt, 1, "plan")? {
        return time_plan(&rt, &lines);
    }
    let Some(tree) = time_read(&rt, lines)? else {
        return Ok(ExitCode::FAILURE);
    };
    if is_word(&rt, 1, "join")? {
        let store = time_label(&rt, tree)?;
        time_one_join(&rt, &store)?;
        return Ok(ExitCode::SUCCESS);
    }
    if is_word(&rt, 1, "match")? {
        let store = time_label(&rt, tree)?;
        return time_match(&rt, &rt, &store);
    }
    if is_word(&rt, 1, "answer")? {
        let store = time_label(&rt, tree)?;
        return time_answer(&rt, &rt, store);
    }
    tell_text(&rt, &tree)?;
    let store = time_label(&rt, tree)?;
    tell_counts(&rt, &store)?;
    time_join(&rt, &store, "descendant", Axis::Descendant)?;
    time_join(&rt, &store, "child", Axis::Child)?;
    Ok(ExitCode::SUCCESS)
}

/// Reads the document of the lines, or says why there is none. The lines are freed.
fn time_read(rt: &HostRuntime, lines: Vec<u8>) -> io::Result<Option<Tree>>
    ensures { IfOk result (λ read. IfSome read (λ tree.
        (count (plain_of tree) < 2 ^ 30) × (levels (one (plain_of tree)) ≤ 512))) }
{
    if lines.len() > MOST_INPUT {
        eprintln!(rt; "no document: more than {MOST_INPUT} bytes")?;
        return Ok(None);
    }
    let start = Instant::now(rt)?;
    let read = read_tree(rt.alloc(), &lines);
    let took = start.elapsed(rt)?;
    let tree = match read {
        Ok(tree) => tree,
        Err(fault) => {
            eprintln!(rt; "no document: {fault:?}")?;
            return Ok(None);
        }
    };
    eprintln!(rt; "read {}", took.as_nanos())?;
    Ok(Some(tree))
}

/// Says what the texts are.
fn tell_text(rt: &HostRuntime, tree: &Tree) -> io::Result<()>
    requires few { count (plain_of tree.now) < 2 ^ 30 }
{
    let mut text = Vec::new(rt.alloc());
    'nodes: for number in 1..tree.count() as u32 + 1 {
        if tree.kind(number) == Kind::Text {
            push_value(rt.alloc(), tree, number, &mut text)?;
        }
    }
    println!(rt; "text {}", text.len())?;
    println!(rt; "text-sum {}", sum(&text))
}

/// Appends the value of a node.
fn push_value(alloc: Global, tree: &Tree, number: u32, text: &mut Vec<u8>) -> Result<(), AllocError>
    requires some { 1 ≤ number }
    requires within { number ≤ count (plain_of tree.now) }
{
    if let Some(value) = tree.lent_value(number) {
        return text.extend_from_slice(value);
    }
    text.extend_from_slice(tree.value(alloc, number)?.as_slice())
}

/// Labels the document.
fn time_label(rt: &HostRuntime, tree: Tree) -> io::Result<Store>
    requires few { count (plain_of tree) < 2 ^ 30 }
    requires levels { levels (one (plain_of tree)) ≤ 512 }
{
    let start = Instant::now(rt)?;
    let store = Store::build(rt.alloc(), tree)?;
    let took = start.elapsed(rt)?;
    eprintln!(rt; "label {}", took.as_nanos())?;
    Ok(store)
}

/// Says how many nodes there are of each kind, and of the two names.
fn tell_counts(rt: &HostRuntime, store: &Store) -> io::Result<()> {
    tell_count(rt, store, "elements", &Test::AnyElement)?;
    tell_count(rt, store, "attributes", &Test::AnyAttr)?;
    tell_count(rt, store, "texts", &Test::AnyText)?;
    tell_count(rt, store, "part", &named(rt.alloc(), b"part")?)?;
    tell_count(rt, store, "item", &named(rt.alloc(), b"item")?)
}

fn tell_count(rt: &HostRuntime, store: &Store, name: &str, test: &Test) -> io::Result<()> {
    println!(rt; "{name} {}", store.list(test).len())
}

fn named(alloc: Global, name: &[u8]) -> Result<Test, AllocError> {
    Ok(Test::Name(Bytes::from_vec(name.to_vec(alloc)?)))
}

/// Joins `part` with `item`.
fn time_join(rt: &HostRuntime, store: &Store, name: &str, axis: Axis) -> io::Result<()> {
    let part = named(rt.alloc(), b"part")?;
    let item = named(rt.alloc(), b"item")?;
    time_lists(rt, store, name, &part, &item, axis, By::Desc)
}

/// A number that differs where the bytes do, most likely.
fn sum(bytes: &[u8]) -> u64 {
    let mut sum = 1u64;
    'bytes: for byte in bytes {
        sum = sum.wrapping_mul(31).wrapping_add(u64::from(*byte));
    }
    sum
}
