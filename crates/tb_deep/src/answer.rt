//! Answers the deepest patterns over the deepest document.

ghost use Rattle.std.specs.Prelude.{◌≡◌, ◌≤◌, IfOk};
ghost use Rattle.tb_pattern.specs.View.{edges_of};
ghost use Rattle.tb_plan.specs.Orders.{edge_count};
ghost use Rattle.tb_engine.specs.Calls.{IsOnePattern};

use crate::document::documents;
use crate::text::push_times;
use std::alloc::{AllocError, Global};
use std::io::{self, ErrorKind};
use std::sync::Wait;
use std::thread::{self, Builder, Threads};
use tb_edge::OpenGate;
use tb_engine::{Answer, EngineFault, answer};
use tb_flwor::read_query;
use tb_parjoin::{OrderRule, Settings};
use tb_pattern::Pattern;
use tb_query::Query;
use tb_table::Documents;
use tb_tlc::{Plan, translate};

/// Bytes of the stack of the thread that answers. A row of a pattern is chosen by a call a node, and a node that
/// is offered with all its matches together begins rows of its own: 1,552 calls inside each other at most.
const STACK: usize = 512 * 1024;

/// Those of `timber single`.
const SETTINGS: Settings = Settings {
    workers: 1,
    grain: 4096,
    order: OrderRule::Written,
    trace: false,
};

/// A pattern: an outer edge at the document node, inner edges inside each other below it, and more of them
/// beside the innermost one.
#[derive(Clone, Copy)]
struct Nest {
    outer: &'static str,
    inner: &'static str,
    inside: usize,
    beside: usize,
}

/// What an answer has.
#[derive(Debug, Drop)]
struct Size {
    trees: u64,
    bytes: usize,
    /// Elements inside each other.
    levels: usize,
}

/// Says what each pattern is answered: whole nodes of all levels by each axis and mark, and the deepest
/// patterns, of 32 levels and of 64 nodes.
pub fn tell_answers<R: Threads + Wait + Sync>(rt: &HostRuntime, threads: &R) -> io::Result<()> {
    for (outer, inner, inside, beside) in [
        ("/-*!", "/-*!", 0, 0),
        ("//-*!", "//-*!", 0, 0),
        ("//?*!", "//?*!", 0, 0),
        ("//+*!", "//+*!", 0, 0),
        ("//**!", "//**!", 0, 0),
        ("//-*", "//-*", 1, 0),
        ("//-a", "//-b!", 1, 0),
        ("//-b", "//-b", 31, 0),
        ("//+b", "//+b", 31, 0),
        ("//-*", "/-*", 31, 0),
        ("//?*", "/?*", 31, 0),
        ("//+*", "/+*", 31, 0),
        ("//**", "/**", 31, 0),
        ("/-*!", "/-*!", 31, 0),
        ("/-*", "/-*", 31, 32),
        ("/?*", "/?*", 31, 32),
        ("/+*", "/+*", 31, 32),
        ("/**", "/**", 31, 32),
        ("/-*", "/-*", 0, 63),
    ] {
        let nest = Nest {
            outer,
            inner,
            inside,
            beside,
        };
        let size = on_small_stack(threads, rt.alloc(), nest)?;
        println!(rt; "{outer}, {inner} {inside} inside, {beside} beside: {size:?}")?;
    }
    Ok(())
}

/// Answers the pattern on a thread with a small stack.
fn on_small_stack<R: Threads + Wait + Sync>(rt: &R, alloc: Global, nest: Nest) -> io::Result<Size> {
    thread::scope(thread::scope_env(), rt, |scope| {
        let teller = Builder::new()
            .stack_size(STACK)
            .spawn_scoped(scope, || size_of_answer(rt, alloc, nest))?;
        teller.join(rt)
    })
}

/// Reads the document and the query, answers it, and lets all go.
fn size_of_answer<R: Threads + Sync>(rt: &R, alloc: Global, nest: Nest) -> io::Result<Size> {
    let docs = documents(alloc)?;
    let text = query_text(alloc, nest)?;
    let pattern = pattern(alloc, &text)?;
    let answer = answered(rt, alloc, pattern, &docs)?;
    Ok(Size {
        trees: answer.count,
        bytes: answer.text.len(),
        levels: levels_in(&answer.text),
    })
}

fn query_text(alloc: Global, nest: Nest) -> Result<Vec<u8>, AllocError> {
    let mut text = Vec::new(alloc);
    text.extend_from_slice(b"MATCH document('d') (")?;
    text.extend_from_slice(nest.outer.as_bytes())?;
    push_edges(&mut text, "(", nest.inner, nest.inside)?;
    push_edges(&mut text, ",", nest.inner, nest.beside)?;
    push_times(&mut text, ")", nest.inside)?;
    text.extend_from_slice(b")")?;
    Ok(text)
}

/// Appends the edge so many times, each behind the sign.
fn push_edges(text: &mut Vec<u8>, sign: &str, edge: &str, times: usize) -> Result<(), AllocError> {
    for _turn in 0..times {
        text.extend_from_slice(sign.as_bytes())?;
        text.extend_from_slice(edge.as_bytes())?;
    }
    Ok(())
}

fn pattern(alloc: Global, text: &[u8]) -> io::Result<Pattern>
    ensures { IfOk result (λ p. edge_count (edges_of p.edges) ≤ 64) }
{
    match read_query(alloc, text) {
        Ok(Query::Match(pattern)) => Ok(pattern),
        _ => Err(ErrorKind::InvalidData.into()),
    }
}

fn answered<R: Threads + Sync>(
    rt: &R,
    alloc: Global,
    pattern: Pattern,
    docs: &Documents,
) -> Result<Answer, AllocError>
    requires { edge_count (edges_of pattern.edges) ≤ 64 }
{
    let plan = planned(alloc, pattern)?;
    match answer(rt, alloc, &plan, docs, &SETTINGS, &OpenGate) {
        Ok(answer) => Ok(answer),
        Err(EngineFault::Past) => Err(AllocError),
        Err(EngineFault::NoMemory) => Err(AllocError),
    }
}

fn planned(alloc: Global, pattern: Pattern) -> Result<Plan, AllocError>
    requires { edge_count (edges_of pattern.edges) ≤ 64 }
    ensures { IfOk result (λ plan. IsOnePattern plan.ops) }
{
    let query = Query::Match(pattern);
    translate(alloc, &query)
}

/// How many elements of the lines are inside each other. No text or value of the document has a bracket.
fn levels_in(lines: &[u8]) -> usize {
    let mut open = 0usize;
    let mut most = 0;
    for byte in lines {
        match *byte {
            b'(' => open = open.saturating_add(1),
            b')' => open = open.saturating_sub(1),
            _ => {}
        }
        most = most.max(open);
    }
    most
}
