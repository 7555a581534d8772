//! Reads the deepest and the longest queries.

use crate::text::push_times;
use std::alloc::{AllocError, Global};
use std::io;
use std::sync::Wait;
use std::thread::{self, Builder, Threads};
use tb_flwor::{QueryFault, read_query};
use tb_query::Query;

/// A query that opens one thing many times, and closes it, or not.
#[derive(Clone, Copy)]
struct Shape {
    prefix: &'static str,
    opening: &'static str,
    closing: &'static str,
}

const PATTERN: Shape = Shape {
    prefix: "MATCH document('d') ",
    opening: "(/-a",
    closing: ")",
};

const CONSTRUCTOR: Shape = Shape {
    prefix: "FOR $x IN document('d')//a RETURN ",
    opening: "<a>",
    closing: "</a>",
};

const PATH: Shape = Shape {
    prefix: "FOR $x IN document('d')//a RETURN $x",
    opening: "/a",
    closing: "",
};

/// What reading a query gave.
#[derive(Debug, Drop)]
enum Told {
    Refused(QueryFault),
    /// So many edges stand at the document node.
    Match(usize),
    /// So many clauses come first.
    Clauses(usize),
}

/// Says what each query gives: as many as 65,536 bytes have room for, and each limit from both sides.
pub fn tell_reading<R: Threads + Wait + Sync>(rt: &HostRuntime, threads: &R) -> io::Result<()> {
    for (shape, opened, closed) in [
        (PATTERN, 16_379, 0),
        (PATTERN, 13_103, 13_103),
        (PATTERN, 33, 33),
        (PATTERN, 32, 32),
        (CONSTRUCTOR, 21_834, 0),
        (CONSTRUCTOR, 9_357, 9_357),
        (CONSTRUCTOR, 33, 33),
        (CONSTRUCTOR, 32, 32),
        (PATH, 32_750, 0),
        (PATH, 64, 0),
        (PATH, 63, 0),
    ] {
        let text = nested(rt.alloc(), shape, opened, closed)?;
        let told = on_smallest_stack(threads, rt.alloc(), &text)?;
        println!(rt;
            "{} {opened} times, {closed} closed, {} bytes: {told:?}",
            shape.opening,
            text.len()
        )?;
    }
    Ok(())
}

/// A query of the shape, with so many opened, and so many closed.
fn nested(
    alloc: Global,
    shape: Shape,
    opened: usize,
    closed: usize,
) -> Result<Vec<u8>, AllocError> {
    let mut text = Vec::new(alloc);
    text.extend_from_slice(shape.prefix.as_bytes())?;
    push_times(&mut text, shape.opening, opened)?;
    push_times(&mut text, shape.closing, closed)?;
    Ok(text)
}

/// Reads the query on a thread with the smallest stack, of 128 KiB.
fn on_smallest_stack<R: Threads + Wait + Sync>(
    rt: &R,
    alloc: Global,
    text: &[u8],
) -> io::Result<Told> {
    thread::scope(thread::scope_env(), rt, |scope| {
        let reader = Builder::new()
            .stack_size(1)
            .spawn_scoped(scope, || read(alloc, text))?;
        Ok(reader.join(rt))
    })
}

fn read(alloc: Global, text: &[u8]) -> Told {
    match read_query(alloc, text) {
        Ok(Query::Match(pattern)) => Told::Match(pattern.edges.as_slice().len()),
        Ok(Query::Flwor(flwor)) => Told::Clauses(flwor.clauses.as_slice().len()),
        Err(fault) => Told::Refused(fault),
    }
}
