//! Answering a pattern over a document.

ghost use Rattle.std.specs.Prelude.{◌≡◌, ◌≤◌, ◌<◌, [], IfOk, length};
ghost use Rattle.tb_pattern.specs.View.{edges_of};
ghost use Rattle.tb_plan.specs.Orders.{edge_count};
ghost use Rattle.tb_engine.specs.Calls.{IsOnePattern};

use crate::patterns::pattern_of;
use std::alloc::{AllocError, Global};
use std::io;
use std::process::ExitCode;
use std::sync::Arc;
use std::thread::Threads;
use std::time::Instant;
use tb_edge::{HostSink, OpenGate, write_all};
use tb_engine::{Answer, EngineFault, answer};
use tb_label::Store;
use tb_parjoin::{OrderRule, Settings};
use tb_pattern::Pattern;
use tb_query::Query;
use tb_table::Documents;
use tb_tlc::{Plan, translate};

/// Those of `timber single`.
const SETTINGS: Settings = Settings {
    workers: 1,
    grain: 4096,
    order: OrderRule::Written,
    trace: false,
};

/// Times the answer of the `MATCH` query that the word behind `answer` is, over this document; prints its text,
/// and says how many trees it has and how many bytes.
pub fn time_answer<R: Threads + Sync>(
    rt: &HostRuntime,
    threads: &R,
    store: Store,
) -> io::Result<ExitCode> {
    let Some(pattern) = pattern_of(rt)? else {
        eprintln!(rt; "no pattern")?;
        return Ok(ExitCode::FAILURE);
    };
    let docs = only(rt.alloc(), &pattern, store)?;
    eprintln!(rt; "ready 0")?;
    let start = Instant::now(rt)?;
    let answer = answered(threads, rt.alloc(), pattern, &docs)?;
    let took = start.elapsed(rt)?;
    eprintln!(rt; "answer {}", took.as_nanos())?;
    eprintln!(rt; "trees {}", answer.count)?;
    eprintln!(rt; "bytes {}", answer.text.len())?;
    match write_all(&mut HostSink::new(rt.stdout()), answer.text.as_slice()) {
        Ok(()) => Ok(ExitCode::SUCCESS),
        Err(_) => Ok(ExitCode::FAILURE),
    }
}

/// The document by the name that the pattern asks for.
fn only(alloc: Global, pattern: &Pattern, store: Store) -> Result<Documents, AllocError> {
    let mut docs = Documents::empty(alloc);
    docs.add(pattern.document.copy(alloc)?, Arc::new(alloc, store)?)?;
    Ok(docs)
}

fn answered<R: Threads + Sync>(
    threads: &R,
    alloc: Global,
    pattern: Pattern,
    docs: &Documents,
) -> Result<Answer, AllocError>
    requires { edge_count (edges_of pattern.edges) ≤ 64 }
{
    let plan = planned(alloc, pattern)?;
    match answer(threads, alloc, &plan, docs, &SETTINGS, &OpenGate) {
        Ok(answer) => Ok(answer),
        Err(EngineFault::Past) => Err(AllocError),
        Err(EngineFault::NoMemory) => Err(AllocError),
    }
}

fn planned(alloc: Global, pattern: Pattern) -> Result<Plan, AllocError>
    requires { edge_count (edges_of pattern.edges) ≤ 64 }
    ensures { IfOk result (λ plan. IsOnePattern plan.ops) }
{
    let query = Query::Match(pattern);
    translate(alloc, &query)
}
