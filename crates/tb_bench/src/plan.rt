//! Times the plan of one query.

use std::io;
use std::process::ExitCode;
use std::time::Instant;
use tb_flwor::read_query;
use tb_tlc::translate;

/// Reads the text of a query and makes its plan, and says how many operators it has.
pub fn time_plan(rt: &HostRuntime, text: &[u8]) -> io::Result<ExitCode> {
    let start = Instant::now(rt)?;
    let read = read_query(rt.alloc(), text);
    let took = start.elapsed(rt)?;
    let query = match read {
        Ok(query) => query,
        Err(fault) => {
            eprintln!(rt; "no query: {fault:?}")?;
            return Ok(ExitCode::FAILURE);
        }
    };
    eprintln!(rt; "read {}", took.as_nanos())?;
    let start = Instant::now(rt)?;
    let plan = translate(rt.alloc(), &query)?;
    let took = start.elapsed(rt)?;
    eprintln!(rt; "plan {}", took.as_nanos())?;
    println!(rt; "operators {}", plan.ops.as_slice().len())?;
    Ok(ExitCode::SUCCESS)
}
