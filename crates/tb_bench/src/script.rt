//! Reading a script and putting its commands in order.

use std::io;
use std::process::ExitCode;
use std::time::Instant;
use tb_script::{Turnstep, read_workload, schedule};

/// Times both calls, and says how many commands there are in which order.
pub fn time_script(rt: &HostRuntime, bytes: &[u8]) -> io::Result<ExitCode> {
    let start = Instant::now(rt)?;
    let read = read_workload(rt.alloc(), bytes);
    let took = start.elapsed(rt)?;
    let workload = match read {
        Ok(workload) => workload,
        Err(fault) => {
            eprintln!(rt; "no workload: {fault:?}")?;
            return Ok(ExitCode::FAILURE);
        }
    };
    eprintln!(rt; "read {}", took.as_nanos())?;
    let start = Instant::now(rt)?;
    let steps = schedule(rt.alloc(), &workload)?;
    let took = start.elapsed(rt)?;
    println!(rt; "steps {}", steps.len())?;
    println!(rt; "steps-sum {}", steps_sum(&steps))?;
    eprintln!(rt; "schedule {}", took.as_nanos())?;
    Ok(ExitCode::SUCCESS)
}

/// A number that differs where the steps do, most likely.
fn steps_sum(steps: &[Turnstep]) -> u64 {
    let mut sum = 1u64;
    'steps: for step in steps {
        sum = sum.wrapping_mul(31).wrapping_add(u64::from(step.session));
        sum = sum.wrapping_mul(31).wrapping_add(u64::from(step.command));
    }
    sum
}
