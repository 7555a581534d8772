//! What a script comes to, before anything is written.

ghost use Rattle.std.specs.Prelude.{◌≡◌, ◌≤◌, IfOk, length};
ghost use Rattle.tb_script.specs.Runnable.{IsRunnable};
ghost use Rattle.tb_top.specs.Calls.{IsOutput};
ghost use Rattle.tb_top.specs.Outcomes.{ComesTo, IsFaulty};
ghost use Rattle.tb_top.specs.Outputs.{ComesToText};
ghost use Rattle.tb_top.specs.Pieces.{joined};

use crate::check::check;
use crate::fault_text::push_script_fault;
use crate::single::transcript;
use crate::task::Task;
use std::alloc::{AllocError, Global};
use std::thread::Threads;
use tb_edge::Gate;
use tb_script::{ScriptFault, Workload, read_workload};
use tb_table::Secret;

/// A result, or why there is none.
#[derive(Drop)]
pub enum Outcome {
    /// The text that is to be written, in pieces.
    Text(Vec<Vec<u8>>),
    /// The script has a fault; with the line that says so.
    Faulty(ScriptFault, Vec<u8>),
    /// A query isn't built.
    NotBuilt,
}

/// What a script comes to.
pub fn outcome_of<R: Threads + Sync, G: Gate>(
    rt: &R,
    alloc: Global,
    secret: Secret,
    task: Task,
    bytes: Vec<u8>,
    gate: &G,
) -> Result<Outcome, AllocError>
    requires { length bytes.items ≤ 67108864 }
    ensures { IfOk result (ComesTo task bytes.items) }
{
    let w = match read_workload(alloc, &bytes) {
        Ok(w) => w,
        Err(fault) => return faulty(alloc, fault),
    };
    // The commands have copies of what they need.
    drop(bytes);
    let text = output(rt, alloc, secret, task, w, gate)?;
    match text {
        Some(pieces) => Ok(Outcome::Text(pieces)),
        None => Ok(Outcome::NotBuilt),
    }
}

/// What a command prints of a script, none where a query isn't built.
fn output<R: Threads + Sync, G: Gate>(
    rt: &R,
    alloc: Global,
    secret: Secret,
    task: Task,
    w: Workload,
    gate: &G,
) -> Result<Option<Vec<Vec<u8>>>, AllocError>
    requires runnable { IsRunnable w }
    ensures { IfOk result (ComesToText w (IsOutput task w)) }
{
    match task {
        Task::Single => transcript(rt, alloc, secret, w, gate),
        Task::Check => match check(alloc, w)? {
            Some(text) => Ok(Some(alone(alloc, text)?)),
            None => Ok(None),
        },
    }
}

/// A text in one piece.
fn alone(alloc: Global, text: Vec<u8>) -> Result<Vec<Vec<u8>>, AllocError>
    ensures { IfOk result (λ pieces. joined pieces.items ≡ text.items) }
{
    let mut pieces = Vec::new(alloc);
    pieces.push(text)?;
    Ok(pieces)
}

/// A fault of the script with its line. Want of memory goes on.
fn faulty(alloc: Global, fault: ScriptFault) -> Result<Outcome, AllocError>
    ensures { IfOk result (IsFaulty fault) }
{
    if let ScriptFault::NoMemory = fault {
        return Err(AllocError);
    }
    let mut line = Vec::new(alloc);
    push_script_fault(&fault, &mut line)?;
    Ok(Outcome::Faulty(fault, line))
}
