//! The transcript of a script whose commands are done one after the other.

ghost use Rattle.std.specs.Prelude.{◌≡◌, ◌++◌, IfOk, OnOk, IsSome, map, codes};
ghost use Rattle.std.specs.List.{flat_map};
ghost use Rattle.tb_script.specs.Runnable.{IsRunnable, commands_in};
ghost use Rattle.tb_script.specs.Schedule.{command_at};
ghost use Rattle.tb_top.specs.Single.{IsTranscript};
ghost use Rattle.tb_top.specs.Outputs.{ComesToText};
ghost use Rattle.tb_top.specs.Transcript.{history_lines, history_part};
ghost use Rattle.tb_top.specs.Pieces.{joined, text_in};
ghost use Rattle.tb_top.specs.Running.{progress_of, ended};
ghost use Rattle.tb_top.specs.Kept.{change_in};
ghost use Rattle.tb_top.specs.Taken.{Takes};

use crate::history::Change;
use crate::pieces::Pieces;
use crate::printer::{push_history_line, push_number};
use crate::running::{Running, start};
use std::alloc::{AllocError, Global};
use std::mem::{forget, replace};
use std::thread::Threads;
use tb_edge::Gate;
use tb_script::{Command, Turnstep, Workload, schedule};
use tb_table::Secret;
use tb_tree::Bytes;

/// The transcript of a script, in pieces, or none where a query isn't built. Each command is taken out of the
/// script when its turn comes, so a body is let go behind its reading.
pub fn transcript<R: Threads + Sync, G: Gate>(
    rt: &R,
    alloc: Global,
    secret: Secret,
    w: Workload,
    gate: &G,
) -> Result<Option<Vec<Vec<u8>>>, AllocError>
    requires runnable { IsRunnable w }
    ensures { IfOk result (ComesToText w (IsTranscript w)) }
{
    let steps = schedule(alloc, &w)?;
    let mut running = start(alloc, secret, &w)?;
    let mut left = w;
    'steps: for step in &steps {
        let command = take_command(alloc, *step, &mut left);
        let done = running.act(rt, *step, command, gate)?;
        if !done {
            return Ok(None);
        }
    }
    let pieces = finish(alloc, running)?;
    Ok(Some(pieces))
}

/// Takes the command of a step out of the script.
fn take_command(alloc: Global, step: Turnstep, w: &mut Workload) -> Command
    requires { IsSome (command_at (commands_in w.old) step) }
    ensures { Takes w.old step result w.new }
{
    let script = &mut w.sessions[step.session as usize];
    let nothing = Command::Query {
        text: Bytes::from_vec(Vec::new(alloc)),
    };
    replace(&mut script.commands[step.command as usize], nothing)
}

/// The parts of the sessions and the history.
fn finish(alloc: Global, running: Running) -> Result<Vec<Vec<u8>>, AllocError>
    ensures { IfOk result (λ pieces. joined pieces.items ≡ ended (progress_of running)) }
{
    let Running { history, parts, .. } = running;
    let mut pieces = Pieces::new(alloc);
    add_parts(parts, &mut pieces)?;
    pieces.add(history_text(alloc, history.changes())?)?;
    // The process ends soon: to free each list of each document would only take time.
    forget(history);
    let pieces = pieces.all()?;
    Ok(pieces)
}

/// Adds the parts of the sessions, each with its end.
fn add_parts(parts: Vec<Vec<u8>>, pieces: &mut Pieces) -> Result<(), AllocError>
    ensures { OnOk result (text_in pieces.new ≡ text_in pieces.old
        ++ flat_map (λ part. part.items ++ codes "end\n") parts.items) }
{
    'parts: for part in parts {
        pieces.add(part_ended(part)?)?;
    }
    Ok(())
}

fn part_ended(mut part: Vec<u8>) -> Result<Vec<u8>, AllocError>
    ensures { IfOk result (λ whole. whole.items ≡ part.items ++ codes "end\n") }
{
    part.extend_from_slice(b"end\n")?;
    Ok(part)
}

fn history_text(alloc: Global, changes: &[Change]) -> Result<Vec<u8>, AllocError>
    ensures { IfOk result (λ text. text.items ≡ history_part (map change_in changes.now)) }
{
    let mut text = Vec::new(alloc);
    text.extend_from_slice(b"history ")?;
    push_number(changes.len() as u64, &mut text)?;
    text.push(b'\n')?;
    push_history_lines(changes, &mut text)?;
    text.extend_from_slice(b"ok\n")?;
    Ok(text)
}

fn push_history_lines(changes: &[Change], text: &mut Vec<u8>) -> Result<(), AllocError>
    ensures { OnOk result
        (text.new.items ≡ text.old.items ++ history_lines 1 (map change_in changes.now)) }
{
    'changes: for (place, change) in changes.iter().enumerate() {
        push_history_line(place as u64 + 1, change, text)?;
    }
    Ok(())
}
