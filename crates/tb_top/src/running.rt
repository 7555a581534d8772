//! Doing the commands of a script, one after the other.

ghost use Rattle.std.specs.Prelude.{◌≡◌, ◌+◌, ◌^◌, ◌<◌, ◌≤◌, ℕ, List, Some, None, Ok, IsSome, IfOk, OnOk, length, map};
ghost use Rattle.tb_tree.specs.Plain.{one};
ghost use Rattle.tb_tree.specs.View.{plain_of};
ghost use Rattle.tb_tree.specs.Numbers.{count};
ghost use Rattle.tb_tree.specs.Levels.{levels};
ghost use Rattle.tb_esis.specs.Reading.{IsReadAs};
ghost use Rattle.tb_esis.specs.Faults.{fault_of};
ghost use Rattle.tb_core.specs.World.{IsAllowed, answer, after, told_at};
ghost use Rattle.tb_script.specs.declared.command.Command.TheVariants as command;
ghost use Rattle.tb_script.specs.Runnable.{IsRunnable};
ghost use Rattle.tb_flwor.specs.Calls.{Reads};
ghost use Rattle.tb_flwor.specs.Faults.{IsRefused};
ghost use Rattle.tb_top.specs.Answered.{AsksFew};
ghost use Rattle.tb_top.specs.Single.{world_of};
ghost use Rattle.std.specs.List.{range_with_len};
ghost use Rattle.tb_top.specs.Running.{progress_of, at_start, begun, Stands, IsReadyFor, Does, Ends};

use crate::answering::answered;
use crate::counts::loads_in;
use crate::faults::refusal;
use crate::history::History;
use crate::printer::{
    push_front_line, push_load_line, push_query_block, push_refused_line, push_refused_query_line,
    push_session_line,
};
use std::alloc::{AllocError, Global};
use std::thread::Threads;
use tb_core::{Event, World};
use tb_edge::Gate;
use tb_esis::{EsisFault, read_tree};
use tb_flwor::{QueryFault, read_query};
use tb_label::Store;
use tb_query::Query;
use tb_script::{Command, Turnstep, Workload};
use tb_table::Secret;
use tb_tree::{Bytes, Tree};

/// What the commands that are done leave.
#[derive(Drop)]
pub struct Running {
    alloc: Global,
    secret: Secret,
    pub world: World,
    pub history: History,
    /// Each session's part of the transcript so far.
    pub parts: Vec<Vec<u8>>,
}

impl Running {
    /// Does a command; false where it isn't built.
    pub fn act<R: Threads + Sync, G: Gate>(
        &mut self,
        rt: &R,
        step: Turnstep,
        command: Command,
        gate: &G,
    ) -> Result<bool, AllocError>
        requires stands { Stands (progress_of self.old) step }
        requires ready { IsReadyFor self.old.world command }
        ensures { IfOk result (λ done. Ends done step command (progress_of self.old) (progress_of self.new)) }
    {
        match command {
            Command::Load { name, lines } => self.load(step, &name, lines)?,
            Command::Query { text } => return self.query(rt, step, text.as_slice(), gate),
            Command::Tell { mark, name } => self.tell(step, mark, name.as_slice())?,
            Command::Hear { mark, name } => self.hear(step, mark, name.as_slice())?,
        }
        Ok(true)
    }

    fn load(&mut self, step: Turnstep, name: &Bytes, lines: Bytes) -> Result<(), AllocError>
        requires stands { Stands (progress_of self.old) step }
        requires ready { IsReadyFor self.old.world (command.Load name.now lines) }
        ensures { OnOk result (Does step (command.Load name.now lines)
            (progress_of self.old) (progress_of self.new)) }
    {
        let read = read_tree(self.alloc, lines.as_slice());
        // Labels are made beside the document alone.
        drop(lines);
        match read {
            Ok(tree) => self.accept(step, name, tree),
            Err(EsisFault::NoMemory) => Err(AllocError),
            Err(fault) => self.refuse(step, &fault),
        }
    }

    /// Adds a document to the history.
    fn accept(&mut self, step: Turnstep, name: &Bytes, tree: Tree) -> Result<(), AllocError>
        requires stands { Stands (progress_of self.old) step }
        requires room { length self.old.world.history < self.old.world.room }
        requires nodes { count (plain_of tree) < 2 ^ 30 }
        requires levels { levels (one (plain_of tree)) ≤ 512 }
        ensures { OnOk result ((lines : List ℕ) → IsReadAs lines (plain_of tree)
            → Does step (command.Load name.now lines) (progress_of self.old) (progress_of self.new)) }
    {
        let store = Store::build(self.alloc, tree)?;
        let session = step.session;
        self.history.add(self.alloc, session, name, store)?;
        let change = number(&mut self.world, Event::Change { session });
        let part = &mut self.parts[session as usize];
        push_load_line(number_in(step), name.as_slice(), change, part)?;
        Ok(())
    }

    fn refuse(&mut self, step: Turnstep, fault: &EsisFault) -> Result<(), AllocError>
        requires stands { Stands (progress_of self.old) step }
        ensures { OnOk result ((name lines : List ℕ) → fault_of lines ≡ Some fault.now
            → Does step (command.Load name lines) (progress_of self.old) (progress_of self.new)) }
    {
        let part = &mut self.parts[step.session as usize];
        push_refused_line(number_in(step), fault, part)?;
        Ok(())
    }

    fn query<R: Threads + Sync, G: Gate>(
        &mut self,
        rt: &R,
        step: Turnstep,
        text: &[u8],
        gate: &G,
    ) -> Result<bool, AllocError>
        requires stands { Stands (progress_of self.old) step }
        ensures { IfOk result (λ done. Ends done step (command.Query text.now) (progress_of self.old) (progress_of self.new)) }
    {
        match read_query(self.alloc, text) {
            Ok(Query::Match(p)) => self.answer(rt, step, &Query::Match(p), gate)?,
            Ok(Query::Flwor(_)) => return Ok(false),
            Err(fault) => {
                let fault = refusal(fault)?;
                self.refuse_query(step, &fault)?;
            }
        }
        Ok(true)
    }

    fn refuse_query(&mut self, step: Turnstep, fault: &QueryFault) -> Result<(), AllocError>
        requires stands { Stands (progress_of self.old) step }
        ensures { OnOk result ((text : List ℕ) → IsRefused text fault.now
            → Does step (command.Query text) (progress_of self.old) (progress_of self.new)) }
    {
        let part = &mut self.parts[step.session as usize];
        push_refused_query_line(number_in(step), fault, part)?;
        Ok(())
    }

    /// Answers a query whose text has no fault.
    fn answer<R: Threads + Sync, G: Gate>(
        &mut self,
        rt: &R,
        step: Turnstep,
        query: &Query,
        gate: &G,
    ) -> Result<(), AllocError>
        requires stands { Stands (progress_of self.old) step }
        requires few { AsksFew query.now }
        ensures { OnOk result ((text : List ℕ) → Reads text (Ok query.now)
            → Does step (command.Query text) (progress_of self.old) (progress_of self.new)) }
    {
        let session = step.session;
        let front = number(&mut self.world, Event::Look { session });
        let answer = answered(rt, self.alloc, query, &self.history, self.secret, gate)?;
        let part = &mut self.parts[session as usize];
        push_query_block(number_in(step), front, &answer, part)?;
        Ok(())
    }

    fn tell(&mut self, step: Turnstep, mark: u32, name: &[u8]) -> Result<(), AllocError>
        requires stands { Stands (progress_of self.old) step }
        requires ready { IsReadyFor self.old.world (command.Tell mark name.now) }
        ensures { OnOk result
            (Does step (command.Tell mark name.now) (progress_of self.old) (progress_of self.new)) }
    {
        let session = step.session;
        let front = number(&mut self.world, Event::Tell { session, mark });
        let part = &mut self.parts[session as usize];
        push_front_line(number_in(step), b" tell ", name, front, part)?;
        Ok(())
    }

    fn hear(&mut self, step: Turnstep, mark: u32, name: &[u8]) -> Result<(), AllocError>
        requires stands { Stands (progress_of self.old) step }
        requires ready { IsReadyFor self.old.world (command.Hear mark name.now) }
        ensures { OnOk result
            (Does step (command.Hear mark name.now) (progress_of self.old) (progress_of self.new)) }
    {
        let session = step.session;
        let front = number(&mut self.world, Event::Hear { session, mark });
        let part = &mut self.parts[session as usize];
        push_front_line(number_in(step), b" hear ", name, front, part)?;
        Ok(())
    }
}

/// What was done of the script before its first command.
pub fn start(alloc: Global, secret: Secret, w: &Workload) -> Result<Running, AllocError>
    requires runnable { IsRunnable w.now }
    ensures { IfOk result (λ r. progress_of r ≡ at_start w.now) }
{
    let sessions = w.sessions.len();
    Ok(Running {
        alloc,
        secret,
        world: World::new(
            alloc,
            sessions as u32,
            w.marks,
            loads_in(&w.sessions) as u32,
        )?,
        history: History::new(alloc, sessions)?,
        parts: begun(alloc, sessions)?,
    })
}

/// Does an event that has a number.
fn number(world: &mut World, event: Event) -> u32
    requires allowed { IsAllowed world.old event }
    requires numbered { IsSome (answer world.old event) }
    ensures answer { answer world.old event ≡ Some result }
    ensures after { world.new ≡ after world.old event }
{
    match world.step(event) {
        Some(number) => number,
        None => unreachable!(),
    }
}

/// The number of a command in its session, from 1.
fn number_in(step: Turnstep) -> u64
    ensures { result ≡ step.command + 1 }
{
    u64::from(step.command) + 1
}

/// The parts of so many sessions before their first blocks.
fn begun(alloc: Global, sessions: usize) -> Result<Vec<Vec<u8>>, AllocError>
    requires { sessions ≤ 64 }
    ensures { IfOk result (λ parts.
        map (λ part. part.items) parts.items ≡ map begun (range_with_len 0 sessions)) }
{
    let mut parts = Vec::with_capacity(alloc, sessions)?;
    'sessions: for session in 0..sessions {
        let mut part = Vec::new(alloc);
        push_session_line(session as u32, &mut part)?;
        parts.push(part)?;
    }
    Ok(parts)
}
