//! The order in which the rounds do the commands.

ghost use Rattle.std.specs.Prelude.{◌≡◌, IfOk, length, map};
ghost use Rattle.tb_script.specs.Stands.{Begins, row_of, stand_of};
ghost use Rattle.tb_script.specs.Rounds.{numbered};
ghost use Rattle.tb_script.specs.Runnable.{IsRunnable, commands_in};
ghost use Rattle.tb_script.specs.Schedule.{schedule_of};

use crate::round::{Rest, Round};
use crate::session_set::SessionSet;
use crate::stuck::untold;
use crate::{Script, Turnstep, Workload};
use std::alloc::{AllocError, Global};

/// The commands in the order in which the rounds do them. In a round each session, in order, does
/// its next command, unless that is a `hear` of a mark that isn't told yet.
///
/// It takes time for commands and waits, not for rounds in which a session waits.
pub fn schedule(alloc: Global, w: &Workload) -> Result<Vec<Turnstep>, AllocError>
    requires { IsRunnable w.now }
    ensures { IfOk result (λ steps. steps.items ≡ schedule_of (commands_in w.now)) }
{
    let mut round = start(alloc, w)?;
    round.end()?;
    Ok(round.steps)
}

fn start<'a>(alloc: Global, w: &'a Workload) -> Result<Round<'a>, AllocError>
    requires { IsRunnable w.now }
    ensures { IfOk result (λ round. Begins (commands_in w.now) (stand_of round)) }
{
    Ok(Round {
        rests: rests_of(alloc, &w.sessions)?,
        told: untold(alloc, w.marks)?,
        waiters: no_waiters(alloc, w.marks)?,
        awake: SessionSet::all(),
        later: SessionSet::none(),
        steps: Vec::new(alloc),
    })
}

fn rests_of<'a>(alloc: Global, sessions: &'a [Script]) -> Result<Vec<Rest<'a>>, AllocError>
    ensures { IfOk result (λ rests. map row_of rests.items
        ≡ map (numbered 0) (map (λ s. s.commands.items) sessions.now)) }
{
    let mut rests = Vec::with_capacity(alloc, sessions.len())?;
    'sessions: for session in sessions {
        rests.push(Rest {
            number: 0,
            commands: session.commands.as_slice(),
        })?;
    }
    Ok(rests)
}

fn no_waiters(alloc: Global, marks: u32) -> Result<Vec<SessionSet>, AllocError>
    ensures { IfOk result (λ waiters. length waiters.items ≡ marks) }
{
    let mut waiters = Vec::with_capacity(alloc, marks as usize)?;
    'marks: for _mark in 0..marks {
        waiters.push(SessionSet::none())?;
    }
    Ok(waiters)
}
