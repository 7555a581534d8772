//! Doing the commands of sessions in any order in which they can be done.

ghost use Rattle.std.specs.Prelude.{◌≡◌, ◌<◌, true, List, [], OnOk, IfOk, IsSome, length};
ghost use Rattle.std.specs.Option.{option_map};
ghost use Rattle.tb_script.specs.Walks.{Fits, Visits, Wakes, Ends, IdlesBut, CoveredBut, Hears, Pops, IsNext, hears, state_of, is_told, waiters_of, past, telling, waiting, with_waiters};

use crate::Command;
use crate::lined_command::LinedCommand;
use std::alloc::AllocError;

/// What is left of each session, which marks are told, which sessions wait for each mark, and which
/// sessions are to be looked at.
#[derive(Drop)]
pub struct Walk<'a> {
    pub rests: Vec<&'a [LinedCommand]>,
    pub told: Vec<bool>,
    pub waiters: Vec<Vec<usize>>,
    pub ready: Vec<usize>,
}

impl<'a> Walk<'a> {
    /// The next command of a session, and those behind it.
    fn next(&self, at: usize) -> Option<(&'a LinedCommand, &'a [LinedCommand])>
        ensures { IsNext (state_of self.now) at
            (option_map (λ next. (next.0.now, next.1.now)) result) }
    {
        match self.rests.get(at) {
            Some([turn, rest @ ..]) => Some((turn, rest)),
            _ => None,
        }
    }

    /// Notes that the next command of a session is done.
    fn go(&mut self, at: usize, rest: &'a [LinedCommand]) -> Result<(), AllocError>
        requires within { at < length self.old.rests.items }
        ensures { OnOk result (state_of self.new ≡ past (state_of self.old) at rest.now) }
    {
        self.rests[at] = rest;
        self.ready.push(at)?;
        Ok(())
    }

    fn tell(&mut self, mark: u32)
        requires within { mark < length self.old.told.items }
        ensures { state_of self.new ≡ telling (state_of self.old) mark }
    {
        self.told[mark as usize] = true;
    }

    fn note_waiter(&mut self, mark: u32, at: usize) -> Result<(), AllocError>
        requires within { mark < length self.old.waiters.items }
        ensures { OnOk result (state_of self.new ≡ waiting (state_of self.old) mark at) }
    {
        self.waiters[mark as usize].push(at)?;
        Ok(())
    }

    fn pop_waiter(&mut self, mark: u32) -> Option<usize>
        requires within { mark < length self.old.waiters.items }
        ensures popped { Pops (waiters_of (state_of self.old) mark)
            (waiters_of (state_of self.new) mark) result }
        ensures rest { state_of self.new
            ≡ with_waiters (state_of self.old) mark (waiters_of (state_of self.new) mark) }
    {
        self.waiters[mark as usize].pop()
    }

    /// Lets a session go on that hears the mark.
    fn hear(&mut self, mark: u32, at: usize) -> Result<(), AllocError>
        ensures { OnOk result (Hears mark at (state_of self.old) (state_of self.new)) }
    {
        if let Some((turn, rest)) = self.next(at) {
            if hears(&turn.command, mark) {
                self.go(at, rest)?;
            }
        }
        Ok(())
    }

    /// Lets the sessions go on that wait for a mark which is told.
    fn wake(&mut self, mark: u32) -> Result<(), AllocError>
        requires fits { Fits (state_of self.old) }
        requires within { mark < length self.old.waiters.items }
        requires told { is_told (state_of self.old) mark ≡ true }
        ensures { OnOk result (Wakes mark (state_of self.old) (state_of self.new)) }
    {
        'waiters: while let Some(at) = self.pop_waiter(mark) {
            self.hear(mark, at)?;
        }
        Ok(())
    }

    /// Does the next command of a session, or notes that the session waits.
    fn visit(&mut self, at: usize) -> Result<(), AllocError>
        requires fits { Fits (state_of self.old) }
        ensures { OnOk result (Visits at (state_of self.old) (state_of self.new)) }
    {
        let Some((turn, rest)) = self.next(at) else {
            return Ok(());
        };
        match &turn.command {
            Command::Load { .. } => self.go(at, rest),
            Command::Query { .. } => self.go(at, rest),
            Command::Tell { mark, .. } => {
                self.tell(*mark);
                self.go(at, rest)?;
                self.wake(*mark)
            }
            Command::Hear { mark, .. } => {
                if self.told[*mark as usize] {
                    return self.go(at, rest);
                }
                self.note_waiter(*mark, at)
            }
        }
    }

    /// Does commands until no more can be done.
    pub fn end(&mut self) -> Result<(), AllocError>
        requires fits { Fits (state_of self.old) }
        requires idles { IdlesBut [] (state_of self.old) }
        requires covers { CoveredBut [] (state_of self.old) }
        ensures { OnOk result (Ends (state_of self.old) (state_of self.new)) }
    {
        'ready: while let Some(at) = self.ready.pop() {
            self.visit(at)?;
        }
        Ok(())
    }
}

fn hears(command: &Command, mark: u32) -> bool
    ensures { result ≡ hears command.now mark }
{
    match command {
        Command::Hear { mark: heard, .. } => mark == *heard,
        _ => false,
    }
}
