//! Rounds in which only sessions are looked at that may go on.

ghost use Rattle.std.specs.Prelude.{◌≡◌, ◌<◌, ℕ, List, OnOk, length};
ghost use Rattle.std.specs.Option.{option_map};
ghost use Rattle.tb_script.specs.Stands.{Fits, Follows, stand_of};
ghost use Rattle.tb_script.specs.Visits.{Goes, Tells, Stays, Visits, Chooses, IsNextAt};
ghost use Rattle.tb_script.specs.Schedule.{schedule_of};
ghost use Rattle.tb_script.specs.declared.command.Command.{Command};

use crate::session_set::SessionSet;
use crate::{Command, Turnstep};
use std::alloc::AllocError;

/// What is left of a session, and the number of its first command.
#[derive(Clone, Copy)]
pub struct Rest<'a> {
    pub number: u32,
    pub commands: &'a [Command],
}

/// What is left of each session, which marks are told, which sessions wait for each mark, which are
/// to be looked at in this round and in the next, and the steps so far.
#[derive(Drop)]
pub struct Round<'a> {
    pub rests: Vec<Rest<'a>>,
    pub told: Vec<bool>,
    pub waiters: Vec<SessionSet>,
    pub awake: SessionSet,
    pub later: SessionSet,
    pub steps: Vec<Turnstep>,
}

impl<'a> Round<'a> {
    /// The next command of a session, with its number and those behind it.
    fn next_command(&self, at: u32) -> Option<(u32, &'a Command, &'a [Command])>
        ensures { IsNextAt (stand_of self.now) at
            (option_map (λ next. (next.0, next.1.now, next.2.now)) result) }
    {
        match self.rests.get(at as usize) {
            Some(
                Rest {
                    number,
                    commands: [command, rest @ ..],
                },
            ) => Some((*number, command, rest)),
            _ => None,
        }
    }

    /// Notes that a session's next command, which has this number, is done.
    fn go(&mut self, at: u32, number: u32, rest: &'a [Command]) -> Result<(), AllocError>
        requires small { at < 64 }
        requires within { at < length self.old.rests.items }
        requires number { number < 10000 }
        ensures { OnOk result (Goes at number rest.now (stand_of self.old) (stand_of self.new)) }
    {
        self.rests[at as usize] = Rest {
            number: number + 1,
            commands: rest,
        };
        self.later.add(at);
        self.steps.push(Turnstep {
            session: at,
            command: number,
        })?;
        Ok(())
    }

    /// Notes that a session tells a mark. Who waits for it is looked at, in this round where its turn
    /// is to come, else in the next.
    fn tell(&mut self, at: u32, mark: u32)
        requires small { at < 64 }
        requires within { mark < length self.old.told.items }
        requires same { length self.old.waiters.items ≡ length self.old.told.items }
        ensures { Tells at mark (stand_of self.old) (stand_of self.new) }
    {
        self.told[mark as usize] = true;
        let woken = self.waiters[mark as usize];
        self.awake.join(woken.behind(at));
        self.later.join(woken);
    }

    /// Notes that a session waits for a mark.
    fn stay(&mut self, at: u32, mark: u32)
        requires small { at < 64 }
        requires within { mark < length self.old.waiters.items }
        ensures { Stays at mark (stand_of self.old) (stand_of self.new) }
    {
        self.waiters[mark as usize].add(at);
    }

    /// Does the next command of a session, or notes that the session waits.
    fn visit(&mut self, at: u32) -> Result<(), AllocError>
        requires small { at < 64 }
        requires fits { Fits (stand_of self.old) }
        ensures { OnOk result (Visits at (stand_of self.old) (stand_of self.new)) }
    {
        let Some((number, command, rest)) = self.next_command(at) else {
            return Ok(());
        };
        match command {
            Command::Load { .. } => self.go(at, number, rest),
            Command::Query { .. } => self.go(at, number, rest),
            Command::Tell { mark, .. } => {
                self.tell(at, *mark);
                self.go(at, number, rest)
            }
            Command::Hear { mark, .. } => {
                if self.told[*mark as usize] {
                    return self.go(at, number, rest);
                }
                self.stay(at, *mark);
                Ok(())
            }
        }
    }

    /// The next session to be looked at, in this round or else the next.
    fn choose(&mut self) -> Option<u32>
        ensures { Chooses (stand_of self.old) result (stand_of self.new) }
    {
        if let Some(at) = self.awake.take_first() {
            return Some(at);
        }
        self.awake = self.later;
        self.later = SessionSet::none();
        self.awake.take_first()
    }

    /// Does commands until no more can be done.
    pub fn end(&mut self) -> Result<(), AllocError>
        requires fits { Fits (stand_of self.old) }
        ensures { OnOk result ((css : List (List Command)) → Follows css 0 0 (stand_of self.old)
            → (stand_of self.new).steps ≡ schedule_of css) }
    {
        'turns: while let Some(at) = self.choose() {
            self.visit(at)?;
        }
        Ok(())
    }
}
