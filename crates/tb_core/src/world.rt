//! The history, what each session has seen of it, and what each mark was told.

ghost use Rattle.std.specs.Prelude.{◌≡◌, ◌<◌, IfOk, Some, length, vec_capacity, get_or};
ghost use Rattle.tb_core.specs.declared.event.Event.TheVariants.{Change, Look, Tell, Hear};
ghost use Rattle.tb_core.specs.World.{State, IsReserved, IsAllowed, start, answer, after};

use crate::Event;
use std::alloc::{AllocError, Global};
use std::marker::Model;

/// The state between two events.
#[derive(Debug, Drop)]
pub struct World {
    history: Vec<u32>,
    seen: Vec<u32>,
    told: Vec<Option<u32>>,
    room: u32,
}

impl Model for World {
    ghost Value = { State };

    ghost view = { λ w. record {
      history = w.history.items;
      seen = w.seen.items;
      told = w.told.items;
      room = w.room;
    } };

    ghost invariant = { λ w. IsReserved (length w.history.items) w.room (vec_capacity w.history) };
}

impl World {
    /// A world with these many sessions and marks, in which nothing has happened. The memory for
    /// `changes` changes is reserved here, and no step asks for more.
    pub fn new(alloc: Global, sessions: u32, marks: u32, changes: u32) -> Result<World, AllocError>
        ensures { IfOk result (λ w. w ≡ start sessions marks changes) }
    {
        Ok(World {
            history: Vec::with_capacity(alloc, changes as usize)?,
            seen: vec![in alloc; 0; sessions as usize]?,
            told: vec![in alloc; None; marks as usize]?,
            room: changes,
        })
    }

    /// Does one event. There is no number where a mark is heard that nobody has told.
    pub fn step(&mut self, event: Event) -> Option<u32>
        requires { IsAllowed self.old event }
        ensures answer { result ≡ answer self.old event }
        ensures after { self.new ≡ after self.old event }
    {
        match event {
            Event::Change { session } => Some(self.change(session)),
            Event::Look { session } => Some(self.look(session)),
            Event::Tell { session, mark } => Some(self.tell(session, mark)),
            Event::Hear { session, mark } => self.hear(session, mark),
        }
    }

    fn change(&mut self, session: u32) -> u32
        requires known { session < length self.old.seen }
        requires room { length self.old.history < self.old.room }
        ensures answer { Some result ≡ answer self.old (Change session) }
        ensures after { self.new ≡ after self.old (Change session) }
    {
        match self.history.push(session) {
            Ok(()) => self.look(session),
            // The memory for the whole room is there.
            Err(_) => unreachable!(),
        }
    }

    fn look(&mut self, session: u32) -> u32
        requires known { session < length self.old.seen }
        ensures answer { Some result ≡ answer self.old (Look session) }
        ensures after { self.new ≡ after self.old (Look session) }
    {
        let now = self.history.len() as u32;
        self.seen[session as usize] = now;
        now
    }

    fn tell(&mut self, session: u32, mark: u32) -> u32
        requires known { session < length self.old.seen }
        requires named { mark < length self.old.told }
        ensures answer { Some result ≡ answer self.old (Tell session mark) }
        ensures after { self.new ≡ after self.old (Tell session mark) }
    {
        let front = self.seen[session as usize];
        self.told[mark as usize] = Some(front);
        front
    }

    fn hear(&mut self, session: u32, mark: u32) -> Option<u32>
        requires known { session < length self.old.seen }
        requires named { mark < length self.old.told }
        ensures answer { result ≡ answer self.old (Hear session mark) }
        ensures after { self.new ≡ after self.old (Hear session mark) }
    {
        let front = self.told[mark as usize]?;
        let now = self.seen[session as usize].max(front);
        self.seen[session as usize] = now;
        Some(now)
    }
}
