//! A sink that holds its bytes in memory, which it has from the start, and fails where it is told to.

ghost use Rattle.std.specs.Prelude.{◌≡◌, ℕ, ◌<◌, ◌≤◌, ◌↔◌, Some, length, vec_len, vec_capacity, IsErr, IfOk};
ghost use Rattle.std.specs.Io.{WritesAtMost};
ghost use Rattle.std.specs.Io.KnownBytes.{WriteAppends};
ghost use Rattle.tb_edge.specs.Faults.{Causes};
ghost use Rattle.tb_edge.specs.Memory.{Intake, IsReserved, fresh_intake, WriteFails, writable, after_write};

use super::{Failed, Sink};
use std::alloc::{AllocError, Global};
use std::marker::Model;

/// Takes bytes a few at a time while it has room, and fails at chosen calls.
#[derive(Debug, Drop)]
pub struct MemSink {
    held: Vec<u8>,
    room: usize,
    step: usize,
    failing: Vec<u64>,
    calls: u64,
    faults: u64,
}

impl Model for MemSink {
    ghost Value = { Intake };

    ghost view = { λ s. record {
      held = s.held.items;
      room = s.room;
      step = s.step;
      failing = s.failing.items;
      calls = s.calls;
      faults = s.faults;
    } };

    ghost invariant = { λ s. IsReserved (vec_len s.held) s.room (vec_capacity s.held) × (0 < s.step) };
}

impl MemSink {
    /// A sink that takes at most `step` bytes a call and `room` bytes in all, and fails at the calls whose
    /// numbers, from 1, stand in `failing`. Its memory is reserved here, and no write asks for more.
    pub fn new(
        alloc: Global,
        room: usize,
        step: usize,
        failing: Vec<u64>,
    ) -> Result<MemSink, AllocError>
        requires { 1 ≤ step }
        ensures { IfOk result (λ s. s ≡ fresh_intake room step failing.items) }
    {
        Ok(MemSink {
            held: Vec::with_capacity(alloc, room)?,
            room,
            step,
            failing,
            calls: 0,
            faults: 0,
        })
    }

    /// The bytes that it took.
    pub fn held(&self) -> &[u8]
        ensures { result.now ≡ self.now.held }
    {
        &self.held
    }

    /// How many calls failed.
    pub fn faults(&self) -> u64
        ensures { result ≡ self.now.faults }
    {
        self.faults
    }
}

impl Sink for MemSink {
    ghost held = { λ s. Some s.held };

    ghost faults = { λ s. s.faults };

    fn write(&mut self, piece: &[u8]) -> Result<usize, Failed>
        requires { 0 < length piece.now }
        ensures bound { WritesAtMost result piece.now }
        ensures some { IfOk result (λ n. 0 < n) }
        ensures bytes { WriteAppends (Some self.old.held) (Some self.new.held) result piece.now }
        ensures cause { Causes self.old.faults self.new.faults result }

        // Which calls fail, and what the others take.
        ensures fails { IsErr result ↔ WriteFails self.old }
        ensures count { IfOk result (λ n. n ≡ writable self.old (length piece.now)) }
        ensures after { self.new ≡ after_write self.old piece.now result }
    {
        self.calls = self.calls.saturating_add(1);
        let free = self.room - self.held.len();
        if free == 0 || self.failing.contains(&self.calls) {
            self.faults = self.faults.saturating_add(1);
            return Err(Failed);
        }
        let n = self.step.min(piece.len()).min(free);
        match self.held.extend_from_slice(&piece[..n]) {
            Ok(()) => Ok(n),
            // The memory for the whole room is there.
            Err(_) => unreachable!(),
        }
    }
}
