//! A source over bytes in memory, which fails where it is told to.

ghost use Rattle.std.specs.Prelude.{◌≡◌, ℕ, ◌<◌, ◌≤◌, ◌↔◌, ◌++◌, Some, length, min, take, drop, vec_len, IsErr, IfOk, OnErr};
ghost use Rattle.std.specs.Io.{ReadsAtMost};
ghost use Rattle.std.specs.Io.KnownBytes.{ReadConsumes};
ghost use Rattle.tb_edge.specs.Faults.{Causes};
ghost use Rattle.tb_edge.specs.Memory.{Supply, fresh_supply, ReadFails, readable, after_read};

use super::{Failed, Source};
use std::marker::Model;

/// Gives its bytes a few at a time, and fails at chosen calls.
#[derive(Debug, Drop)]
pub struct MemSource {
    bytes: Vec<u8>,
    at: usize,
    step: usize,
    failing: Vec<u64>,
    calls: u64,
    faults: u64,
}

impl Model for MemSource {
    ghost Value = { Supply };

    ghost view = { λ s. record {
      left = drop s.at s.bytes.items;
      step = s.step;
      failing = s.failing.items;
      calls = s.calls;
      faults = s.faults;
    } };

    ghost invariant = { λ s. (s.at ≤ vec_len s.bytes) × (0 < s.step) };
}

impl MemSource {
    /// A source that gives at most `step` bytes a call, and fails at the calls whose numbers, from 1,
    /// stand in `failing`.
    pub fn new(bytes: Vec<u8>, step: usize, failing: Vec<u64>) -> MemSource
        requires { 1 ≤ step }
        ensures { result ≡ fresh_supply bytes.items step failing.items }
    {
        MemSource {
            bytes,
            at: 0,
            step,
            failing,
            calls: 0,
            faults: 0,
        }
    }

    /// The bytes that are left.
    pub fn left(&self) -> &[u8]
        ensures { result.now ≡ self.now.left }
    {
        &self.bytes[self.at..]
    }

    /// How many calls failed.
    pub fn faults(&self) -> u64
        ensures { result ≡ self.now.faults }
    {
        self.faults
    }
}

impl Source for MemSource {
    ghost left = { λ s. Some s.left };

    ghost faults = { λ s. s.faults };

    fn read(&mut self, into: &mut [u8]) -> Result<usize, Failed>
        requires { 0 < length into.old }
        ensures bound { ReadsAtMost result into.new }
        ensures bytes { ReadConsumes (Some self.old.left) (Some self.new.left) result into.new }
        ensures cause { Causes self.old.faults self.new.faults result }

        // Which calls fail, and what the others give.
        ensures fails { IsErr result ↔ ReadFails self.old }
        ensures count { IfOk result (λ n. n ≡ readable self.old (length into.old)) }
        ensures given { IfOk result (λ n. into.new ≡ take n self.old.left ++ drop n into.old) }
        ensures not_given { OnErr result (into.new ≡ into.old) }
        ensures after { self.new ≡ after_read self.old result }
    {
        self.calls = self.calls.saturating_add(1);
        if self.failing.contains(&self.calls) {
            self.faults = self.faults.saturating_add(1);
            return Err(Failed);
        }
        let n = give(self.left(), self.step, into);
        self.at += n;
        Ok(n)
    }
}

// Puts the first bytes of `from`, at most `most`, first in `into`.
fn give(from: &[u8], most: usize, into: &mut [u8]) -> usize
    ensures count { result ≡ min most (min (length into.old) (length from.now)) }
    ensures given { into.new ≡ take result from.now ++ drop result into.old }
    ensures taken { from.now ≡ take result into.new ++ drop result from.now }
{
    let n = most.min(into.len()).min(from.len());
    into[..n].copy_from_slice(&from[..n]);
    n
}
