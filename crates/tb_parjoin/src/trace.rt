//! What ran of a join.

ghost use Rattle.std.specs.Prelude.{◌≡◌, IfOk};
ghost use Rattle.tb_parjoin.specs.Traces.{Partition, whole_trace};

use std::alloc::{AllocError, Global};
use std::marker::Model;

/// A piece that was worked: the descendants from place `lo` up to `hi`, which isn't in it, by the worker of
/// this number, from 0.
#[derive(Clone, Copy, Debug, PartialEq, Eq)]
pub struct Ran {
    pub lo: u32,
    pub hi: u32,
    pub worker: u32,
}

/// The pieces of one join that was run. Only `structural_join` makes one, and none can be copied.
#[derive(Debug, Drop)]
pub struct JoinTrace {
    size: u32,
    ran: Vec<Ran>,
}

impl Model for JoinTrace {
    ghost use Rattle.tb_parjoin.specs.Traces.{Trace, Partition};

    ghost Value = { Trace };

    ghost view = { λ trace. record { size = trace.size; ran = trace.ran.items } };

    ghost invariant = { λ trace. Partition trace.size trace.ran.items };
}

impl JoinTrace {
    /// One piece with all descendants, or none where there is no descendant.
    pub(crate) fn whole(alloc: Global, size: u32) -> Result<JoinTrace, AllocError>
        ensures { IfOk result (λ trace. trace ≡ whole_trace size) }
    {
        let mut ran = Vec::new(alloc);
        if size > 0 {
            ran.push(Ran {
                lo: 0,
                hi: size,
                worker: 0,
            })?;
        }
        Ok(JoinTrace { size, ran })
    }

    /// How many descendants the join had.
    pub fn size(&self) -> u32
        ensures { result ≡ self.now.size }
    {
        self.size
    }

    /// The pieces in the order in which they ended. By `lo` they partition the places below the size.
    pub fn ran(&self) -> &[Ran]
        ensures listed { result.now ≡ self.now.ran }
        ensures partition { Partition self.now.size self.now.ran }
    {
        self.ran.as_slice()
    }
}
