//! The commands, from words and bytes to what is written and a status.

ghost use Rattle.std.specs.Prelude.{◌≡◌, length};
ghost use Rattle.tb_top.specs.Calls.{Settled};
ghost use Rattle.tb_top.specs.Moved.{Tells, Published};
ghost use Rattle.tb_top.specs.Pieces.{joined};

use crate::outcome::{Outcome, outcome_of};
use crate::status::Status;
use crate::task::task_of;
use std::alloc::{AllocError, Global};
use std::random::RandomSource;
use std::thread::Threads;
use tb_edge::{Gate, ReadFault, Sink, Source, read_up_to, write_all, write_pieces};
use tb_script::ScriptFault;
use tb_table::Secret;

/// Bytes of input that are read at most.
const MOST_INPUT: usize = 67_108_864;

/// Does the command `single` or `check`: reads a script from the source, and writes its transcript,
/// or its refusals and counts, to the sink. It waits for nobody.
pub fn settle<R: Threads + Sync + RandomSource, S: Source, K: Sink, G: Gate>(
    rt: &R,
    alloc: Global,
    words: &[String],
    source: &mut S,
    sink: &mut K,
    gate: &G,
) -> Status
    ensures { Settled words.now (record {
      left = S.left source.old;
      left_after = S.left source.new;
      faults = S.faults source.old;
      faults_after = S.faults source.new;
    }) (record {
      held = K.held sink.old;
      held_after = K.held sink.new;
      faults = K.faults sink.old;
      faults_after = K.faults sink.new;
    }) result }
{
    let Some(task) = task_of(words) else {
        return tell(sink, b"words\n", Status::Words);
    };
    let bytes = match read_up_to(alloc, source, MOST_INPUT) {
        Ok(bytes) => bytes,
        Err(ReadFault::Failed) => return tell(sink, b"read-fault\n", Status::ReadFault),
        Err(ReadFault::NoMemory) => return tell(sink, b"memory\n", Status::Memory),
    };
    if bytes.len() > MOST_INPUT {
        return tell(
            sink,
            b"script input-too-long\n",
            Status::Script(ScriptFault::InputTooLong),
        );
    }
    match outcome_of(rt, alloc, drawn(rt), task, bytes, gate) {
        Ok(Outcome::Text(pieces)) => publish(sink, &pieces),
        Ok(Outcome::Faulty(fault, line)) => tell(sink, &line, Status::Script(fault)),
        Ok(Outcome::NotBuilt) => tell(sink, b"not-built\n", Status::NotBuilt),
        Err(AllocError) => tell(sink, b"memory\n", Status::Memory),
    }
}

/// A secret for hashing what documents choose. Where none can be drawn it is one that everyone knows, and only
/// time can differ.
fn drawn<R: RandomSource>(rt: &R) -> Secret {
    let mut bytes = [0; 16];
    if rt.fill_bytes(&mut bytes).is_err() {
        return Secret::new(0, 0);
    }
    let drawn = u128::from_le_bytes(bytes);
    Secret::new((drawn & u128::from(u64::MAX)) as u64, (drawn >> 64) as u64)
}

/// Writes the line that goes with a status, which stays as it is where the sink fails.
fn tell<K: Sink>(sink: &mut K, line: &[u8], status: Status) -> Status
    ensures same { result ≡ status }
    ensures told { Tells (record {
      held = K.held sink.old;
      held_after = K.held sink.new;
      faults = K.faults sink.old;
      faults_after = K.faults sink.new;
    }) line.now }
{
    let _ = write_all(sink, line);
    status
}

/// Writes a result.
fn publish<K: Sink>(sink: &mut K, pieces: &[Vec<u8>]) -> Status
    ensures { Published (record {
      held = K.held sink.old;
      held_after = K.held sink.new;
      faults = K.faults sink.old;
      faults_after = K.faults sink.new;
    }) (joined pieces.now) result }
{
    match write_pieces(sink, pieces) {
        Ok(()) => Status::Ok,
        Err(_) => Status::WriteFault,
    }
}
