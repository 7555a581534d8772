//! A sink over a writer of std, as standard output is one.

ghost use Rattle.std.specs.Prelude.{◌≡◌, ◌<◌, length, IfOk, OnErr};
ghost use Rattle.std.specs.Io.{WritesAtMost};
ghost use Rattle.std.specs.Io.KnownBytes.{WriteAppends};
ghost use Rattle.tb_edge.specs.Faults.{next_count, Causes};
ghost use Rattle.tb_edge.specs.Host.{Host};

use super::{Failed, Sink};
use std::io;
use std::io::{ErrorKind, Write};
use std::marker::Model;

/// Writes to a writer of std, and counts its errors. It tells the bytes held where the writer does.
/// Standard output doesn't.
#[derive(Debug, Drop)]
pub struct HostSink<W> {
    writer: W,
    faults: u64,
}

impl<W> Model for HostSink<W> {
    ghost Value = { Host W };

    ghost view = { λ s. record { stream = s.writer; faults = s.faults } };
}

impl<W> HostSink<W> {
    /// The writer is one without a buffer, as standard output is, since nobody flushes it.
    pub fn new(writer: W) -> HostSink<W>
        ensures { result ≡ record { stream = writer; faults = 0 } }
    {
        HostSink { writer, faults: 0 }
    }

    /// How many writes failed. One that took no byte did.
    pub fn faults(&self) -> u64
        ensures { result ≡ self.now.faults }
    {
        self.faults
    }
}

impl<W: Write> Sink for HostSink<W> {
    ghost held = { λ s. W.contents s.stream };

    ghost faults = { λ s. s.faults };

    fn write(&mut self, piece: &[u8]) -> Result<usize, Failed>
        requires { 0 < length piece.now }
        ensures bound { WritesAtMost result piece.now }
        ensures some { IfOk result (λ n. 0 < n) }
        ensures bytes { WriteAppends (W.contents self.old.stream) (W.contents self.new.stream)
            result piece.now }
        ensures cause { Causes self.old.faults self.new.faults result }

        // Each error counts once.
        ensures counted { OnErr result (self.new.faults ≡ next_count self.old.faults) }
    {
        match write_retrying(&mut self.writer, piece) {
            Ok(n) if n > 0 => Ok(n),
            _ => {
                self.faults = self.faults.saturating_add(1);
                Err(Failed)
            }
        }
    }
}

// One write, tried again where a signal interrupts it, as std's own loops do.
fn write_retrying<W: Write>(writer: &mut W, piece: &[u8]) -> io::Result<usize>
    ensures bound { WritesAtMost result piece.now }
    ensures bytes { WriteAppends (W.contents writer.old) (W.contents writer.new) result piece.now }
{
    'tries: for _ in 0..u64::MAX {
        match writer.write(piece) {
            Err(error) if error.kind() == ErrorKind::Interrupted => {}
            outcome => return outcome,
        }
    }
    writer.write(piece)
}
