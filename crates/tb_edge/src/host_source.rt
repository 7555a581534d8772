//! A source over a reader of std, as standard input is one.

ghost use Rattle.std.specs.Prelude.{◌≡◌, ◌<◌, length, OnErr};
ghost use Rattle.std.specs.Io.{ReadsAtMost};
ghost use Rattle.std.specs.Io.KnownBytes.{ReadConsumes};
ghost use Rattle.tb_edge.specs.Faults.{next_count, Causes};
ghost use Rattle.tb_edge.specs.Host.{Host};

use super::{Failed, Source};
use std::io;
use std::io::{ErrorKind, Read};
use std::marker::Model;

/// Reads from a reader of std, and counts its errors. It tells the bytes left where the reader does.
/// Standard input doesn't.
#[derive(Debug, Drop)]
pub struct HostSource<R> {
    reader: R,
    faults: u64,
}

impl<R> Model for HostSource<R> {
    ghost Value = { Host R };

    ghost view = { λ s. record { stream = s.reader; faults = s.faults } };
}

impl<R> HostSource<R> {
    pub fn new(reader: R) -> HostSource<R>
        ensures { result ≡ record { stream = reader; faults = 0 } }
    {
        HostSource { reader, faults: 0 }
    }

    /// How many reads failed.
    pub fn faults(&self) -> u64
        ensures { result ≡ self.now.faults }
    {
        self.faults
    }
}

impl<R: Read> Source for HostSource<R> {
    ghost left = { λ s. R.remaining s.stream };

    ghost faults = { λ s. s.faults };

    fn read(&mut self, into: &mut [u8]) -> Result<usize, Failed>
        requires { 0 < length into.old }
        ensures bound { ReadsAtMost result into.new }
        ensures bytes { ReadConsumes (R.remaining self.old.stream) (R.remaining self.new.stream)
            result into.new }
        ensures cause { Causes self.old.faults self.new.faults result }

        // Each error counts once.
        ensures counted { OnErr result (self.new.faults ≡ next_count self.old.faults) }
    {
        match read_retrying(&mut self.reader, into) {
            Ok(n) => Ok(n),
            Err(_) => {
                self.faults = self.faults.saturating_add(1);
                Err(Failed)
            }
        }
    }
}

// One read, tried again where a signal interrupts it, as std's own loops do.
fn read_retrying<R: Read>(reader: &mut R, into: &mut [u8]) -> io::Result<usize>
    ensures bound { ReadsAtMost result into.new }
    ensures bytes { ReadConsumes (R.remaining reader.old) (R.remaining reader.new) result into.new }
{
    'tries: for _ in 0..u64::MAX {
        match reader.read(into) {
            Err(error) if error.kind() == ErrorKind::Interrupted => {}
            outcome => return outcome,
        }
    }
    reader.read(into)
}
