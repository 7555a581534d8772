//! What no clause says: that calls succeed with ample memory, and what a stream's own errors become.

ghost use Rattle.std.specs.Prelude.{◌≤◌, IfOk};

use super::*;
use std::io;
use std::io::{ErrorKind, Read, Write};
use std::test::Fail;

// A stream whose third call is interrupted and whose fourth fails. Each other call moves two bytes.
#[derive(Drop)]
struct Shaky {
    calls: u32,
}

impl Shaky {
    fn next_call(&mut self, len: usize) -> io::Result<usize>
        ensures within { IfOk result (λ n. n ≤ len) }
        ensures few { IfOk result (λ n. n ≤ 2) }
    {
        self.calls = self.calls.saturating_add(1);
        match self.calls {
            3 => Err(io::Error::from(ErrorKind::Interrupted)),
            4 => Err(io::Error::from(ErrorKind::BrokenPipe)),
            _ => Ok(len.min(2)),
        }
    }
}

impl Read for Shaky {
    fn read(&mut self, into: &mut [u8]) -> io::Result<usize> {
        let n = self.next_call(into.len())?;
        into[..n].copy_from_slice(&b"ab"[..n]);
        Ok(n)
    }
}

impl Write for Shaky {
    fn write(&mut self, piece: &[u8]) -> io::Result<usize> {
        self.next_call(piece.len())
    }

    fn flush(&mut self) -> io::Result<()> {
        Ok(())
    }
}

#[test]
fn a_source_over_a_reader_counts_its_errors(rt: HostRuntime) -> Result<(), Fail> {
    let mut source = HostSource::new(Shaky { calls: 0 });
    let mut into = [0; 8];
    // The fourth call, after the interrupted one, is part of the third read.
    for (read, faults) in [(Ok(2), 0), (Ok(2), 0), (Err(Failed), 1), (Ok(2), 1)] {
        assert_eq!(rt; source.read(&mut into), read);
        assert_eq!(rt; source.faults(), faults);
    }
    assert_eq!(rt; into, *b"ab\0\0\0\0\0\0");
    Ok(())
}

#[test]
fn a_sink_over_a_writer_counts_errors_and_writes_of_no_byte(rt: HostRuntime) -> Result<(), Fail> {
    let mut sink = HostSink::new(Shaky { calls: 0 });
    for (written, faults) in [(Ok(2), 0), (Ok(2), 0), (Err(Failed), 1), (Ok(2), 1)] {
        assert_eq!(rt; sink.write(b"abc"), written);
        assert_eq!(rt; sink.faults(), faults);
    }
    let mut room = [0; 4];
    let mut sink = HostSink::new(&mut room[..]);
    assert_eq!(rt; sink.write(b"abcdef"), Ok(4));
    assert_eq!(rt; sink.write(b"ef"), Err(Failed));
    assert_eq!(rt; sink.faults(), 1);
    Ok(())
}

#[test]
fn a_text_is_read_from_memory_and_written_to_memory(rt: HostRuntime) -> Result<(), Fail> {
    let alloc = rt.alloc();
    let text = b"(play\n)play\n";
    let mut source = MemSource::new(text.to_vec(alloc)?, 5, Vec::new(alloc));
    let bytes = read_up_to(alloc, &mut source, 12)?;
    assert_eq!(rt; bytes.as_slice(), text.as_slice());
    let mut sink = MemSink::new(alloc, 12, 5, Vec::new(alloc))?;
    write_all(&mut sink, &bytes)?;
    assert_eq!(rt; sink.held(), text.as_slice());
    assert_eq!(rt; write_all(&mut sink, b"\n"), Err(Failed));
    assert_eq!(rt; (source.faults(), sink.faults()), (0, 1));
    Ok(())
}

#[test]
fn a_call_fails_where_its_number_stands_among_the_failing(rt: HostRuntime) -> Result<(), Fail> {
    let alloc = rt.alloc();
    let mut source = MemSource::new(b"abcdef".to_vec(alloc)?, 2, vec![in alloc; 2]?);
    assert_eq!(rt; read_up_to(alloc, &mut source, 12), Err(ReadFault::Failed));
    assert_eq!(rt; source.left(), b"cdef".as_slice());
    let mut sink = MemSink::new(alloc, 6, 2, vec![in alloc; 3]?)?;
    assert_eq!(rt; write_all(&mut sink, b"abcdef"), Err(Failed));
    assert_eq!(rt; sink.held(), b"abcd".as_slice());
    OpenGate.reach(1, 0);
    OpenGate.enter(1, 1);
    Ok(())
}

#[test]
fn pieces_are_written_one_behind_the_other(rt: HostRuntime) -> Result<(), Fail> {
    let alloc = rt.alloc();
    let mut pieces = Vec::new(alloc);
    for piece in ["ab", "", "cde"] {
        pieces.push(piece.as_bytes().to_vec(alloc)?)?;
    }
    let mut sink = MemSink::new(alloc, 5, 2, Vec::new(alloc))?;
    assert_eq!(rt; write_pieces(&mut sink, &pieces), Ok(()));
    assert_eq!(rt; sink.held(), b"abcde".as_slice());
    Ok(())
}
