//! What no clause says: that a command is answered with ample memory. Whole scripts are cases of
//! `examples/`.

ghost use Rattle.std.specs.Prelude.{◌≤◌};

use super::*;
use std::alloc::{AllocError, Global};
use std::random::RandomSource;
use std::test::Fail;
use std::thread::Threads;
use tb_edge::{MemSink, MemSource, OpenGate};
use tb_script::ScriptFault;

mod labels;
mod stores;

// One session loads a document and tells a mark; the other hears it and asks.
const MARKS: &[u8] =
    b"session\nload a\n(x\n)x\n.\ntell m\nsession\nhear m\nquery\nMATCH document(\"a\") (//- x (//- x))\n.\n";

const MARKS_TRANSCRIPT: &[u8] =
    b"session 1\n1 load a at 1\n2 tell m front 1\nend\nsession 2\n1 hear m front 1\n2 query front 1 trees 0\n.\nend\nhistory 1\n1 session 1 change 1 load a\nok\n";

// A query that is one, but not of the form that is built.
const UNBUILT: &[u8] = b"session\nquery\nFOR $x IN document(\"d\")//x RETURN $x\n.\n";

// Bytes that a source gives at a call, and that a sink takes.
const STEP: usize = 16;

fn words_of(alloc: Global, given: &[&str]) -> Result<Vec<String>, AllocError> {
    let mut words = Vec::new(alloc);
    for word in given {
        words.push(String::from_str(alloc, word)?)?;
    }
    Ok(words)
}

// The status, and what the sink holds; the source and the sink fail at these calls.
fn settled<R: Threads + Sync + RandomSource>(
    rt: &R,
    alloc: Global,
    words: &[&str],
    bytes: &[u8],
    step: usize,
    failing: (&[u64], &[u64]),
) -> Result<(Status, Vec<u8>), AllocError>
    requires { 1 ≤ step }
{
    let words = words_of(alloc, words)?;
    let mut source = MemSource::new(bytes.to_vec(alloc)?, step, failing.0.to_vec(alloc)?);
    let mut sink = MemSink::new(alloc, 8192, step, failing.1.to_vec(alloc)?)?;
    let status = settle(rt, alloc, &words, &mut source, &mut sink, &OpenGate);
    Ok((status, sink.held().to_vec(alloc)?))
}

#[test]
fn a_source_that_fails_at_any_call_is_a_read_fault(rt: HostRuntime) -> Result<(), Fail> {
    // The last call finds the end.
    let calls = MARKS.len().div_ceil(STEP) as u64 + 1;
    for word in ["single", "check"] {
        for call in 1..=calls {
            let (ended, held) = settled(&rt, rt.alloc(), &[word], MARKS, STEP, (&[call], &[]))?;
            assert_eq!(rt; ended, Status::ReadFault, "at call {call}");
            assert_eq!(rt; held.as_slice(), b"read-fault\n".as_slice());
        }
    }
    let failing: &[u64] = &[calls + 1];
    let (ended, _) = settled(&rt, rt.alloc(), &["single"], MARKS, STEP, (failing, &[]))?;
    assert_eq!(rt; ended, Status::Ok);
    Ok(())
}

#[test]
fn a_sink_that_fails_at_any_call_holds_what_it_took(rt: HostRuntime) -> Result<(), Fail> {
    for (call, piece) in MARKS_TRANSCRIPT.chunks(STEP).enumerate() {
        let failing: &[u64] = &[call as u64 + 1];
        let (ended, held) = settled(&rt, rt.alloc(), &["single"], MARKS, STEP, (&[], failing))?;
        assert_eq!(rt; ended, Status::WriteFault, "at call {call}");
        assert_eq!(rt; held.len(), call * STEP);
        assert!(rt; MARKS_TRANSCRIPT.starts_with(&held) && !piece.is_empty());
    }
    Ok(())
}

#[test]
fn a_line_that_is_not_written_leaves_the_status(rt: HostRuntime) -> Result<(), Fail> {
    for (word, bytes, status) in [
        ("run", MARKS, Status::Words),
        ("single", UNBUILT, Status::NotBuilt),
        (
            "check",
            b"bogus",
            Status::Script(ScriptFault::UnknownLine(1)),
        ),
    ] {
        let (ended, held) = settled(&rt, rt.alloc(), &[word], bytes, 4, (&[], &[2]))?;
        assert_eq!(rt; ended, status);
        assert_eq!(rt; held.len(), 4);
    }
    Ok(())
}

#[test]
fn nothing_is_read_past_byte_67_108_865(rt: HostRuntime) -> Result<(), Fail> {
    let bytes = vec![in rt.alloc(); b'#'; 67_108_866]?;
    let mut source = MemSource::new(bytes, 1 << 16, Vec::new(rt.alloc()));
    let mut sink = MemSink::new(rt.alloc(), 64, 64, Vec::new(rt.alloc()))?;
    let words = words_of(rt.alloc(), &["single"])?;
    assert_eq!(rt;
        settle(&rt, rt.alloc(), &words, &mut source, &mut sink, &OpenGate),
        Status::Script(ScriptFault::InputTooLong)
    );
    assert_eq!(rt; source.left().len(), 1);
    assert_eq!(rt; sink.held(), b"script input-too-long\n".as_slice());
    Ok(())
}

#[test]
fn bytes_may_come_and_go_one_by_one(rt: HostRuntime) -> Result<(), Fail> {
    let rows: [(&str, &[u8], Status, &[u8]); 4] = [
        ("single", MARKS, Status::Ok, MARKS_TRANSCRIPT),
        (
            "check",
            MARKS,
            Status::Ok,
            b"check sessions 2 commands 4 loads 1 queries 1\n",
        ),
        ("single", UNBUILT, Status::NotBuilt, b"not-built\n"),
        (
            "single",
            b"bogus",
            Status::Script(ScriptFault::UnknownLine(1)),
            b"script 1 unknown-line\n",
        ),
    ];
    for (word, bytes, status, output) in rows {
        let (ended, held) = settled(&rt, rt.alloc(), &[word], bytes, 1, (&[], &[]))?;
        assert_eq!(rt; ended, status);
        assert_eq!(rt; held.as_slice(), output);
    }
    Ok(())
}

#[test]
fn an_empty_script_fails_where_its_source_or_its_sink_does(rt: HostRuntime) -> Result<(), Fail> {
    let (ended, held) = settled(&rt, rt.alloc(), &["single"], b"", 1, (&[], &[3]))?;
    assert_eq!(rt; ended, Status::WriteFault);
    assert_eq!(rt; held.as_slice(), b"hi".as_slice());
    let (ended, held) = settled(&rt, rt.alloc(), &["single"], b"", 1, (&[1], &[]))?;
    assert_eq!(rt; ended, Status::ReadFault);
    assert_eq!(rt; held.as_slice(), b"read-fault\n".as_slice());
    Ok(())
}
