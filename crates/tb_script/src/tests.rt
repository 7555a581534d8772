//! What no clause says: that scripts are read with ample memory, and small scripts whose faults were
//! worked by hand.

use super::*;
use ScriptFault::{
    BadName, InputTooLong, MarkStuck, MarkTwice, MarkUnknown, NoSession, NotClosed, TooManyChanges,
    TooManyCommands, TooManySessions, UnknownLine,
};
use std::alloc::{AllocError, Global};
use std::test::Fail;

// Each piece as often as its number says.
fn script_of(alloc: Global, pieces: &[(&[u8], u32)]) -> Result<Vec<u8>, AllocError> {
    let mut script = Vec::new(alloc);
    for (piece, times) in pieces {
        for _time in 0..*times {
            script.extend_from_slice(piece)?;
        }
    }
    Ok(script)
}

#[test]
fn the_first_line_with_a_fault_is_named(rt: HostRuntime) -> Result<(), Fail> {
    let rows: [(&[u8], Option<ScriptFault>); 33] = [
        (b"", None),
        (b"\n#x\r\n\r\n#", None),
        (b"load x\n", Some(NoSession(1))),
        (b"bogus\n", Some(UnknownLine(1))),
        (b"session\nquery\nFOR\n", Some(NotClosed(2))),
        (b"session\nload a/b\n", Some(BadName(2))),
        (b"session\ntell m\ntell m\n", Some(MarkTwice(3))),
        // At one line: the form, the session, the name, the mark, the limits, the end of the body.
        (b"tell a/b\n", Some(NoSession(1))),
        (b"query\n", Some(NoSession(1))),
        (b"session\nload \n", Some(BadName(2))),
        (b"session\nload x\n", Some(NotClosed(2))),
        (b"session\nload  x\n.\n", Some(BadName(2))),
        (b"session\nhear a b\n", Some(BadName(2))),
        (b"session\nload\n.\n", Some(UnknownLine(2))),
        (b"session\nquery x\n.\n", Some(UnknownLine(2))),
        (b"session \n", Some(UnknownLine(1))),
        (b"session\n.\n", Some(UnknownLine(2))),
        (b"session\r\r\n", Some(UnknownLine(1))),
        (b"session\nquery\n.\r\r\n", Some(NotClosed(2))),
        // Marks come behind all lines.
        (b"session\nhear a\nbogus\n", Some(UnknownLine(3))),
        (b"session\nhear b\nhear c\ntell b\n", Some(MarkUnknown(3))),
        (b"session\nhear a\ntell a\n", Some(MarkStuck(2))),
        (
            b"session\nhear b\ntell a\nsession\nhear a\ntell b\n",
            Some(MarkStuck(2)),
        ),
        (
            b"session\nhear b\ntell a\nsession\nhear a\n",
            Some(MarkUnknown(2)),
        ),
        (b"session\ntell c\nhear b\nsession\nhear c\ntell b\n", None),
        // Bodies hide their lines, and the last line may have no end.
        (b"session\nload x\nsession\n.x\n#\nload y\n.", None),
        (b"session\r\nquery\r\n.\r\ntell m\r\nhear m\r\n", None),
        (b"session\r\nload x\r\n .\r\n", Some(NotClosed(2))),
        (b"session\nload x\n.\n.\n", Some(UnknownLine(4))),
        (b"session\nload x\nbogus\n.\nbogus", Some(UnknownLine(5))),
        (b"session\nload x\n.\r", Some(NotClosed(2))),
        (b"session\nquery\n.\nsession\r", Some(UnknownLine(4))),
        (
            b"session\ntell a\nsession\nhear b\ntell c\nsession\nhear c\ntell b",
            Some(MarkStuck(4)),
        ),
    ];
    for (script, fault) in rows {
        assert_eq!(rt; read_workload(rt.alloc(), script).err(), fault);
    }
    Ok(())
}

#[test]
fn each_limit_holds_at_its_last_and_fails_past_it(rt: HostRuntime) -> Result<(), Fail> {
    let session: &[u8] = b"session\n";
    let load: &[u8] = b"load x\n.\n";
    let full = script_of(rt.alloc(), &[(session, 1), (load, 10_000)])?;
    let rows: [(&[(&[u8], u32)], Option<ScriptFault>); 12] = [
        (&[(session, 64)], None),
        (&[(session, 65)], Some(TooManySessions(65))),
        (&[(session, 1), (b"query\n.\n", 10_000)], None),
        (&[(session, 1), (b"hear a\n", 10_000)], Some(MarkUnknown(2))),
        (
            &[(session, 1), (b"hear a\n", 10_001)],
            Some(TooManyCommands(10_002)),
        ),
        (
            &[(session, 1), (b"hear a\n", 10_000), (b"load a/\n", 1)],
            Some(BadName(10_002)),
        ),
        (
            &[(session, 1), (load, 10_000), (b"query\n", 1)],
            Some(TooManyCommands(20_002)),
        ),
        (
            &[(session, 1), (load, 9_999), (b"tell a\n", 2)],
            Some(MarkTwice(20_001)),
        ),
        (&[(&full, 6), (session, 1), (load, 5_536)], None),
        (
            &[(&full, 6), (session, 1), (load, 5_537)],
            Some(TooManyChanges(131_080)),
        ),
        (
            &[(session, 1), (b"load ", 1), (b"x", 64), (b"\n.\n", 1)],
            None,
        ),
        (
            &[(session, 1), (b"load ", 1), (b"x", 65), (b"\n.\n", 1)],
            Some(BadName(2)),
        ),
    ];
    for (pieces, fault) in rows {
        let script = script_of(rt.alloc(), pieces)?;
        assert_eq!(rt; read_workload(rt.alloc(), &script).err(), fault);
    }
    Ok(())
}

#[test]
fn a_script_of_64_mib_is_read_and_no_longer_one(rt: HostRuntime) -> Result<(), Fail> {
    for (len, fault) in [(67_108_864, None), (67_108_865, Some(InputTooLong))] {
        let script = vec![in rt.alloc(); b'#'; len]?;
        assert_eq!(rt; read_workload(rt.alloc(), &script).err(), fault);
    }
    Ok(())
}

#[test]
fn bodies_are_kept_and_texts_end_their_lines_alike(rt: HostRuntime) -> Result<(), Fail> {
    let script =
        b"session\r\nload x.1\r\nsession\r\n.x\r\n#\r\n.\r\nquery\r\na\r\n\r\n#b\n.\nsession\nhear m\ntell n\nsession\ntell m";
    let workload = read_workload(rt.alloc(), script)
        .ok()
        .ok_or("the workload")?;
    let [first, second, third] = workload.sessions.as_slice() else {
        return Err(Fail::from("three sessions"));
    };
    let [Command::Load { name, lines }, Command::Query { text }] = first.commands.as_slice() else {
        return Err(Fail::from("a load and a query"));
    };
    assert_eq!(rt; name.as_slice(), b"x.1".as_slice());
    assert_eq!(rt; lines.as_slice(), b"session\r\n.x\r\n#\r\n".as_slice());
    assert_eq!(rt; text.as_slice(), b"a\n\n#b\n".as_slice());
    let [
        Command::Hear {
            mark: heard,
            name: m,
        },
        Command::Tell { mark: n, .. },
    ] = second.commands.as_slice()
    else {
        return Err(Fail::from("a hear and a tell"));
    };
    let [Command::Tell { mark: told, .. }] = third.commands.as_slice() else {
        return Err(Fail::from("a tell"));
    };
    assert_eq!(rt; m.as_slice(), b"m".as_slice());
    assert_eq!(rt; (*heard, *n, *told, workload.marks), (1, 0, 1, 2));
    Ok(())
}

fn order_of(alloc: Global, script: &[u8]) -> Result<Vec<Turnstep>, Fail> {
    match read_workload(alloc, script) {
        Ok(workload) => Ok(schedule(alloc, &workload)?),
        Err(_fault) => Err(Fail::from("a script with a fault")),
    }
}

fn steps_of(alloc: Global, numbers: &[(u32, u32)]) -> Result<Vec<Turnstep>, AllocError> {
    let mut steps = Vec::new(alloc);
    for (session, command) in numbers {
        steps.push(Turnstep {
            session: *session,
            command: *command,
        })?;
    }
    Ok(steps)
}

#[test]
fn sessions_do_their_commands_in_rounds(rt: HostRuntime) -> Result<(), Fail> {
    let rows: [(&[u8], &[(u32, u32)]); 5] = [
        (b"session\nsession\n", &[]),
        (
            b"session\nquery\n.\nquery\n.\nsession\nquery\n.\n",
            &[(0, 0), (1, 0), (0, 1)],
        ),
        // The mark is told before the second session's turn in the second round, or behind it.
        (
            b"session\nload a\n.\ntell m\nsession\nhear m\nquery\n.\n",
            &[(0, 0), (0, 1), (1, 0), (1, 1)],
        ),
        (
            b"session\nhear m\nquery\n.\nsession\nload a\n.\ntell m\n",
            &[(1, 0), (1, 1), (0, 0), (0, 1)],
        ),
        // Two wait for one mark, on both sides of the session that tells it.
        (
            b"session\nhear m\nsession\nquery\n.\ntell m\nquery\n.\nsession\nhear m\ntell n\nsession\nhear n\n",
            &[(1, 0), (1, 1), (2, 0), (0, 0), (1, 2), (2, 1), (3, 0)],
        ),
    ];
    for (script, numbers) in rows {
        assert_eq!(rt;
            order_of(rt.alloc(), script)?,
            steps_of(rt.alloc(), numbers)?
        );
    }
    Ok(())
}

// 64 sessions, each of which but the last hears a mark of the next one, and then tells its own.
fn chain(alloc: Global) -> Result<Vec<u8>, AllocError> {
    let names = b"abcdefghijklmnopqrstuvwxyzABCDEFGHIJKLMNOPQRSTUVWXYZ0123456789-_";
    let mut script = Vec::new(alloc);
    for (at, name) in names.iter().enumerate() {
        script.extend_from_slice(b"session\n")?;
        if let Some(next) = names.get(at + 1) {
            script.extend_from_slice(&[b'h', b'e', b'a', b'r', b' ', *next, b'\n'])?;
        }
        script.extend_from_slice(&[b't', b'e', b'l', b'l', b' ', *name, b'\n'])?;
    }
    Ok(script)
}

#[test]
fn a_chain_of_64_sessions_goes_from_the_last_to_the_first(rt: HostRuntime) -> Result<(), Fail> {
    let mut steps = Vec::new(rt.alloc());
    steps.push(Turnstep {
        session: 63,
        command: 0,
    })?;
    for session in (0..63).rev() {
        steps.push(Turnstep {
            session,
            command: 0,
        })?;
        steps.push(Turnstep {
            session,
            command: 1,
        })?;
    }
    assert_eq!(rt; order_of(rt.alloc(), &chain(rt.alloc())?)?, steps);
    Ok(())
}
