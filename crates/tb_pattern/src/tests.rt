//! What no clause says: that the words of the definitions mean what they should, by faults found by
//! hand, and that a query is read with ample memory. `tb_flwor` tells patterns by hand, too.

use crate::PatternFault::{LiteralPast, NoMemory, Syntax, TooManyNodes, TooNested};
use crate::{Pattern, PatternFault, read_pattern};
use std::alloc::{AllocError, Global};
use std::test::Fail;
use tb_token::tokens;

fn read(alloc: Global, text: &[u8]) -> Result<Pattern, PatternFault> {
    if text.len() > 65_536 {
        return Err(NoMemory);
    }
    let found = tokens(alloc, text).map_err(|_fault| NoMemory)?;
    read_pattern(alloc, text, found.as_slice())
}

// The prefix, so many times the middle, and the back.
fn repeated(
    alloc: Global,
    prefix: &[u8],
    middle: &[u8],
    times: usize,
    back: &[u8],
) -> Result<Vec<u8>, AllocError> {
    let mut text = Vec::new(alloc);
    text.extend_from_slice(prefix)?;
    for _turn in 0..times {
        text.extend_from_slice(middle)?;
    }
    text.extend_from_slice(back)?;
    Ok(text)
}

#[test]
fn the_first_fault_is_told(rt: HostRuntime) -> Result<(), Fail> {
    let rows: [(&[u8], Option<PatternFault>); 10] = [
        (
            b"MATCH document('d') (//- a [>= 3 AND < - 4]! (/? @b, //* text()), /+ FOR)",
            None,
        ),
        (
            b"match DOCUMENT('d') (/- a [= -170141183460469231731687303715884105728])",
            None,
        ),
        (
            b"MATCH document('d') (/- a [= 170141183460469231731687303715884105728])",
            Some(LiteralPast(12)),
        ),
        (b"", Some(Syntax(1))),
        (b"FOR $x", Some(Syntax(1))),
        (b"MATCH document('d')", Some(Syntax(6))),
        (b"MATCH document('d') ()", Some(Syntax(7))),
        (b"MATCH document('d') (/- a (/- b)", Some(Syntax(15))),
        (b"MATCH document('d') (/- a) (/- b)", Some(Syntax(11))),
        (b"MATCH document('d') (/- text ())", Some(Syntax(11))),
    ];
    for (text, wanted) in rows {
        assert_eq!(rt; read(rt.alloc(), text).err(), wanted);
    }
    Ok(())
}

#[test]
fn wide_and_deep_queries_are_refused(rt: HostRuntime) -> Result<(), Fail> {
    let prefix = b"MATCH document('d') (/-a";
    let rows: [(&[u8], usize, &[u8], Option<PatternFault>); 6] = [
        (b",/-a", 63, b")", None),
        (b",/-a", 64, b")", Some(TooManyNodes)),
        (b"(/-a", 16_000, b"", Some(Syntax(64_010))),
        (b",(", 1, b"", Some(Syntax(11))),
        (
            b",/-a[=170141183460469231731687303715884105728]",
            64,
            b")",
            Some(TooManyNodes),
        ),
        (
            b",/-a[=170141183460469231731687303715884105728]",
            63,
            b")",
            Some(LiteralPast(16)),
        ),
    ];
    for (middle, times, back, wanted) in rows {
        let text = repeated(rt.alloc(), prefix, middle, times, back).map_err(|_fault| "memory")?;
        assert_eq!(rt; read(rt.alloc(), text.as_slice()).err(), wanted);
    }
    for (times, wanted) in [(31, None), (32, Some(TooNested))] {
        let closed = repeated(rt.alloc(), b")", b")", times, b"").map_err(|_fault| "memory")?;
        let deep = repeated(rt.alloc(), prefix, b"(/-a", times, closed.as_slice());
        let deep = deep.map_err(|_fault| "memory")?;
        assert_eq!(rt; read(rt.alloc(), deep.as_slice()).err(), wanted);
    }
    Ok(())
}
