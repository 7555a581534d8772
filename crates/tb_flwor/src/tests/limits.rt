//! That each limit of a query is kept exactly, by texts that are made by repetition.

use super::{Made, made_as_wanted, repeated};
use crate::QueryFault::{Syntax, TooLong, TooManyNodes, TooManyVariables, TooNested};
use std::test::Fail;

const RETURN: &[u8] = b"FOR $x IN document('d')//x RETURN ";

// A clause of one test, whose variable has another name each time.
pub const BINDING: &[u8] = b"LET $# := document('d')//a ";

#[test]
fn a_text_has_65536_bytes_at_most(rt: HostRuntime) -> Result<(), Fail> {
    let rows = [
        (repeated(b"", b" ", 65_536, b""), Some(Syntax(1))),
        (repeated(b"", b" ", 65_537, b""), Some(TooLong)),
    ];
    assert_eq!(rt; made_as_wanted(rt.alloc(), &rows), rows.len());
    Ok(())
}

// As many levels.
fn levels<'a>(prefix: &'a [u8], middle: &'a [u8], close: &'a [u8], times: u32) -> Made<'a> {
    Made {
        prefix,
        middle,
        close,
        times,
        back: b"",
    }
}

#[test]
fn thirty_two_levels_are_a_query_and_thirty_three_are_not(rt: HostRuntime) -> Result<(), Fail> {
    let edges = b"MATCH document('d') ";
    // In the last two rows a constructor is inside each.
    let inner = b"<a b='1'>'t'<c/>";
    let rows = [
        (levels(edges, b"(//- a ", b")", 32), None),
        (levels(edges, b"(//- a ", b")", 33), Some(TooNested)),
        (levels(RETURN, b"<a>", b"</a>", 32), None),
        (levels(RETURN, b"<a>", b"</a>", 33), Some(TooNested)),
        (levels(RETURN, inner, b"</a>", 31), None),
        (levels(RETURN, inner, b"</a>", 32), Some(TooNested)),
    ];
    assert_eq!(rt; made_as_wanted(rt.alloc(), &rows), rows.len());
    Ok(())
}

#[test]
fn tests_are_counted_and_constructors_are_not(rt: HostRuntime) -> Result<(), Fail> {
    let edges = b"MATCH document('d') (//- a";
    let steps = b"FOR $x IN document('d')/a";
    let outer = b"FOR $x IN document('d')//x RETURN <a>";
    let rows = [
        (repeated(edges, b", //- a", 63, b")"), None),
        (repeated(edges, b", //- a", 64, b")"), Some(TooManyNodes)),
        (repeated(steps, b"/a", 63, b" RETURN $x"), None),
        (
            repeated(steps, b"/a", 64, b" RETURN $x"),
            Some(TooManyNodes),
        ),
        (repeated(outer, b"<c/>", 1_000, b"</a>"), None),
    ];
    assert_eq!(rt; made_as_wanted(rt.alloc(), &rows), rows.len());
    Ok(())
}

#[test]
fn variables_of_all_clauses_are_counted_together(rt: HostRuntime) -> Result<(), Fail> {
    let path = b"RETURN document('d')//a";
    let first = b"FOR $x IN document('d')//x ";
    let last = b"GROUP BY $k := $x RETURN $k";
    let rows = [
        (repeated(b"", BINDING, 32, path), None),
        (repeated(b"", BINDING, 33, path), Some(TooManyVariables)),
        (repeated(first, BINDING, 30, last), None),
        (repeated(first, BINDING, 31, last), Some(TooManyVariables)),
    ];
    assert_eq!(rt; made_as_wanted(rt.alloc(), &rows), rows.len());
    Ok(())
}
