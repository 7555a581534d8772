//! That of two faults the earlier kind is told, though the later kind's stands before it in the text
//! where that can be.

use super::limits::BINDING;
use super::{Made, faults_as_wanted, made_as_wanted, repeated};
use crate::QueryFault;
use crate::QueryFault::{
    BadByte, LiteralPast, OpenString, RepeatedVariable, Syntax, TooLong, TooManyNodes,
    TooManyVariables, TooNested, UnknownVariable, WrongTag,
};
use std::alloc::{AllocError, Global};
use std::test::Fail;

#[test]
fn of_two_faults_the_earlier_kind_is_told(rt: HostRuntime) -> Result<(), Fail> {
    let rows: [(&[u8], Option<QueryFault>); 10] = [
        (b"# \"", Some(BadByte(0))),
        (b"\"# ", Some(OpenString(0))),
        (b") #", Some(BadByte(2))),
        (
            b"FOR $x IN document('d')//x RETURN <a></b> $x",
            Some(Syntax(17)),
        ),
        (
            b"FOR $x IN $y/a, $x IN $x/a RETURN <a b='1' b='2'></c> )",
            Some(Syntax(26)),
        ),
        (
            b"FOR $x IN document('d')//x, $x IN document('d')//x RETURN $y",
            Some(UnknownVariable(20)),
        ),
        (
            b"FOR $x IN document('d')//x WHERE $x = 170141183460469231731687303715884105728 \
              GROUP BY $x := $x RETURN $x",
            Some(RepeatedVariable(16)),
        ),
        (
            b"FOR $x IN document('d')//x WHERE $x = 170141183460469231731687303715884105728 \
              GROUP BY $k := $y RETURN $x",
            Some(UnknownVariable(18)),
        ),
        (
            b"FOR $x IN document('d')//x WHERE $x = 170141183460469231731687303715884105728 \
              RETURN <a></b>",
            Some(LiteralPast(13)),
        ),
        (
            b"FOR $x IN document('d')//x RETURN <a b=\"1\" b=\"2\"></c>",
            Some(WrongTag(21)),
        ),
    ];
    assert_eq!(rt; faults_as_wanted(rt.alloc(), &rows), rows.len());
    Ok(())
}

// The fault of a text inside another, whose prefix is made first.
fn fault_behind(
    alloc: Global,
    prefix: &Made,
    deep: &Made,
) -> Result<Option<QueryFault>, AllocError> {
    let prefix = prefix.text(alloc)?;
    let whole = Made {
        prefix: prefix.as_slice(),
        ..*deep
    };
    Ok(whole.fault(alloc))
}

// The fault where so many constructors are inside each other behind 65 tests.
fn fault_of_constructors(alloc: Global, levels: u32) -> Result<Option<QueryFault>, AllocError> {
    let prefix = repeated(b"FOR $x IN document('d')", b"/a", 65, b" RETURN ");
    let deep = Made {
        close: b"</a>",
        ..repeated(b"", b"<a>", levels, b"")
    };
    fault_behind(alloc, &prefix, &deep)
}

// The fault where so many nodes are inside each other behind 65 tests side by side.
fn fault_of_edges(alloc: Global, levels: u32) -> Result<Option<QueryFault>, AllocError> {
    let prefix = repeated(b"MATCH document('d') (//- a", b", //- a", 64, b"");
    let deep = Made {
        close: b")",
        ..repeated(b"", b" (//- a", levels, b")")
    };
    fault_behind(alloc, &prefix, &deep)
}

#[test]
fn tests_before_deep_nodes_yield_to_them(rt: HostRuntime) -> Result<(), Fail> {
    for (levels, wanted) in [(32, TooManyNodes), (33, TooNested)] {
        assert_eq!(rt; fault_of_constructors(rt.alloc(), levels)?, Some(wanted));
        assert_eq!(rt; fault_of_edges(rt.alloc(), levels - 1)?, Some(wanted));
    }
    Ok(())
}

// The fault where 33 bindings have a test each, and a path so many more.
fn fault_of_bindings(alloc: Global, steps: u32) -> Result<Option<QueryFault>, AllocError> {
    let back = repeated(b"RETURN document('d')", b"/a", steps, b"").text(alloc)?;
    Ok(repeated(b"", BINDING, 33, back.as_slice()).fault(alloc))
}

#[test]
fn variables_yield_to_tests_behind_them(rt: HostRuntime) -> Result<(), Fail> {
    for (steps, wanted) in [(31, TooManyVariables), (32, TooManyNodes)] {
        assert_eq!(rt; fault_of_bindings(rt.alloc(), steps)?, Some(wanted));
    }
    Ok(())
}

#[test]
fn what_comes_first_yields_to_what_is_tried_first(rt: HostRuntime) -> Result<(), Fail> {
    let unknown = b"FOR $x IN $y/a ";
    let back = b"RETURN $x";
    let results = b"FOR $x IN document('d')//x RETURN ";
    let edges = b"MATCH document('d') ";
    let rows = [
        // a bad byte, and the length
        (repeated(b"#", b" ", 65_535, b""), Some(BadByte(0))),
        (repeated(b"#", b" ", 65_536, b""), Some(TooLong)),
        // nesting, and syntax behind it
        (repeated(results, b"<a>", 33, b""), Some(Syntax(110))),
        (repeated(edges, b"(//- a ", 33, b""), Some(Syntax(138))),
        // an unknown variable, and bindings behind it
        (
            repeated(unknown, BINDING, 31, back),
            Some(UnknownVariable(4)),
        ),
        (repeated(unknown, BINDING, 32, back), Some(TooManyVariables)),
    ];
    assert_eq!(rt; made_as_wanted(rt.alloc(), &rows), rows.len());
    Ok(())
}
