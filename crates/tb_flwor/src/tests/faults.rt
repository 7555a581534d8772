//! That each fault is told by its token, by texts whose tokens were counted by hand.

use super::faults_as_wanted;
use crate::QueryFault;
use crate::QueryFault::{
    BadByte, LiteralPast, OpenString, RepeatedAttribute, RepeatedVariable, Syntax, UnknownVariable,
    WrongTag,
};
use std::test::Fail;

#[test]
fn each_fault_is_told_at_its_place(rt: HostRuntime) -> Result<(), Fail> {
    let rows: [(&[u8], Option<QueryFault>); 20] = [
        (
            b"FOR $x IN document(\"d\")//x # RETURN $x",
            Some(BadByte(27)),
        ),
        (b"\"abc", Some(OpenString(0))),
        (b"FOR $x IN document(\"d)", Some(OpenString(19))),
        (b"FOR $x IN document(\"d\")//x RETURN", Some(Syntax(11))),
        (b")", Some(Syntax(1))),
        (b" \t\r\n", Some(Syntax(1))),
        (b"", Some(Syntax(1))),
        (b"MATCH document(\"d\") (/- a) (/- b)", Some(Syntax(11))),
        (
            b"FOR $x IN document(\"d\")//x RETURN $y",
            Some(UnknownVariable(11)),
        ),
        (b"FOR $x IN $x/a RETURN $x", Some(UnknownVariable(4))),
        (
            b"FOR $x IN document(\"d\")/a WHERE $k = 1 GROUP BY $k := $x RETURN $k",
            Some(UnknownVariable(11)),
        ),
        (
            b"FOR $x IN document(\"d\")//x, $x IN document(\"d\")//x RETURN $x",
            Some(RepeatedVariable(11)),
        ),
        (
            b"FOR $x IN document(\"d\")//x GROUP BY $x := $x RETURN $x",
            Some(RepeatedVariable(12)),
        ),
        (
            b"MATCH document(\"d\") (//- v [= 170141183460469231731687303715884105728])",
            Some(LiteralPast(12)),
        ),
        (
            b"FOR $x IN document(\"d\")//x WHERE $x = -170141183460469231731687303715884105729 \
              RETURN $x",
            Some(LiteralPast(14)),
        ),
        (
            b"FOR $x IN document(\"d\")//x RETURN <a></b>",
            Some(WrongTag(15)),
        ),
        (
            b"FOR $x IN document(\"d\")//x RETURN <a><b></a></b>",
            Some(WrongTag(18)),
        ),
        (
            b"FOR $x IN document(\"d\")//x RETURN <a></A>",
            Some(WrongTag(15)),
        ),
        (
            b"FOR $x IN document(\"d\")//x RETURN <a b=\"1\" b=\"2\"/>",
            Some(RepeatedAttribute(16)),
        ),
        (
            b"FOR $x IN document(\"d\")//x RETURN <a b=\"1\"><c b={$x} d=\"2\" b=\"3\"/></a>",
            Some(RepeatedAttribute(27)),
        ),
    ];
    assert_eq!(rt; faults_as_wanted(rt.alloc(), &rows), rows.len());
    Ok(())
}

#[test]
fn what_comes_near_a_fault_is_a_query(rt: HostRuntime) -> Result<(), Fail> {
    let rows: [(&[u8], Option<QueryFault>); 6] = [
        (b"FOR $x IN document(\"d\")//x, $X IN $x/a RETURN $X", None),
        (b"FOR $x IN document(\"#'$\")//x RETURN $x", None),
        (
            b"MATCH document(\"d\") (//- v [= 170141183460469231731687303715884105727])",
            None,
        ),
        (
            b"MATCH document(\"d\") (//- v [= -170141183460469231731687303715884105728])",
            None,
        ),
        (
            b"FOR $x IN document(\"d\")//x RETURN <a><a></a><b/></a>",
            None,
        ),
        (
            b"FOR $x IN document(\"d\")//x RETURN <a b=\"1\" B=\"1\"><a b=\"1\"/></a>",
            None,
        ),
    ];
    assert_eq!(rt; faults_as_wanted(rt.alloc(), &rows), rows.len());
    Ok(())
}
