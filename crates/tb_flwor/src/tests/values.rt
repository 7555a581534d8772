//! That a text asks for the query that it should, field by field.

use super::told::tell;
use crate::{QueryFault, read_query};
use std::alloc::Global;
use std::process::Abort;
use std::test::Fail;
use tb_query::documents;

// Each text asks for the query that is told so.
fn are_told(rt: &impl Abort, alloc: Global, rows: &[(&[u8], &[u8])]) -> Result<(), Fail> {
    for (text, wanted) in rows {
        let query = read_query(alloc, text).map_err(|_fault| "refused")?;
        let told = tell(alloc, &query).map_err(|_fault| "memory")?;
        assert_eq!(rt; told.as_slice(), *wanted);
    }
    Ok(())
}

#[test]
fn variables_are_numbered_in_the_order_of_their_bindings(rt: HostRuntime) -> Result<(), Fail> {
    let rows: [(&[u8], &[u8]); 3] = [
        (
            b"FOR $b IN document('d')//b, $c ALLOWING EMPTY IN $b/c LET $t := $b//t \
              FOR $e IN $t/e GROUP BY $k := $c/@y RETURN $k",
            b"for $0 in doc(d) descendant b; for $1 or empty in $0 child c; \
              let $2 is $0 descendant t; for $3 in $2 child e; \
              group $4 by $1 child @y; back $4; ",
        ),
        (
            b"let $z := document('d')/z for $a in $z/a, $m allowing empty in $z/m return $m/n",
            b"let $0 is doc(d) child z; for $1 in $0 child a; \
              for $2 or empty in $0 child m; back $2 child n; ",
        ),
        (
            b"FOR $x IN document('d')/x, $X IN document('e')/x GROUP BY $g := $X RETURN $x",
            b"for $0 in doc(d) child x; for $1 in doc(e) child x; group $2 by $1; back $0; ",
        ),
    ];
    are_told(&rt, rt.alloc(), &rows)
}

#[test]
fn a_path_has_its_axes_and_tests_in_order(rt: HostRuntime) -> Result<(), Fail> {
    let rows: [(&[u8], &[u8]); 3] = [
        (
            b"LET $x := document(\"d e\")/a//b/*//*/@c//@d/@*//@*/text()//TEXT() RETURN $x//x",
            b"let $0 is doc(d e) child a descendant b child * descendant * child @c \
              descendant @d child @* descendant @* child text() descendant text(); \
              back $0 descendant x; ",
        ),
        (
            b"FOR $x IN document('')/FOR/@IN//return RETURN document('it\"s')//a:b-c",
            b"for $0 in doc() child FOR child @IN descendant return; \
              back doc(it\"s) descendant a:b-c; ",
        ),
        (
            b"FOR $x IN document('d')/RETURN/@RETURN RETURN $x/RETURN",
            b"for $0 in doc(d) child RETURN child @RETURN; back $0 child RETURN; ",
        ),
    ];
    are_told(&rt, rt.alloc(), &rows)
}

#[test]
fn a_condition_has_its_sign_and_what_stands_behind_it(rt: HostRuntime) -> Result<(), Fail> {
    let rows: [(&[u8], &[u8]); 3] = [
        (
            b"FOR $x IN document('d')/a WHERE $x = 1 AND $x != -2 AND $x < 03 AND $x <= - 4 \
              AND $x > '5' AND $x >= \"x AND y\" RETURN $x",
            b"for $0 in doc(d) child a; where $0 = 1; where $0 != -2; where $0 < 3; \
              where $0 <= -4; where $0 > '5'; where $0 >= 'x AND y'; back $0; ",
        ),
        (
            b"FOR $x IN document('d')/a WHERE $x/@y = $x//z AND document('e')/b != '' \
              AND COUNT($x) < sum($x/a) AND min($x) >= MAX(document('d')/a) AND $x = -0 RETURN $x",
            b"for $0 in doc(d) child a; where $0 child @y = $0 descendant z; \
              where doc(e) child b != ''; where count($0) < sum($0 child a); \
              where min($0) >= max(doc(d) child a); where $0 = 0; back $0; ",
        ),
        (
            b"FOR $x IN document('d')/a WHERE $x = 170141183460469231731687303715884105727 \
              AND $x = -170141183460469231731687303715884105728 RETURN $x",
            b"for $0 in doc(d) child a; where $0 = 170141183460469231731687303715884105727; \
              where $0 = -170141183460469231731687303715884105728; back $0; ",
        ),
    ];
    are_told(&rt, rt.alloc(), &rows)
}

#[test]
fn a_key_descends_only_where_it_says_so(rt: HostRuntime) -> Result<(), Fail> {
    let rows: [(&[u8], &[u8]); 2] = [
        (
            b"FOR $x IN document('d')/a ORDER BY $x RETURN $x",
            b"for $0 in doc(d) child a; key $0 up; back $0; ",
        ),
        (
            b"FOR $x IN document('d')/a GROUP BY $k := $x/k ORDER BY $k DESCENDING, \
              count($x) ASCENDING, SUM($x/b), min($x//b) descending, MAX($x) RETURN $k",
            b"for $0 in doc(d) child a; group $1 by $0 child k; key $1 down; \
              key count($0) up; key sum($0 child b) up; key min($0 descendant b) down; \
              key max($0) up; back $1; ",
        ),
    ];
    are_told(&rt, rt.alloc(), &rows)
}

#[test]
fn a_constructor_has_its_attributes_and_parts_in_order(rt: HostRuntime) -> Result<(), Fail> {
    let rows: [(&[u8], &[u8]); 3] = [
        (
            b"FOR $x IN document('d')/a RETURN <r/>",
            b"for $0 in doc(d) child a; back r[](); ",
        ),
        (
            b"FOR $x IN document('d')/a RETURN <r></r>",
            b"for $0 in doc(d) child a; back r[](); ",
        ),
        (
            b"FOR $x IN document('d')/a RETURN <r k={$x/@y} n='1' m=\"it's\"><s/>'t'{count($x)}\
              <u v={max($x)}>{$x/text()}<FOR IN=''></FOR></u>\"w\"{document('e')//b}</r>",
            b"for $0 in doc(d) child a; back r[k=$0 child @y n='1' m='it's' ](s[]() 't' count($0) \
              u[v=max($0) ]($0 child text() FOR[IN='' ]() ) 'w' doc(e) descendant b ); ",
        ),
    ];
    are_told(&rt, rt.alloc(), &rows)
}

#[test]
fn a_match_query_asks_for_its_pattern(rt: HostRuntime) -> Result<(), Fail> {
    let rows: [(&[u8], &[u8]); 8] = [
        (
            b"MATCH document(\"d\") (//- a (//- b))\n",
            b"match d: descendant one a (descendant one b; ) ",
        ),
        (
            b"match document('d') (//- a [>= 3 AND != 'x']! (/? @b, //* text()), /+ FOR)",
            b"match d: descendant one a [>= 3] [!= 'x'] ! \
              (child optional @b; descendant any text(); ) child some FOR; ",
        ),
        (
            b"match document(\"d\") (/- a, /?*, /+ @b, //* @ *, //-text(), /- FOR)",
            b"match d: child one a; child optional *; child some @b; descendant any @*; \
              descendant one text(); child one FOR; ",
        ),
        (
            b"MATCH document('it\"s') (/- a (/- b (/- c), /? d), /- e)",
            b"match it\"s: \
              child one a (child one b (child one c; ) child optional d; ) child one e; ",
        ),
        (
            b"MATCH document('') (/- a!, /- b ! (/- c), /- d (/- e!))",
            b"match : \
              child one a !; child one b ! (child one c; ) child one d (child one e !; ) ",
        ),
        (
            b"MATCH document('d') (/-a[= 1 AND != -2 AND < 03 AND <= - 4 AND > 5 AND >= '-6'])",
            b"match d: child one a [= 1] [!= -2] [< 3] [<= -4] [> 5] [>= '-6']; ",
        ),
        (
            b"MATCH document('d') (/- a [= 170141183460469231731687303715884105727]!, \
              /- b [= -170141183460469231731687303715884105728])",
            b"match d: child one a [= 170141183460469231731687303715884105727] !; \
              child one b [= -170141183460469231731687303715884105728]; ",
        ),
        (
            b"MATCH document('d') (/- a [= -0 AND = '' AND = \"x AND y\"])",
            b"match d: child one a [= 0] [= ''] [= 'x AND y']; ",
        ),
    ];
    are_told(&rt, rt.alloc(), &rows)
}

// The names of the documents in the query that the text asks for, each with `;` behind it.
fn names_in(alloc: Global, text: &[u8]) -> Result<Vec<u8>, QueryFault> {
    let query = read_query(alloc, text)?;
    let mut told = Vec::new(alloc);
    for name in &documents(alloc, &query)? {
        told.extend_from_slice(name.as_slice())?;
        told.push(b';')?;
    }
    Ok(told)
}

#[test]
fn a_query_names_its_documents_once_in_order(rt: HostRuntime) -> Result<(), Fail> {
    let rows: [(&[u8], &[u8]); 3] = [
        (
            b"FOR $x IN document(\"p\")//i, $y IN document(\"q\")//i WHERE $x != $y \
              RETURN <t>{$x}{$y}</t>",
            b"p;q;",
        ),
        (
            b"LET $x := document('b')/x FOR $y IN document('a')/y WHERE document('b')/z = $y \
              RETURN <t u={document('c')/v}/>",
            b"b;a;c;",
        ),
        (b"MATCH document('m') (/- r)", b"m;"),
    ];
    for (text, wanted) in rows {
        let names = names_in(rt.alloc(), text).map_err(|_fault| "refused")?;
        assert_eq!(rt; names.as_slice(), wanted);
    }
    Ok(())
}
