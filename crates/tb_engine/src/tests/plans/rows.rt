//! Plans without joins.

use super::are_planned;
use std::test::Fail;

#[test]
fn a_pattern_is_alone(rt: HostRuntime) -> Result<(), Fail> {
    let rows: [(&[u8], &[u8]); 1] = [(b"MATCH document('n') (//- a (//- a))", b"match; ")];
    are_planned(&rt, rt.alloc(), &rows)
}

#[test]
fn a_variable_has_a_column_of_its_nodes(rt: HostRuntime) -> Result<(), Fail> {
    let rows: [(&[u8], &[u8]); 5] = [
        (
            b"FOR $y IN document('d')//x//y RETURN $y",
            b"each d//x//y; all .0; give .1; ",
        ),
        (
            b"FOR $x IN document('none')//x RETURN $x",
            b"each none//x; all .0; give .1; ",
        ),
        (
            b"FOR $n IN document('x')/* RETURN $n",
            b"each x/*; all .0; give .1; ",
        ),
        (
            b"FOR $a IN document('e')/a RETURN $a",
            b"each e/a; all .0; give .1; ",
        ),
        (
            b"FOR $b IN document('m')//b, $c ALLOWING EMPTY IN $b/c RETURN <t>{$c}</t>",
            b"each m//b; each or none .0/c; all .1; make t (.2); ",
        ),
    ];
    are_planned(&rt, rt.alloc(), &rows)
}

#[test]
fn operands_have_columns_where_they_are_tested(rt: HostRuntime) -> Result<(), Fail> {
    let rows: [(&[u8], &[u8]); 4] = [
        (
            b"FOR $v IN document('k')//v WHERE $v = 7 RETURN $v/text()",
            b"each k//v; all .0; keep .1 = 7; all .0/text(); give .2; ",
        ),
        (
            b"FOR $b IN document('m')//b, $c ALLOWING EMPTY IN $b/c WHERE $c = 'x' RETURN <t>{$c}</t>",
            b"each m//b; each or none .0/c; all .1; keep .2 = x; all .1; make t (.3); ",
        ),
        (
            b"FOR $x IN document('p')//i, $y IN document('q')//i WHERE $x != $y RETURN <t>{$x}{$y}</t>",
            b"each p//i; each q//i; all .0; all .1; keep .2 != .3; all .0; all .1; make t (.4.5); ",
        ),
        (
            b"FOR $r IN document('s')/r WHERE sum($r/v) > 3 AND $r/v = 1 RETURN <t>{max($r/v)}</t>",
            b"each s/r; all .0/v; keep .1 = 1; all .0/v; sum .2; keep .3 > 3; all .0/v; max .4; make t (.5); ",
        ),
    ];
    are_planned(&rt, rt.alloc(), &rows)
}

#[test]
fn groups_and_orders_stand_behind_conditions(rt: HostRuntime) -> Result<(), Fail> {
    let rows: [(&[u8], &[u8]); 4] = [
        (
            b"FOR $b IN document('bib')//BOOK WHERE $b/@YEAR > 1995 ORDER BY $b/TITLE \
              RETURN <hit year={$b/@YEAR}>{$b/TITLE}<n>{count($b/AUTHOR)}</n></hit>",
            b"each bib//BOOK; all .0/@YEAR; keep .1 > 1995; all .0/TITLE; order up .2; \
              all .0/@YEAR; all .0/TITLE; all .0/AUTHOR; count .5; make hit year=.3 (.4make n (.6)); ",
        ),
        (
            b"FOR $b IN document('bib')//BOOK, $a IN $b/AUTHOR GROUP BY $k := $b/@YEAR \
              RETURN <y v={$k} n={count($a)}/>",
            b"each bib//BOOK; each .0/AUTHOR; all .0/@YEAR; group .2; \
              all .3; all .1; count .5; make y v=.4 n=.6 (); ",
        ),
        (
            b"FOR $b IN document('l')//b GROUP BY $k := $b/a ORDER BY count($b) DESCENDING, $k RETURN $k",
            b"each l//b; all .0/a; group .1; all .0; count .3; all .2; order down .4 up .5; all .2; give .6; ",
        ),
        (
            b"FOR $r IN document('s')/r RETURN <t>{sum($r/v)}</t>",
            b"each s/r; all .0/v; sum .1; make t (.2); ",
        ),
    ];
    are_planned(&rt, rt.alloc(), &rows)
}

#[test]
fn a_variable_of_let_stands_for_its_path(rt: HostRuntime) -> Result<(), Fail> {
    let rows: [(&[u8], &[u8]); 2] = [
        (
            b"LET $d := document('d')/r FOR $x IN $d/x LET $y := $x/y LET $z := $y/z WHERE $z = 1 RETURN $y",
            b"each d/r/x; all .0/y/z; keep .1 = 1; all .0/y; give .2; ",
        ),
        (
            b"FOR $x IN document('d')/x LET $y := $x/y GROUP BY $k := $y RETURN <t>{$y}{$k}</t>",
            b"each d/x; all .0/y; group .1; all .0/y; all .2; make t (.3.4); ",
        ),
    ];
    are_planned(&rt, rt.alloc(), &rows)
}
