//! Plans that join documents by value. No two documents stand side by side without a join behind the second.

use super::are_planned;
use std::test::Fail;

#[test]
fn two_documents_are_joined_whichever_side_is_first(rt: HostRuntime) -> Result<(), Fail> {
    let rows: [(&[u8], &[u8]); 4] = [
        (
            b"FOR $x IN document('p')//i, $y IN document('q')//i WHERE $x = $y RETURN <t>{$x}{$y}</t>",
            b"each p//i; all .0; each q//i; all .2; join .1 .3; \
              all .0; all .2; keep .4 = .5; all .0; all .2; make t (.6.7); ",
        ),
        (
            b"FOR $x IN document('p')//i, $y IN document('q')//i WHERE $y/k = $x/k RETURN $y",
            b"each p//i; all .0/k; each q//i; all .2/k; join .1 .3; \
              all .2/k; all .0/k; keep .4 = .5; all .2; give .6; ",
        ),
        (
            b"FOR $x IN document('p')//i, $y ALLOWING EMPTY IN document('q')//i LET $k := $y/k \
              WHERE $x/n = 3 AND $x/k = $k RETURN $k",
            b"each p//i; all .0/k; each or none q//i; all .2/k; join .1 .3; \
              all .0/n; keep .4 = 3; all .0/k; all .2/k; keep .5 = .6; all .2/k; give .7; ",
        ),
        (
            b"FOR $x IN document('p')//i, $y IN document('q')//i \
              WHERE sum($x/v) > 3 AND $x/k = $y/k RETURN $y",
            b"each p//i; all .0/k; each q//i; all .2/k; join .1 .3; \
              all .0/k; all .2/k; keep .4 = .5; all .0/v; sum .6; keep .7 > 3; all .2; give .8; ",
        ),
    ];
    are_planned(&rt, rt.alloc(), &rows)
}

#[test]
fn a_chain_of_three_is_joined_twice(rt: HostRuntime) -> Result<(), Fail> {
    let rows: [(&[u8], &[u8]); 1] = [(
        b"FOR $x IN document('p')//i, $y IN document('q')//i, $z IN document('r')//i \
          WHERE $z/k = $y/j AND $x/k = $y/k RETURN $z",
        b"each p//i; all .0/k; each q//i; all .2/k; join .1 .3; \
          all .2/j; each r//i; all .5/k; join .4 .6; \
          all .5/k; all .2/j; keep .7 = .8; all .0/k; all .2/k; keep .9 = .10; all .5; give .11; ",
    )];
    are_planned(&rt, rt.alloc(), &rows)
}

#[test]
fn what_is_no_tie_isnt_joined(rt: HostRuntime) -> Result<(), Fail> {
    let rows: [(&[u8], &[u8]); 4] = [
        (
            b"FOR $x IN document('p')//i, $y IN document('q')//i WHERE $x < $y RETURN $y",
            b"each p//i; each q//i; all .0; all .1; keep .2 < .3; all .1; give .4; ",
        ),
        (
            b"FOR $x IN document('p')//i, $y IN document('q')//i WHERE count($x/k) = $y RETURN $y",
            b"each p//i; each q//i; all .0/k; count .2; all .1; keep .3 = .4; all .1; give .5; ",
        ),
        (
            b"FOR $x IN document('p')//i, $y IN $x//i WHERE $x/k = $y/k RETURN $y",
            b"each p//i; each .0//i; all .0/k; all .1/k; keep .2 = .3; all .1; give .4; ",
        ),
        (
            b"FOR $x IN document('p')//i, $y IN document('q')//i WHERE $y/j = $y/k RETURN $y",
            b"each p//i; each q//i; all .1/j; all .1/k; keep .2 = .3; all .1; give .4; ",
        ),
    ];
    are_planned(&rt, rt.alloc(), &rows)
}
