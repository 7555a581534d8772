//! What no clause says: that texts whose faults were found by hand are told with ample memory, and
//! that long ones are.

use super::{Made, repeated};
use crate::constructors::{first_repeated_attribute, first_wrong_tag, is_nested, results};
use crate::variables::{bound, first_repeated, first_unknown, is_match};
use std::alloc::{AllocError, Global};
use std::test::Fail;
use tb_token::{lexemes, tokens};

// What the calls find: how many names are bound, and the numbers of tokens, or 0 for none.
#[derive(Clone, Copy, Debug, PartialEq)]
struct Found {
    bound: usize,
    repeated: u32,
    unknown: u32,
    nested: bool,
    wrong_tag: u32,
    attribute: u32,
}

const NOTHING: Found = Found {
    bound: 1,
    repeated: 0,
    unknown: 0,
    nested: false,
    wrong_tag: 0,
    attribute: 0,
};

fn found_in(alloc: Global, text: &[u8]) -> Result<Found, AllocError> {
    if text.len() > 65_536 {
        return Err(AllocError);
    }
    let Ok(cut) = tokens(alloc, text) else {
        return Err(AllocError);
    };
    let read = lexemes(alloc, text, cut.as_slice())?;
    let query = read.as_slice();
    if is_match(query) {
        return Err(AllocError);
    }
    let made = results(query);
    Ok(Found {
        bound: bound(alloc, query)?.len(),
        repeated: first_repeated(alloc, query)?.unwrap_or(0),
        unknown: first_unknown(alloc, query)?.unwrap_or(0),
        nested: is_nested(made),
        wrong_tag: first_wrong_tag(alloc, made)?.unwrap_or(0),
        attribute: first_repeated_attribute(alloc, made)?.unwrap_or(0),
    })
}

#[test]
fn each_fault_is_told_by_its_token(rt: HostRuntime) -> Result<(), Fail> {
    let rows: [(&[u8], Found); 9] = [
        (b"FOR $x IN document('d')//x RETURN $x", NOTHING),
        (
            b"FOR $b IN document('d')//b, $c ALLOWING EMPTY IN $b/c LET $t := $b/t \
              WHERE $b/@y > 5 AND count($c) >= max($t) GROUP BY $k := $b/@y ORDER BY $k \
              RETURN <r k={$k} n='1'><s/>'t'{count($c)}<u n='1'>{$b/text()}</u></r>",
            Found {
                bound: 4,
                ..NOTHING
            },
        ),
        (
            b"for $x in $x/a return $x",
            Found {
                unknown: 4,
                ..NOTHING
            },
        ),
        (
            b"FOR $x IN document('d')/a WHERE $k = 1 GROUP BY $k := $x RETURN $k",
            Found {
                bound: 2,
                unknown: 11,
                ..NOTHING
            },
        ),
        (
            b"FOR $x IN document('d')/a, $x IN $x/b RETURN $x",
            Found {
                bound: 2,
                repeated: 11,
                ..NOTHING
            },
        ),
        (
            b"FOR $x IN document('d')/a RETURN $X",
            Found {
                unknown: 11,
                ..NOTHING
            },
        ),
        (
            b"FOR $x IN document('d')/RETURN RETURN <a b='1' c='2' b='3'></A>",
            Found {
                wrong_tag: 24,
                attribute: 19,
                ..NOTHING
            },
        ),
        (
            b"FOR $x IN document('d')/a WHERE $x < 3 RETURN <a><b/></a>",
            NOTHING,
        ),
        (
            b"FOR $x IN document('d')/a RETURN <a><b></a></b>",
            Found {
                wrong_tag: 18,
                ..NOTHING
            },
        ),
    ];
    for (text, wanted) in rows {
        let found = found_in(rt.alloc(), text).map_err(|_fault| "memory")?;
        assert_eq!(rt; found, wanted);
    }
    Ok(())
}

fn found_in_made(alloc: Global, made: &Made) -> Result<Found, AllocError> {
    let text = made.text(alloc)?;
    found_in(alloc, text.as_slice())
}

#[test]
fn long_texts_are_told(rt: HostRuntime) -> Result<(), Fail> {
    let prefix = b"FOR $x IN document('d')/a RETURN ";
    let rows = [
        (repeated(prefix, b"<a>", 32, b""), NOTHING),
        (
            repeated(prefix, b"<a>", 33, b""),
            Found {
                nested: true,
                ..NOTHING
            },
        ),
        (
            repeated(prefix, b"<a>", 21_000, b"</b>"),
            Found {
                nested: true,
                wrong_tag: 63_012,
                ..NOTHING
            },
        ),
        (
            repeated(
                b"FOR $x IN document('d')/a RETURN <a",
                b" #=''",
                9_000,
                b" aaa=''/>",
            ),
            Found {
                attribute: 27_013,
                ..NOTHING
            },
        ),
        (
            repeated(
                b"FOR $x IN document('d')/a",
                b",$# IN $x/b",
                500,
                b",$aaa IN $x/b RETURN $x",
            ),
            Found {
                bound: 502,
                repeated: 3_011,
                ..NOTHING
            },
        ),
        (
            repeated(
                b"FOR $x IN document('d')/a WHERE ",
                b"$x=$x AND ",
                6_000,
                b"$y=$x RETURN $x",
            ),
            Found {
                unknown: 24_011,
                ..NOTHING
            },
        ),
    ];
    for (made, wanted) in &rows {
        let found = found_in_made(rt.alloc(), made).map_err(|_fault| "memory")?;
        assert_eq!(rt; found, *wanted);
    }
    Ok(())
}
