//! What no clause says: that texts whose wrong token, fault or query was found by hand are read with
//! ample memory, and that long and deep ones are.

use crate::{QueryFault, first_wrong_query, read_query};
use std::alloc::{AllocError, Global};
use std::test::Fail;
use tb_token::{lexemes, tokens};

mod faults;
mod limits;
mod neighbours;
mod scope;
mod told;
mod values;

// The number of the wrong token, or 0 for a query.
fn wrong_in(alloc: Global, text: &[u8]) -> Result<u32, AllocError> {
    if text.len() > 65_536 {
        return Err(AllocError);
    }
    let Ok(found) = tokens(alloc, text) else {
        return Err(AllocError);
    };
    let read = lexemes(alloc, text, found.as_slice())?;
    if read.len() > 65_536 {
        return Err(AllocError);
    }
    Ok(first_wrong_query(alloc, read.as_slice())?.unwrap_or(0))
}

// How many rows, from the first on, are wrong at the token that is wanted.
fn wrong_as_wanted(alloc: Global, rows: &[(&[u8], u32)]) -> Result<usize, AllocError> {
    for (at, (text, wanted)) in rows.iter().enumerate() {
        if wrong_in(alloc, text)? != *wanted {
            return Ok(at);
        }
    }
    Ok(rows.len())
}

// How many rows, from the first on, have the fault that is wanted, or none.
fn faults_as_wanted(alloc: Global, rows: &[(&[u8], Option<QueryFault>)]) -> usize {
    for (at, (text, wanted)) in rows.iter().enumerate() {
        if read_query(alloc, text).err() != *wanted {
            return at;
        }
    }
    rows.len()
}

// A text: the prefix, so many times the middle, so many times what closes it, and the back. In the
// place of `#` in the middle stands another name of three letters each time.
#[derive(Clone, Copy, Debug)]
struct Made<'a> {
    prefix: &'a [u8],
    middle: &'a [u8],
    close: &'a [u8],
    times: u32,
    back: &'a [u8],
}

// A text with nothing to close.
fn repeated<'a>(prefix: &'a [u8], middle: &'a [u8], times: u32, back: &'a [u8]) -> Made<'a> {
    Made {
        prefix,
        middle,
        close: b"",
        times,
        back,
    }
}

impl<'a> Made<'a> {
    fn text(&self, alloc: Global) -> Result<Vec<u8>, AllocError> {
        let mut text = Vec::new(alloc);
        text.extend_from_slice(self.prefix)?;
        for turn in 0..self.times {
            push_named(&mut text, self.middle, turn)?;
        }
        for _turn in 0..self.times {
            text.extend_from_slice(self.close)?;
        }
        text.extend_from_slice(self.back)?;
        Ok(text)
    }

    fn fault(&self, alloc: Global) -> Option<QueryFault> {
        match self.text(alloc) {
            Ok(text) => read_query(alloc, text.as_slice()).err(),
            Err(_) => Some(QueryFault::NoMemory),
        }
    }
}

fn push_named(text: &mut Vec<u8>, middle: &[u8], turn: u32) -> Result<(), AllocError> {
    for byte in middle {
        if *byte == b'#' {
            text.extend_from_slice(&name_of(turn))?;
        } else {
            text.push(*byte)?;
        }
    }
    Ok(())
}

fn name_of(number: u32) -> [u8; 3] {
    [
        b'a' + (number / 676 % 26) as u8,
        b'a' + (number / 26 % 26) as u8,
        b'a' + (number % 26) as u8,
    ]
}

// How many rows, from the first on, have the fault that is wanted, or none.
fn made_as_wanted(alloc: Global, rows: &[(Made, Option<QueryFault>)]) -> usize {
    for (at, (made, wanted)) in rows.iter().enumerate() {
        if made.fault(alloc) != *wanted {
            return at;
        }
    }
    rows.len()
}

#[test]
fn the_first_wrong_token_is_told(rt: HostRuntime) -> Result<(), Fail> {
    let rows: [(&[u8], u32); 14] = [
        (b"FOR $x IN document('d')//x RETURN $x", 0),
        (b"for $x in DOCUMENT('d')//x return <a/>", 0),
        (
            b"FOR $b IN document('d')//b, $c ALLOWING EMPTY IN $b/c LET $t := $b/t \
              WHERE $b/@y > -5 AND count($c) >= max($t) AND $b = 'x' GROUP BY $k := $b/@y \
              ORDER BY $k DESCENDING, sum($b/p) ASCENDING, $t \
              RETURN <r k={$k} n='1'><s/>'t'{count($c)}<u>{$b/text()}</u></r>",
            0,
        ),
        (b"MATCH document('d') (//- a [>= 3 AND < - 4]! (/? @b))", 0),
        (b"FOR $x IN document('d')//x RETURN", 11),
        (b")", 1),
        (b"", 1),
        (b"FOR $x IN document('d') RETURN $x", 8),
        (b"FOR $x IN $x RETURN $x", 5),
        (b"LET $x := document('d')//x", 10),
        (b"FOR $x IN document('d')//x RETURN <a></a", 16),
        (b"FOR $x IN document('d')//x RETURN $x $x", 12),
        (
            b"FOR $x IN document('d')//x ORDER BY $x GROUP BY $k := $x RETURN $x",
            13,
        ),
        (b"FOR $x IN document('d')//x WHERE sum($x RETURN $x", 14),
    ];
    let as_wanted = wrong_as_wanted(rt.alloc(), &rows).map_err(|_fault| "memory")?;
    assert_eq!(rt; as_wanted, rows.len());
    Ok(())
}

fn wrong_in_made(alloc: Global, made: &Made) -> Result<u32, AllocError> {
    let text = made.text(alloc)?;
    wrong_in(alloc, text.as_slice())
}

#[test]
fn long_and_deep_texts_are_read(rt: HostRuntime) -> Result<(), Fail> {
    let rows = [
        (
            repeated(b"FOR $x IN document('d')//x RETURN ", b"<a>", 21_000, b""),
            63_011,
        ),
        (
            repeated(b"FOR $x IN document('d')", b"/a", 32_000, b" RETURN $x"),
            0,
        ),
        (
            repeated(b"MATCH document('d') ", b"(/-a", 16_000, b""),
            64_006,
        ),
    ];
    for (made, wanted) in &rows {
        let wrong = wrong_in_made(rt.alloc(), made).map_err(|_fault| "memory")?;
        assert_eq!(rt; wrong, *wanted);
    }
    Ok(())
}
