//! What no clause says: that a grammar is read with ample memory, by texts whose wrong token was found
//! by hand, and that expressions inside each other cost no calls.

use crate::{Expression, Grammar, first_wrong, lexemes, tokens};
use std::alloc::{AllocError, Global};
use std::test::Fail;

// item = NAME | "(" [ item { "," item } ] ")"
const OPEN: u8 = 20;

const NAME: Expression = Expression::One(&[0]);

const CLOSE: Expression = Expression::One(&[21]);

const COMMA: Expression = Expression::One(&[26]);

const ITEM: Expression = Expression::Either(&NAME, &Expression::Opened(&[OPEN], 0));

const MORE: Expression = Expression::Many(&Expression::Both(&COMMA, &ITEM));

const REST: Expression = Expression::Both(
    &Expression::Maybe(&Expression::Both(&ITEM, &MORE)),
    &CLOSE,
);

// The number of the wrong token, or 0 for an item.
fn wrong_in(alloc: Global, text: &[u8]) -> Result<u32, AllocError> {
    if text.len() > 65_536 {
        return Err(AllocError);
    }
    let Ok(found) = tokens(alloc, text) else {
        return Err(AllocError);
    };
    let read = lexemes(alloc, text, found.as_slice())?;
    let grammar = Grammar {
        start: &ITEM,
        rules: &[&REST],
        other: &NAME,
    };
    if read.len() > 65_536 {
        return Err(AllocError);
    }
    Ok(first_wrong(alloc, &grammar, read.as_slice())?.unwrap_or(0))
}

#[test]
fn the_first_wrong_token_is_told(rt: HostRuntime) -> Result<(), Fail> {
    let rows: [(&[u8], u32); 10] = [
        (b"a", 0),
        (b"()", 0),
        (b"(a, (b, c), ())", 0),
        (b"", 1),
        (b")", 1),
        (b"a b", 2),
        (b"(a", 3),
        (b"(a b)", 3),
        (b"(a,)", 4),
        (b"((a)", 5),
    ];
    for (text, wanted) in rows {
        let wrong = wrong_in(rt.alloc(), text).map_err(|_fault| "memory")?;
        assert_eq!(rt; wrong, wanted);
    }
    Ok(())
}

#[test]
fn open_brackets_are_read_to_the_end(rt: HostRuntime) -> Result<(), Fail> {
    let mut text = Vec::new(rt.alloc());
    for _turn in 0..65_536 {
        text.push(b'(').map_err(|_fault| "memory")?;
    }
    let wrong = wrong_in(rt.alloc(), text.as_slice()).map_err(|_fault| "memory")?;
    assert_eq!(rt; wrong, 65_537);
    Ok(())
}
