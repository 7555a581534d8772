//! What no clause says: that the clauses mean what they should, by numbers from outside, and that
//! texts are written and keys are hashed with ample memory.

use crate::{CmpOp, IntText, Key, RunningSum};
use std::alloc::{AllocError, Global};
use std::cmp::Ordering;
use std::collections::HashSet;
use std::test::Fail;

// A 1 with 59 zeros.
const LONG: &[u8] = b"100000000000000000000000000000000000000000000000000000000000";

const LAST: &[u8] = b"170141183460469231731687303715884105727";

const FIRST: &[u8] = b"-170141183460469231731687303715884105728";

fn compared(left: &[u8], right: &[u8]) -> Option<Ordering> {
    Some(IntText::read(left)?.compare(&IntText::read(right)?))
}

#[test]
fn texts_are_compared_as_numbers(rt: HostRuntime) -> Result<(), Fail> {
    let rows: [(&[u8], &[u8], Option<Ordering>); 14] = [
        (b"007", b"+7", Some(Ordering::Equal)),
        (b"7 ", b"007", Some(Ordering::Equal)),
        (LONG, b"7", Some(Ordering::Greater)),
        (b"+7", LONG, Some(Ordering::Less)),
        (b"-0", b"+0", Some(Ordering::Equal)),
        (b"10", b"9", Some(Ordering::Greater)),
        (b"-10", b"\t-9\r\n", Some(Ordering::Less)),
        (b"-1", b"000", Some(Ordering::Less)),
        (b"", b"0", None),
        (b" \n", b"0", None),
        (b"+", b"0", None),
        (b"1 2", b"0", None),
        (b"7\x0b", b"0", None),
        (b"0x7", b"0", None),
    ];
    for (left, right, wanted) in rows {
        assert_eq!(rt; compared(left, right), wanted);
    }
    Ok(())
}

fn bounded(text: &[u8]) -> Option<i128> {
    IntText::read(text)?.in_range()
}

#[test]
fn the_range_ends_where_that_of_i128_ends(rt: HostRuntime) -> Result<(), Fail> {
    let rows: [(&[u8], Option<i128>); 6] = [
        (LAST, Some(i128::MAX)),
        (FIRST, Some(i128::MIN)),
        (b"170141183460469231731687303715884105728", None),
        (b"-170141183460469231731687303715884105729", None),
        (LONG, None),
        (b"-00", Some(0)),
    ];
    for (text, wanted) in rows {
        assert_eq!(rt; bounded(text), wanted);
    }
    Ok(())
}

// The total after each text, and whether one was past the range.
fn summed(texts: &[&[u8]]) -> (i128, bool) {
    let mut sum = RunningSum::new();
    let mut past = false;
    for text in texts {
        if let Some(value) = IntText::read(text) {
            past = past || sum.add(&value).is_err();
        }
    }
    (sum.total(), past)
}

#[test]
fn a_sum_stays_where_it_would_leave_the_range(rt: HostRuntime) -> Result<(), Fail> {
    assert_eq!(rt; summed(&[b"7", b"x", b" -9"]), (-2, false));
    assert_eq!(rt; summed(&[LAST, b"-1", b"1"]), (i128::MAX, false));
    assert_eq!(rt; summed(&[LAST, b"1"]), (i128::MAX, true));
    assert_eq!(rt; summed(&[b"-5", LONG]), (-5, true));
    Ok(())
}

fn written(alloc: Global, texts: &[&[u8]]) -> Result<Vec<u8>, AllocError> {
    let mut out = Vec::new(alloc);
    for text in texts {
        if let Some(value) = IntText::read(text) {
            value.write(alloc, &mut out)?;
        }
        out.push(b';')?;
    }
    Ok(out)
}

#[test]
fn texts_are_written_without_what_does_not_count(rt: HostRuntime) -> Result<(), Fail> {
    let texts = written(rt.alloc(), &[b" +007\n", b"-0", b"-0120", b"x", LAST])?;
    assert_eq!(rt;
        texts.as_slice(),
        b"7;0;-120;;170141183460469231731687303715884105727;".as_slice()
    );
    Ok(())
}

// How many of the values are another than all before them.
fn apart(alloc: Global, values: &[Option<&[u8]>]) -> Result<usize, AllocError> {
    let mut seen = HashSet::new(alloc);
    for value in values {
        seen.insert(Key::of(*value))?;
    }
    Ok(seen.len())
}

#[test]
fn equal_values_have_one_key(rt: HostRuntime) -> Result<(), Fail> {
    let alone: [&[Option<&[u8]>]; 6] = [
        &[Some(b"7"), Some(b"007"), Some(b" +7\n")],
        &[Some(b"0"), Some(b"-0"), Some(b"+000")],
        &[Some(b"-12"), Some(b" -012")],
        &[Some(b"a"), Some(b"a")],
        &[Some(b""), Some(b"")],
        &[None, None],
    ];
    for values in alone {
        assert_eq!(rt; apart(rt.alloc(), values)?, 1);
    }
    let all: [Option<&[u8]>; 9] = [
        None,
        Some(b""),
        Some(b"0"),
        Some(b"7"),
        Some(b"-7"),
        Some(b"70"),
        Some(b"a"),
        Some(b"A"),
        Some(b"1 2"),
    ];
    assert_eq!(rt; apart(rt.alloc(), &all)?, 9);
    Ok(())
}

#[test]
fn comparisons_hold_by_their_names(rt: HostRuntime) -> Result<(), Fail> {
    for (comparison, less, equal, greater) in [
        (CmpOp::Eq, false, true, false),
        (CmpOp::Ne, true, false, true),
        (CmpOp::Lt, true, false, false),
        (CmpOp::Le, true, true, false),
        (CmpOp::Gt, false, false, true),
        (CmpOp::Ge, false, true, true),
    ] {
        assert_eq!(rt;
            (
                comparison.holds(Ordering::Less),
                comparison.holds(Ordering::Equal),
                comparison.holds(Ordering::Greater),
            ),
            (less, equal, greater)
        );
    }
    Ok(())
}
