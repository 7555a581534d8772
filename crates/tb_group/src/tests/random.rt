//! Tables by chance, against lists that are computed step by step.

use super::given::{Lists, documents, table};
use super::shown::{push_number, shown};
use crate::{aggregate, order};
use itoa::Buffer;
use std::alloc::{AllocError, Global};
use std::cmp::Ordering;
use std::test::Fail;
use tb_number::{AggKind, SortKey};

// Values, and the numbers that they are known to stand for.
const KNOWN: [(&[u8], Option<i64>); 16] = [
    (b"7", Some(7)),
    (b" 007 ", Some(7)),
    (b"+7", Some(7)),
    (b"seven", None),
    (b"", None),
    (b"-0", Some(0)),
    (b"0", Some(0)),
    (b"000", Some(0)),
    (b"12", Some(12)),
    (b"-12", Some(-12)),
    (b"0x7", None),
    (b"70", Some(70)),
    (b"seven ", None),
    (b"-012", Some(-12)),
    (b"sev", None),
    (b"9", Some(9)),
];

fn known(value: u32) -> (&'static [u8], Option<i64>) {
    match KNOWN.get(value as usize) {
        Some(known) => *known,
        None => (b"", None),
    }
}

/// A number of 31 bits, by a linear congruence (D. E. Knuth's constants for 64 bits).
fn roll(state: &mut u64) -> u64 {
    *state = state
        .wrapping_mul(6_364_136_223_846_793_005)
        .wrapping_add(1_442_695_040_888_963_407);
    *state >> 33
}

/// Rows of three cells, each of up to three values.
fn rolled(alloc: Global, state: &mut u64, count: usize) -> Result<Lists, AllocError> {
    let mut rows = Vec::new(alloc);
    for _row in 0..count {
        let mut row = Vec::new(alloc);
        for _cell in 0..3 {
            let mut cell = Vec::new(alloc);
            for _value in 0..roll(state) % 4 {
                cell.push((roll(state) % 16) as u32)?;
            }
            row.push(cell)?;
        }
        rows.push(row)?;
    }
    Ok(rows)
}

fn cell(row: &[Vec<u32>], column: usize) -> &[u32] {
    match row.get(column) {
        Some(cell) => cell.as_slice(),
        None => &[],
    }
}

/// What the kind makes of a cell, number by number.
fn value(kind: AggKind, cell: &[u32]) -> Option<i64> {
    let mut sum = 0i64;
    let mut best = None;
    for number in cell.iter().filter_map(|v| known(*v).1) {
        sum = sum.saturating_add(number);
        best = match best {
            Some(other) if kind == AggKind::Min => Some(number.min(other)),
            Some(other) => Some(number.max(other)),
            None => Some(number),
        };
    }
    match kind {
        AggKind::Count => Some(cell.len() as i64),
        AggKind::Sum => Some(sum),
        AggKind::Min | AggKind::Max => best,
    }
}

fn push_row(row: &[Vec<u32>], out: &mut Vec<u8>) -> Result<(), AllocError> {
    for (column, cell) in row.iter().enumerate() {
        if column > 0 {
            out.push(b' ')?;
        }
        if cell.is_empty() {
            out.push(b'-')?;
        }
        for (at, number) in cell.iter().enumerate() {
            push_number(at, *number, out)?;
        }
    }
    Ok(())
}

fn with_values(
    alloc: Global,
    rows: &[Vec<Vec<u32>>],
    kind: AggKind,
) -> Result<Vec<u8>, AllocError> {
    let mut out = Vec::new(alloc);
    for row in rows {
        push_row(row.as_slice(), &mut out)?;
        match value(kind, cell(row.as_slice(), 1)) {
            Some(number) => {
                out.extend_from_slice(b" =")?;
                let mut buffer = Buffer::new();
                out.extend_from_slice(buffer.format(number).as_bytes())?;
            }
            None => out.extend_from_slice(b" ~")?,
        }
        out.push(b'\n')?;
    }
    Ok(out)
}

/// No value, then numbers, then other values by bytes.
fn compare(left: &[u32], right: &[u32]) -> Ordering {
    match (left.first(), right.first()) {
        (None, None) => Ordering::Equal,
        (None, Some(_)) => Ordering::Less,
        (Some(_), None) => Ordering::Greater,
        (Some(a), Some(b)) => match (known(*a), known(*b)) {
            ((_, Some(m)), (_, Some(n))) => m.cmp(&n),
            ((_, Some(_)), (_, None)) => Ordering::Less,
            ((_, None), (_, Some(_))) => Ordering::Greater,
            ((a, None), (b, None)) => a.cmp(b),
        },
    }
}

/// Whether a row stands before another by the second column, turned round, and then by the first.
fn stands_before(row: &[Vec<u32>], other: &[Vec<u32>]) -> bool {
    compare(cell(other, 1), cell(row, 1))
        .then(compare(cell(row, 0), cell(other, 0)))
        .is_lt()
}

/// The numbers of the rows in order, each put in behind those that it doesn't stand before.
fn in_order(alloc: Global, rows: &[Vec<Vec<u32>>]) -> Result<Vec<usize>, AllocError> {
    let mut order: Vec<usize> = Vec::new(alloc);
    for (number, row) in rows.iter().enumerate() {
        let mut place = order.len();
        for (at, other) in order.iter().enumerate() {
            if let Some(other) = rows.get(*other)
                && stands_before(row.as_slice(), other.as_slice())
            {
                place = at;
                break;
            }
        }
        if place <= order.len() {
            order.insert(place, number)?;
        }
    }
    Ok(order)
}

fn lines_in_order(alloc: Global, rows: &[Vec<Vec<u32>>]) -> Result<Vec<u8>, AllocError> {
    let mut out = Vec::new(alloc);
    for number in in_order(alloc, rows)?.iter() {
        if let Some(row) = rows.get(*number) {
            push_row(row.as_slice(), &mut out)?;
            out.push(b'\n')?;
        }
    }
    Ok(out)
}

const KEYS: [SortKey; 2] = [
    SortKey {
        column: 1,
        descending: true,
    },
    SortKey {
        column: 0,
        descending: false,
    },
];

fn known_values(alloc: Global) -> Result<Vec<&'static [u8]>, AllocError> {
    let mut values = Vec::new(alloc);
    for (value, _) in KNOWN {
        values.push(value)?;
    }
    Ok(values)
}

#[test]
fn tables_by_chance_are_those_of_the_lists(rt: HostRuntime) -> Result<(), Fail> {
    let alloc = rt.alloc();
    let docs = documents(alloc, known_values(alloc)?.as_slice())?;
    let mut state = 7;
    for count in [1usize, 2, 5, 30, 60] {
        let rows = rolled(alloc, &mut state, count)?;
        for kind in [AggKind::Count, AggKind::Sum, AggKind::Min, AggKind::Max] {
            let given = table(alloc, &docs, rows.as_slice())?;
            let Ok(made) = aggregate(alloc, given, 1, kind, &docs) else {
                return Err("no column".into());
            };
            assert_eq!(rt;
                shown(alloc, &made)?,
                with_values(alloc, rows.as_slice(), kind)?
            );
        }
        let given = table(alloc, &docs, rows.as_slice())?;
        let made = order(alloc, given, &KEYS, &docs)?;
        assert_eq!(rt;
            shown(alloc, &made)?,
            lines_in_order(alloc, rows.as_slice())?
        );
    }
    Ok(())
}
