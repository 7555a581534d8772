//! Documents and patterns by chance, the same for the same seed.

use std::alloc::{AllocError, Global};

/// Numbers by a linear congruence (D. E. Knuth's constants for 64 bits).
#[derive(Clone, Copy, Debug)]
pub struct Dice {
    pub state: u64,
}

// One of these words, by its turn.
fn pick<'a>(dice: &mut Dice, words: &'a [&'a [u8]]) -> &'a [u8] {
    let number = roll(dice);
    match words.get((number % 64) as usize) {
        Some(word) => word,
        None => match words.get((number % 8) as usize) {
            Some(word) => word,
            None => match words.first() {
                Some(word) => word,
                None => &[],
            },
        },
    }
}

/// A number of 31 bits.
pub fn roll(dice: &mut Dice) -> u64 {
    dice.state = dice
        .state
        .wrapping_mul(6_364_136_223_846_793_005)
        .wrapping_add(1_442_695_040_888_963_407);
    dice.state >> 33
}

const NAMES: &[&[u8]] = &[b"a", b"b", b"c", b"a", b"b", b"a", b"c", b"a"];

const VALUES: &[&[u8]] = &[b"", b"1", b"22", b"v", b"w", b"3", b"44", b"x"];

/// The lines of a document of some 40 nodes.
pub fn document(alloc: Global, dice: &mut Dice) -> Result<Vec<u8>, AllocError> {
    let mut open = Vec::new(alloc);
    let mut out = b"(a\n".to_vec(alloc)?;
    let mut is_text = false;
    for _turn in 0..40 {
        match roll(dice) % 4 {
            0 | 1 => {
                open_element(dice, &mut open, &mut out)?;
                is_text = false;
            }
            2 => {
                if let Some(name) = open.pop() {
                    push_end(name, &mut out)?;
                    is_text = false;
                }
            }
            _ => {
                if !is_text {
                    out.extend_from_slice(b"-t")?;
                    out.extend_from_slice(pick(dice, VALUES))?;
                    out.push(b'\n')?;
                }
                is_text = true;
            }
        }
    }
    for _left in 0..open.len() {
        if let Some(name) = open.pop() {
            push_end(name, &mut out)?;
        }
    }
    out.extend_from_slice(b")a\n")?;
    Ok(out)
}

fn open_element(
    dice: &mut Dice,
    open: &mut Vec<&'static [u8]>,
    out: &mut Vec<u8>,
) -> Result<(), AllocError> {
    if roll(dice) % 3 == 0 {
        out.extend_from_slice(b"Ax CDATA ")?;
        out.extend_from_slice(pick(dice, VALUES))?;
        out.push(b'\n')?;
    }
    if roll(dice) % 4 == 0 {
        out.extend_from_slice(b"Ay CDATA 7\n")?;
    }
    let name = pick(dice, NAMES);
    out.push(b'(')?;
    out.extend_from_slice(name)?;
    out.push(b'\n')?;
    open.push(name)?;
    Ok(())
}

fn push_end(name: &[u8], out: &mut Vec<u8>) -> Result<(), AllocError> {
    out.push(b')')?;
    out.extend_from_slice(name)?;
    out.push(b'\n')?;
    Ok(())
}

// Edges stand at the places of `%`.
const SHAPES: &[&[u8]] = &[
    b"(%)",
    b"(% (%))",
    b"(%, %)",
    b"(% (%, %))",
    b"(%, % (%))",
    b"(% (% (%)))",
    b"(% (%, % (%)))",
    b"(% (% (%), %), %)",
];

const TESTS: &[&[u8]] = &[b"a", b"b", b"c", b"*", b"@x", b"@*", b"text()", b"a"];

const MARKS: &[&[u8]] = &[b"-", b"?", b"+", b"*", b"-", b"?", b"+", b"*"];

/// A pattern of one to five edges over the document `d`.
pub fn pattern(alloc: Global, dice: &mut Dice) -> Result<Vec<u8>, AllocError> {
    let mut out = b"MATCH document('d') ".to_vec(alloc)?;
    for byte in pick(dice, SHAPES) {
        if *byte != b'%' {
            out.push(*byte)?;
            continue;
        }
        out.push(b'/')?;
        if roll(dice) % 2 == 0 {
            out.push(b'/')?;
        }
        out.extend_from_slice(pick(dice, MARKS))?;
        out.push(b' ')?;
        out.extend_from_slice(pick(dice, TESTS))?;
        if roll(dice) % 3 == 0 {
            out.extend_from_slice(b" !")?;
        }
    }
    Ok(out)
}
