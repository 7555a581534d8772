//! The key of a value, from the bytes that it prints as.

ghost use Rattle.std.specs.Prelude.{◌≡◌, ◌≤◌, ℕ, List, Option, Some, drop, IfOk};
ghost use Rattle.std.specs.Option.{option_map};
ghost use Rattle.tb_tree.specs.Numbers.{count};
ghost use Rattle.tb_tree.specs.Nodes.{node_at};
ghost use Rattle.tb_tree.specs.View.{plain_of};
ghost use Rattle.tb_tree.specs.Pieces.{piece_of};
ghost use Rattle.tb_tree.specs.Value.{value_of};
ghost use Rattle.tb_tree.specs.Printed.{escaped};
ghost use Rattle.tb_number.specs.Reading.{without_blanks};
ghost use Rattle.tb_number.specs.Keys.{is_same_key};
ghost use Rattle.tb_number.specs.KeyParts.{same_parts};
ghost use Rattle.tb_label.specs.PrintedKeys.{
  printed_parts,
  printed_key,
  number_in,
  printed_blank,
  escaped_blank,
  is_blank_octal,
};

use std::alloc::{AllocError, Global};
use tb_number::{Key, signed_digits};
use tb_tree::{Tree, push_escaped};

/// The key of the value of the node with that number, from 1 in document order, where its value lies in one
/// piece: it borrows from the document.
pub fn key(tree: &Tree, number: u32) -> Option<Key<'_>>
    requires some { 1 ≤ number }
    requires within { number ≤ count (plain_of tree.now) }
    ensures { result ≡ option_map printed_parts (piece_of (node_at (plain_of tree.now) number)) }
{
    match tree.raw_value(number) {
        Some(printed) => Some(printed_key(printed)),
        None => None,
    }
}

/// The value of the node as it prints: the key of one that lies in several pieces borrows from this.
pub fn printed_value(alloc: Global, tree: &Tree, number: u32) -> Result<Vec<u8>, AllocError>
    requires some { 1 ≤ number }
    requires within { number ≤ count (plain_of tree.now) }
    ensures { IfOk result (λ printed. printed.items ≡ escaped (value_of (node_at (plain_of tree.now) number))) }
{
    let value = tree.value(alloc, number)?;
    printed(alloc, value.as_slice())
}

/// A value from outside as it would print: its key borrows from this.
pub fn printed(alloc: Global, value: &[u8]) -> Result<Vec<u8>, AllocError>
    ensures { IfOk result (λ printed. printed.items ≡ escaped value.now) }
{
    let mut printed = Vec::new(alloc);
    push_escaped(value, &mut printed)?;
    Ok(printed)
}

/// The key of the value that prints so: the same as that of another value just where the two are equal.
pub fn printed_key(printed: &[u8]) -> Key<'_>
    ensures parts { (value : List ℕ) → printed.now ≡ escaped value → result ≡ printed_parts value }
    ensures same { (value : List ℕ) → printed.now ≡ escaped value → (other : Option (List ℕ))
        → same_parts result (printed_key other) ≡ is_same_key (Some value) other }
{
    key_of(printed)
}

fn key_of(printed: &[u8]) -> Key<'_>
    ensures { (value : List ℕ) → printed.now ≡ escaped value → result ≡ printed_parts value }
{
    match number_in(without_blanks(printed)) {
        Some((minus, digits)) => Key::of_digits(minus, digits),
        None => Key::of_bytes(printed),
    }
}

/// The sign and the digits, where blanks alone are behind them.
fn number_in(printed: &[u8]) -> Option<(bool, &[u8])>
    ensures { (text : List ℕ) → printed.now ≡ escaped text
        → option_map (λ found. (found.0, found.1.now)) result ≡ number_in text }
{
    let (minus, digits, behind) = signed_digits(printed);
    if digits.is_empty() {
        return None;
    }
    if !without_blanks(behind).is_empty() {
        return None;
    }
    Some((minus, digits))
}

/// What is behind the blanks that stand first.
fn without_blanks(printed: &[u8]) -> &[u8]
    ensures { (value : List ℕ) → printed.now ≡ escaped value → result.now ≡ escaped (without_blanks value) }
{
    let mut rest = printed;
    'blanks: loop {
        let len = printed_blank(rest);
        if len == 0 {
            return rest;
        }
        rest = behind(rest, len);
    }
}

/// The bytes behind the first ones.
fn behind(bytes: &[u8], len: usize) -> &[u8]
    ensures { result.now ≡ drop len bytes.now }
{
    &bytes[len.min(bytes.len())..]
}

/// How many bytes the blank takes that stands first, or 0.
fn printed_blank(printed: &[u8]) -> usize
    ensures { result ≡ printed_blank printed.now }
{
    match printed {
        [first, ..] if *first == b' ' => 1,
        [first, behind @ ..] if *first == b'\\' => escaped_blank(behind),
        _ => 0,
    }
}

fn escaped_blank(behind: &[u8]) -> usize
    ensures { result ≡ escaped_blank behind.now }
{
    match behind {
        [first, ..] if *first == b'n' => 2,
        [first, octal @ ..] if *first == b'0' && is_blank_octal(octal) => 4,
        _ => 0,
    }
}

fn is_blank_octal(behind: &[u8]) -> bool
    ensures { result ≡ is_blank_octal behind.now }
{
    match behind {
        [first, second, ..] => *first == b'1' && (*second == b'1' || *second == b'5'),
        _ => false,
    }
}
