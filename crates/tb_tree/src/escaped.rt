//! Values and data as they print, with their escapes.

ghost use Rattle.std.specs.Prelude.{◌≡◌, ◌≤◌, ◌++◌, true, false, take, length, IfOk, OnOk};
ghost use Rattle.std.specs.Option.{option_map};
ghost use Rattle.std.specs.List.{list_all};
ghost use Rattle.tb_tree.specs.Printed.{octal, escaped, escaped_byte};
ghost use Rattle.tb_tree.specs.Written.{is_plain, has_escape, IsGrown, NextEscape};

use std::alloc::AllocError;

/// How many bytes are tested at once.
const BLOCK: usize = 64;

/// Appends the bytes, runs of plain ones at once, and says whether one was escaped.
pub fn push_escaped(value: &[u8], out: &mut Vec<u8>) -> Result<bool, AllocError>
    ensures told { IfOk result (λ told. told ≡ has_escape value.now) }
    ensures escaped { OnOk result (out.new.items ≡ out.old.items ++ escaped value.now) }
    ensures prefix { IsGrown out.old.items out.new.items }
{
    let mut rest = value;
    let mut told = false;
    'runs: while let Some((run, byte, behind)) = next_escape(rest) {
        out.extend_from_slice(run)?;
        push_escape(byte, out)?;
        rest = push_escapes(behind, out)?;
        told = true;
    }
    out.extend_from_slice(rest)?;
    Ok(told)
}

/// Appends the escapes of the bytes before the first plain one, and gives what follows these.
fn push_escapes<'a>(bytes: &'a [u8], out: &mut Vec<u8>) -> Result<&'a [u8], AllocError>
    ensures within { IfOk result (λ rest. length rest.now ≤ length bytes.now) }
    ensures escaped { IfOk result (λ rest. out.new.items ++ escaped rest.now ≡ out.old.items ++ escaped bytes.now) }
    ensures prefix { IsGrown out.old.items out.new.items }
{
    let mut rest = bytes;
    'escapes: while let [byte, behind @ ..] = rest {
        if is_plain(*byte) {
            return Ok(rest);
        }
        push_escape(*byte, out)?;
        rest = behind;
    }
    Ok(rest)
}

/// The plain bytes that stand first, the first byte that isn't plain, and what follows it.
fn next_escape(bytes: &[u8]) -> Option<(&[u8], u8, &[u8])>
    ensures { NextEscape bytes.now (option_map (λ cut. (cut.0.now, cut.1, cut.2.now)) result) }
{
    let mut at = plain_blocks(bytes);
    'bytes: while at < bytes.len() {
        if !is_plain(bytes[at]) {
            return Some((&bytes[..at], bytes[at], &bytes[at + 1..]));
        }
        at += 1;
    }
    None
}

/// How many bytes stand first in blocks of plain ones.
fn plain_blocks(bytes: &[u8]) -> usize
    ensures within { result ≤ length bytes.now }
    ensures plain { list_all is_plain (take result bytes.now) ≡ true }
{
    if !begins_plain(bytes) {
        return 0;
    }
    let mut at = 0;
    'steps: while BLOCK <= bytes.len() - at {
        if !are_plain(&bytes[at..at + BLOCK]) {
            return at;
        }
        at += BLOCK;
    }
    at
}

fn begins_plain(bytes: &[u8]) -> bool {
    match bytes.first() {
        Some(first) => is_plain(*first),
        None => false,
    }
}

/// Whether all bytes are plain, in a loop without a branch, which takes many at once.
fn are_plain(bytes: &[u8]) -> bool
    ensures { result ≡ list_all is_plain bytes.now }
{
    let mut plain = true;
    'bytes: for byte in bytes {
        plain = plain & is_plain(*byte);
    }
    plain
}

fn is_plain(byte: u8) -> bool
    ensures { result ≡ is_plain byte }
{
    (byte >= 32) & (byte != 127) & (byte != b'\\')
}

fn push_escape(byte: u8, out: &mut Vec<u8>) -> Result<(), AllocError>
    requires { is_plain byte ≡ false }
    ensures escaped { OnOk result (out.new.items ≡ out.old.items ++ escaped_byte byte) }
    ensures prefix { IsGrown out.old.items out.new.items }
{
    match byte {
        b'\\' => out.extend_from_slice(b"\\\\"),
        b'\n' => out.extend_from_slice(b"\\n"),
        _ => out.extend_from_slice(&octal(byte)),
    }
}

fn octal(byte: u8) -> [u8; 4]
    ensures { result ≡ octal byte }
{
    [
        b'\\',
        b'0' + byte / 64,
        b'0' + byte / 8 % 8,
        b'0' + byte % 8,
    ]
}
