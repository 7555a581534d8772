//! Bodies: the lines up to one that is `.` alone.

ghost use Rattle.std.specs.Prelude.{◌≡◌, ◌<◌, ◌≤◌, ◌+◌, ◌^◌, IfOk, length, drop};
ghost use Rattle.std.specs.Option.{option_map};
ghost use Rattle.tb_script.specs.Cuts.{HasBody, HasText};
ghost use Rattle.tb_script.specs.Dots.{begins_with_dot, NextDot, NextDotted};

use crate::form::is_dot;
use crate::line::next_whole;
use memchr::arch::all::memchr::One;
use memchr::memmem;
use std::alloc::{AllocError, Global};

/// The body of a load as it stands, whether it has an end, what follows that, and its line number.
/// The body begins with the line that has the given number.
pub fn load_body(bytes: &[u8], number: u32) -> (&[u8], bool, &[u8], u32)
    requires numbers { number + length bytes.now < 2 ^ 32 }
    ensures { HasBody bytes.now number result.0.now result.1 result.2.now result.3 }
{
    let mut line = number;
    let mut rest = bytes;
    'lines: while let Some((dotted, at)) = next_dotted(rest, line) {
        let Some((text, _, behind)) = next_whole(dotted) else {
            unreachable!();
        };
        line = at + 1;
        rest = behind;
        if is_dot(text) {
            return (&bytes[..bytes.len() - dotted.len()], true, rest, line);
        }
    }
    (bytes, false, &[], line)
}

/// The bytes from the first line on that begins with a dot, and its number. The first line of the bytes has
/// the given number.
fn next_dotted(bytes: &[u8], number: u32) -> Option<(&[u8], u32)>
    requires numbers { number + length bytes.now < 2 ^ 32 }
    ensures { NextDotted bytes.now number (option_map (λ found. record { rest = found.0.now; line = found.1 }) result) }
{
    match next_dot(bytes) {
        Some(at) => {
            let passed = One::new(b'\n').count(&bytes[..at]) as u32;
            Some((behind(bytes, at), number + passed))
        }
        None => None,
    }
}

fn behind(bytes: &[u8], at: usize) -> &[u8]
    requires { at ≤ length bytes.now }
    ensures { result.now ≡ drop at bytes.now }
{
    &bytes[at..]
}

/// Where the first line begins that begins with a dot.
fn next_dot(bytes: &[u8]) -> Option<usize>
    ensures { NextDot bytes.now result }
{
    if begins_with_dot(bytes) {
        return Some(0);
    }
    match memmem::find(bytes, b"\n.") {
        Some(at) => Some(at + 1),
        None => None,
    }
}

fn begins_with_dot(bytes: &[u8]) -> bool
    ensures { result ≡ begins_with_dot bytes.now }
{
    match bytes {
        [first, ..] => *first == b'.',
        [] => false,
    }
}

/// The text of a query, in which each line ends with byte 10, and the same three.
pub fn query_text(
    alloc: Global,
    bytes: &[u8],
    number: u32,
) -> Result<(Vec<u8>, bool, &[u8], u32), AllocError>
    requires numbers { number + length bytes.now < 2 ^ 32 }
    ensures { IfOk result (λ text.
        HasText bytes.now number text.0.items text.1 text.2.now text.3) }
{
    let mut kept = Vec::new(alloc);
    let mut line = number;
    let mut rest = bytes;
    'lines: while let Some((text, _, behind)) = next_whole(rest) {
        line += 1;
        rest = behind;
        if is_dot(text) {
            return Ok((kept, true, rest, line));
        }
        kept.extend_from_slice(text)?;
        kept.push(b'\n')?;
    }
    Ok((kept, false, rest, line))
}
