//! Data and values with their escapes read.

ghost use Rattle.std.specs.Prelude.{◌≡◌, ◌≤◌, ◌+◌, ◌-◌, ◌*◌, ◌++◌, IfOk, IfSome, OnOk, length, min, take, drop};
ghost use Rattle.std.specs.List.{prefix_len};
ghost use Rattle.std.specs.Option.{option_map};
ghost use Rattle.tb_tree.specs.Escapes.{
  is_digit,
  is_octal,
  number_from,
  octal_number,
  octal_escape,
  octal_bytes,
  begins_with_end,
  scalar_escape,
  escape_of,
};
ghost use Rattle.tb_tree.specs.Escaped.{bytes_given, escape_given};
ghost use Rattle.tb_tree.specs.Escaped.{Unescapes};

use memchr::memchr;
use std::alloc::AllocError;

/// Past the last Unicode scalar.
const PAST_SCALARS: u32 = 0x11_0000;

/// What an escape gives.
#[derive(Clone, Copy, Debug)]
pub enum Given {
    Nothing,
    Byte(u8),
    Scalar(char),
}

/// Appends what the raw bytes give, or is `false` where a backslash among them begins no escape.
pub fn push_unescaped(raw: &[u8], out: &mut Vec<u8>) -> Result<bool, AllocError>
    ensures { IfOk result (Unescapes raw.now out.old.items out.new.items) }
{
    let mut rest = raw;
    'escapes: while let Some(at) = memchr(b'\\', rest) {
        out.extend_from_slice(&rest[..at])?;
        let behind = rest_from(at + 1, rest);
        let Some((given, takes)) = escape_of(behind) else {
            return Ok(false);
        };
        push_given(given, out)?;
        rest = rest_from(takes, behind);
    }
    out.extend_from_slice(rest)?;
    Ok(true)
}

fn rest_from(at: usize, bytes: &[u8]) -> &[u8]
    requires { at ≤ length bytes.now }
    ensures { result.now ≡ drop at bytes.now }
{
    &bytes[at..]
}

fn push_given(given: Given, out: &mut Vec<u8>) -> Result<(), AllocError>
    ensures { OnOk result (out.new.items ≡ out.old.items ++ bytes_given given) }
{
    match given {
        Given::Nothing => Ok(()),
        Given::Byte(byte) => Ok(out.push(byte)?),
        Given::Scalar(scalar) => {
            let mut bytes = [0; 4];
            out.extend_from_slice(scalar.encode_utf8(&mut bytes).as_bytes())
        }
    }
}

/// The escape whose backslash stands before these bytes, and how many of them it takes.
fn escape_of(behind: &[u8]) -> Option<(Given, usize)>
    ensures is { option_map (λ e. escape_given e.0 e.1) result ≡ escape_of behind.now }
    ensures within { IfSome result (λ e. e.1 ≤ length behind.now) }
{
    let [first, rest @ ..] = behind else {
        return None;
    };
    if *first == b'\\' {
        return Some((Given::Byte(b'\\'), 1));
    }
    if *first == b'n' {
        return Some((Given::Byte(b'\n'), 1));
    }
    if *first == b'|' {
        return Some((Given::Nothing, 1));
    }
    if *first == b'#' {
        return scalar_escape(rest);
    }
    octal_escape(behind)
}

/// `\#n;`, behind the `#`.
fn scalar_escape(rest: &[u8]) -> Option<(Given, usize)>
    ensures is { option_map (λ e. escape_given e.0 e.1) result
        ≡ scalar_escape (take (prefix_len is_digit rest.now) rest.now)
        (drop (prefix_len is_digit rest.now) rest.now) }
    ensures within { IfSome result (λ e. e.1 ≤ 1 + length rest.now) }
{
    let len = digits_len(rest);
    if len == 0 || !begins_with_end(&rest[len..]) {
        return None;
    }
    let scalar = char::from_u32(number(&rest[..len]))?;
    Some((Given::Scalar(scalar), 2 + len))
}

fn begins_with_end(bytes: &[u8]) -> bool
    ensures { result ≡ begins_with_end bytes.now }
{
    match bytes {
        [first, ..] => *first == b';',
        [] => false,
    }
}

/// How many digits the bytes begin with.
fn digits_len(bytes: &[u8]) -> usize
    ensures len { result ≡ prefix_len is_digit bytes.now }
    ensures within { result ≤ length bytes.now }
{
    'digits: for (at, byte) in bytes.iter().enumerate() {
        if !is_digit(*byte) {
            return at;
        }
    }
    bytes.len()
}

fn is_digit(byte: u8) -> bool
    ensures { result ≡ is_digit byte }
{
    byte >= 48 && byte <= 57
}

/// The number that the digits write, or `PAST_SCALARS` where it is larger.
fn number(digits: &[u8]) -> u32
    ensures { result ≡ min (number_from 0 digits.now) 0x11_0000 }
{
    let mut number = 0;
    'digits: for digit in digits {
        number = more_digits(number, *digit);
    }
    number
}

fn more_digits(number: u32, digit: u8) -> u32
    requires { number ≤ 0x11_0000 }
    ensures { result ≡ min (number * 10 + (digit - 48)) 0x11_0000 }
{
    (number * 10 + u32::from(digit.saturating_sub(48))).min(PAST_SCALARS)
}

/// `\` and three octal digits, behind the `\`.
fn octal_escape(behind: &[u8]) -> Option<(Given, usize)>
    ensures is { option_map (λ e. escape_given e.0 e.1) result ≡ octal_escape behind.now }
    ensures within { IfSome result (λ e. e.1 ≤ length behind.now) }
{
    let [a, b, c, ..] = behind else {
        return None;
    };
    if !is_octal(*a) || !is_octal(*b) || !is_octal(*c) {
        return None;
    }
    let number = octal_number(*a, *b, *c);
    if number > 255 {
        return None;
    }
    Some((octal_given(number), 3))
}

fn is_octal(byte: u8) -> bool
    ensures { result ≡ is_octal byte }
{
    byte >= 48 && byte <= 55
}

fn octal_given(number: u32) -> Given
    requires { number ≤ 255 }
    ensures { bytes_given result ≡ octal_bytes number }
{
    if number == 10 {
        return Given::Nothing;
    }
    Given::Byte(number as u8)
}

fn octal_value(digit: u8) -> u32
    ensures is { result ≡ digit - 48 }
    ensures small { result ≤ 255 }
{
    u32::from(digit.saturating_sub(48))
}

fn octal_number(a: u8, b: u8, c: u8) -> u32
    ensures { result ≡ octal_number a b c }
{
    (octal_value(a) * 8 + octal_value(b)) * 8 + octal_value(c)
}
