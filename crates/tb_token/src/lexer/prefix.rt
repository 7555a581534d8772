//! The longest token at the beginning of bytes.

ghost use Rattle.std.specs.Prelude.{◌≡◌, ◌==◌, ◌≤◌, not, length};
ghost use Rattle.std.specs.List.{prefix_len, position_or_len};
ghost use Rattle.tb_token.specs.tokens.Bytes.{is_digit};
ghost use Rattle.tb_token.specs.tokens.Prefixes.{Finds, prefix_of, found, named, quoted};
ghost use Rattle.tb_token.specs.tokens.Prefixes.{variable, sign};

use crate::lexer::bytes::{is_digit, is_quote, starts_name};
use crate::lexer::names::{begins_text_test, is_keyword, rest_len};
use crate::lexer::signs::{is_pair, is_single};
use crate::lexer::token::Kind;

/// A token of so many bytes, one or more.
#[derive(Clone, Copy, Debug, PartialEq, Eq)]
pub struct Prefix {
    pub kind: Kind,
    pub size: usize,
}

impl Prefix {
    /// The longest token that the bytes begin with.
    pub fn of(bytes: &[u8]) -> Option<Prefix>
        ensures { Finds bytes.now result }
    {
        Prefix::by_first_byte(bytes)
    }

    fn by_first_byte(bytes: &[u8]) -> Option<Prefix>
        ensures { result ≡ prefix_of bytes.now }
    {
        let [first, behind @ ..] = bytes else {
            return None;
        };
        if starts_name(*first) {
            return Prefix::named(bytes, 1 + rest_len(behind));
        }
        if is_digit(*first) {
            return Prefix::found(Kind::Number, 1 + digits_len(behind));
        }
        if is_quote(*first) {
            return Prefix::quoted(*first, behind);
        }
        if *first == b'$' {
            return Prefix::variable(behind);
        }
        Prefix::sign(*first, behind)
    }

    fn found(kind: Kind, size: usize) -> Option<Prefix>
        ensures { result ≡ found kind size }
    {
        Some(Prefix { kind, size })
    }

    /// The token of bytes whose longest name has this size.
    fn named(bytes: &[u8], size: usize) -> Option<Prefix>
        requires { size ≤ length bytes.now }
        ensures { result ≡ named bytes.now size }
    {
        if begins_text_test(bytes) {
            return Prefix::found(Kind::TextTest, 6);
        }
        if is_keyword(&bytes[..size]) {
            return Prefix::found(Kind::Word, size);
        }
        Prefix::found(Kind::Name, size)
    }

    /// The token of a quote and the bytes behind it.
    fn quoted(quote: u8, behind: &[u8]) -> Option<Prefix>
        ensures { result ≡ quoted quote behind.now }
    {
        let inside = unquoted_len(quote, behind);
        if inside == behind.len() {
            return None;
        }
        Prefix::found(Kind::Quoted, inside + 2)
    }

    /// The token of `$` and the bytes behind it.
    fn variable(behind: &[u8]) -> Option<Prefix>
        ensures { result ≡ variable behind.now }
    {
        match behind {
            [first, rest @ ..] if starts_name(*first) => {
                Prefix::found(Kind::Variable, 2 + rest_len(rest))
            }
            _ => None,
        }
    }

    /// The token of a byte that begins no other, and the bytes behind it.
    fn sign(first: u8, behind: &[u8]) -> Option<Prefix>
        ensures { result ≡ sign first behind.now }
    {
        match behind {
            [second, ..] if is_pair(first, *second) => Prefix::found(Kind::Sign, 2),
            _ if is_single(first) => Prefix::found(Kind::Sign, 1),
            _ => None,
        }
    }
}

/// How many digits stand at the beginning.
fn digits_len(bytes: &[u8]) -> usize
    ensures len { result ≡ prefix_len is_digit bytes.now }
    ensures within { result ≤ length bytes.now }
{
    'digits: for (at, byte) in bytes.iter().enumerate() {
        if !is_digit(*byte) {
            return at;
        }
    }
    bytes.len()
}

/// How many bytes stand before the next such quote.
fn unquoted_len(quote: u8, bytes: &[u8]) -> usize
    ensures len { result ≡ position_or_len (λ b. b == quote) bytes.now }
    ensures within { result ≤ length bytes.now }
{
    'bytes: for (at, byte) in bytes.iter().enumerate() {
        if *byte == quote {
            return at;
        }
    }
    bytes.len()
}
