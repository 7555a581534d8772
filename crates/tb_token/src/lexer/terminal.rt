//! Terminals: what the grammar sees of a token.

ghost use Rattle.std.specs.Prelude.{◌≡◌, ◌≤◌, IfOk, length, map};
ghost use Rattle.std.specs.Str.{bytes_eq};
ghost use Rattle.tb_token.specs.tokens.Lexemes.{terminal_of, place_in};
ghost use Rattle.tb_token.specs.tokens.Kinds.{signs};
ghost use Rattle.tb_token.specs.tokens.Names.{keywords};

use crate::lexer::names::is_same;
use crate::lexer::token::Kind;
use std::alloc::{AllocError, Global};

/// The terminal of a token whose bytes are these. Memory is taken for a keyword alone.
pub fn terminal_of(alloc: Global, kind: Kind, bytes: &[u8]) -> Result<u8, AllocError>
    ensures { IfOk result (λ terminal. terminal ≡ terminal_of kind bytes.now) }
{
    match kind {
        Kind::Name => Ok(0),
        Kind::Variable => Ok(1),
        Kind::Number => Ok(2),
        Kind::Quoted => Ok(3),
        Kind::TextTest => Ok(4),
        Kind::Sign => Ok(8 + place_among_signs(bytes)),
        Kind::Word => Ok(64 + place_among_keywords(bytes.to_ascii_uppercase(alloc)?.as_slice())),
    }
}

fn place_among_signs(bytes: &[u8]) -> u8
    ensures place { result ≡ place_in bytes.now signs }
    ensures few { result ≤ 24 }
{
    place_in(
        bytes,
        &[
            b"//", b"/>", b"/", b"</", b"<=", b"<", b">=", b">", b"!=", b"!", b"=", b":=", b"(",
            b")", b"[", b"]", b"{", b"}", b",", b"@", b"*", b"-", b"+", b"?",
        ],
    )
}

fn place_among_keywords(bytes: &[u8]) -> u8
    ensures place { result ≡ place_in bytes.now keywords }
    ensures few { result ≤ 19 }
{
    place_in(
        bytes,
        &[
            b"FOR",
            b"LET",
            b"IN",
            b"ALLOWING",
            b"EMPTY",
            b"WHERE",
            b"AND",
            b"GROUP",
            b"ORDER",
            b"BY",
            b"ASCENDING",
            b"DESCENDING",
            b"RETURN",
            b"MATCH",
            b"DOCUMENT",
            b"COUNT",
            b"SUM",
            b"MIN",
            b"MAX",
        ],
    )
}

/// How far the bytes stand in the list, from 0, or its length where they stand nowhere.
fn place_in(bytes: &[u8], texts: &[&[u8]]) -> u8
    requires { length texts.now ≤ 64 }
    ensures place { result ≡ place_in bytes.now (map (λ text. text.now) texts.now) }
    ensures few { result ≤ length texts.now }
{
    'texts: for (at, text) in texts.iter().enumerate() {
        if is_same(bytes, text) {
            return at as u8;
        }
    }
    texts.len() as u8
}
