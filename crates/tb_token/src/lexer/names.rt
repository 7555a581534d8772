//! Names and keywords at the beginning of bytes.

ghost use Rattle.std.specs.Prelude.{◌≡◌, ◌≤◌, length, map};
ghost use Rattle.std.specs.List.{list_any};
ghost use Rattle.std.specs.Str.{bytes_eq};
ghost use Rattle.tb_token.specs.tokens.Names.{begins_name, goes_on, is_keyword};
ghost use Rattle.tb_token.specs.tokens.Prefixes.{rest_len, begins_text_test};

use crate::lexer::bytes::{is_digit, starts_name};

/// How many bytes go on with a name.
pub fn rest_len(bytes: &[u8]) -> usize
    ensures len { result ≡ rest_len bytes.now }
    ensures within { result ≤ length bytes.now }
{
    'bytes: for (at, byte) in bytes.iter().enumerate() {
        if !goes_on(*byte, &bytes[at + 1..]) {
            return at;
        }
    }
    bytes.len()
}

/// Whether a name goes on with the byte, where these follow it.
fn goes_on(byte: u8, behind: &[u8]) -> bool
    ensures { result ≡ goes_on byte behind.now }
{
    starts_name(byte)
        || is_digit(byte)
        || byte == b'-'
        || byte == b'.'
        || (byte == b':' && begins_name(behind))
}

fn begins_name(bytes: &[u8]) -> bool
    ensures { result ≡ begins_name bytes.now }
{
    match bytes {
        [first, ..] => starts_name(*first),
        [] => false,
    }
}

/// Whether `text()` or `TEXT()` stands at the beginning.
pub fn begins_text_test(bytes: &[u8]) -> bool
    ensures { result ≡ begins_text_test bytes.now }
{
    bytes.starts_with(b"text()") || bytes.starts_with(b"TEXT()")
}

/// Whether the name is a keyword of the language. It is compared with the keywords of its length alone.
pub fn is_keyword(name: &[u8]) -> bool
    ensures { result ≡ is_keyword name.now }
{
    match name.len() {
        2 => is_among(name, &[b"IN", b"BY", b"in", b"by"]),
        3 => is_among(
            name,
            &[
                b"FOR", b"LET", b"AND", b"SUM", b"MIN", b"MAX", b"for", b"let", b"and", b"sum",
                b"min", b"max",
            ],
        ),
        5 => is_among(
            name,
            &[
                b"EMPTY", b"WHERE", b"GROUP", b"ORDER", b"MATCH", b"COUNT", b"empty", b"where",
                b"group", b"order", b"match", b"count",
            ],
        ),
        6 => is_among(name, &[b"RETURN", b"return"]),
        8 => is_among(name, &[b"ALLOWING", b"DOCUMENT", b"allowing", b"document"]),
        9 => is_among(name, &[b"ASCENDING", b"ascending"]),
        10 => is_among(name, &[b"DESCENDING", b"descending"]),
        _ => false,
    }
}

fn is_among(name: &[u8], keywords: &[&[u8]]) -> bool
    ensures { result ≡ list_any (bytes_eq name.now) (map (λ keyword. keyword.now) keywords.now) }
{
    'keywords: for keyword in keywords {
        if is_same(name, keyword) {
            return true;
        }
    }
    false
}

pub fn is_same(a: &[u8], b: &[u8]) -> bool
    ensures { result ≡ bytes_eq a.now b.now }
{
    a == b
}
