//! One line, cut into what it says.

ghost use Rattle.std.specs.Prelude.{◌≡◌};
ghost use Rattle.tb_tree.specs.Names.{is_name, is_name_byte};
ghost use Rattle.tb_esis.specs.Lines.{attribute_of, before_space, behind_space, line_of, is_implied};
ghost use Rattle.tb_esis.specs.Readers.{said_by};

use memchr::memchr;

/// A line by its first byte, with its parts as they stand.
#[derive(Clone, Copy, Debug)]
pub enum Line<'a> {
    Opens(&'a [u8]),
    Closes(&'a [u8]),
    /// Name, type and value.
    Attribute(&'a [u8], &'a [u8], &'a [u8]),
    Characters(&'a [u8]),
    Conforms,
    PassedOver,
}

pub fn line_of(line: &[u8]) -> Line<'_>
    ensures { said_by result ≡ line_of line.now }
{
    let [lead, rest @ ..] = line else {
        return Line::PassedOver;
    };
    match *lead {
        b'(' => Line::Opens(rest),
        b')' => Line::Closes(rest),
        b'A' => attribute_of(rest),
        b'-' => Line::Characters(rest),
        b'C' => Line::Conforms,
        _ => Line::PassedOver,
    }
}

fn attribute_of(rest: &[u8]) -> Line<'_>
    ensures { said_by result ≡ attribute_of rest.now }
{
    let (name, rest) = cut_space(rest);
    let (kind, value) = cut_space(rest);
    Line::Attribute(name, kind, value)
}

/// What stands before the first space, and what stands behind it.
fn cut_space(bytes: &[u8]) -> (&[u8], &[u8])
    ensures before { result.0.now ≡ before_space bytes.now }
    ensures behind { result.1.now ≡ behind_space bytes.now }
{
    match memchr(b' ', bytes) {
        Some(at) => (&bytes[..at], &bytes[at + 1..]),
        None => (bytes, &[]),
    }
}

/// Whether an attribute of the type has no value.
pub fn is_implied(kind: &[u8]) -> bool
    ensures { result ≡ is_implied kind.now }
{
    kind == b"IMPLIED".as_slice()
}

pub fn is_name(bytes: &[u8]) -> bool
    ensures { result ≡ is_name bytes.now }
{
    'bytes: for byte in bytes {
        if !is_name_byte(*byte) {
            return false;
        }
    }
    !bytes.is_empty()
}

fn is_name_byte(byte: u8) -> bool
    ensures { result ≡ is_name_byte byte }
{
    byte >= 33 && byte != 127 && byte != b'\\'
}
