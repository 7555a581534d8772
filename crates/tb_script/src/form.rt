//! The forms of a line outside bodies, and the names in it.

ghost use Rattle.std.specs.Prelude.{◌≡◌};
ghost use Rattle.std.specs.List.{list_all};
ghost use Rattle.std.specs.Str.{bytes_eq};
ghost use Rattle.tb_script.specs.Forms.{is_label_byte, is_label, is_passed, is_dot, form_of, name_in};

/// What a line is.
#[derive(Clone, Copy, Debug, PartialEq, Eq)]
pub enum Form {
    Passed,
    Unknown,
    Session,
    Load,
    Query,
    Tell,
    Hear,
}

impl Form {
    /// Anything may follow the one space of a `load`, a `tell` and a `hear`.
    pub fn of(line: &[u8]) -> Form
        ensures { result ≡ form_of line.now }
    {
        if is_passed(line) {
            return Form::Passed;
        }
        if is_same(line, b"session") {
            return Form::Session;
        }
        if is_same(line, b"query") {
            return Form::Query;
        }
        if line.starts_with(b"load ") {
            return Form::Load;
        }
        if line.starts_with(b"tell ") {
            return Form::Tell;
        }
        if line.starts_with(b"hear ") {
            return Form::Hear;
        }
        Form::Unknown
    }
}

fn is_passed(line: &[u8]) -> bool
    ensures { result ≡ is_passed line.now }
{
    match line {
        [first, ..] => *first == b'#',
        [] => true,
    }
}

/// Whether the line ends a body.
pub fn is_dot(line: &[u8]) -> bool
    ensures { result ≡ is_dot line.now }
{
    is_same(line, b".")
}

/// What follows `load `, `tell ` or `hear `.
pub fn name_in(line: &[u8]) -> &[u8]
    ensures { result.now ≡ name_in line.now }
{
    match line {
        [_, _, _, _, _, name @ ..] => name,
        _ => &[],
    }
}

/// Whether the bytes are a name of a document or a mark.
pub fn is_label(bytes: &[u8]) -> bool
    ensures { result ≡ is_label bytes.now }
{
    bytes.len() >= 1 && bytes.len() <= 64 && are_label_bytes(bytes)
}

fn are_label_bytes(bytes: &[u8]) -> bool
    ensures { result ≡ list_all is_label_byte bytes.now }
{
    'bytes: for byte in bytes {
        if !is_label_byte(*byte) {
            return false;
        }
    }
    true
}

fn is_label_byte(byte: u8) -> bool
    ensures { result ≡ is_label_byte byte }
{
    byte.is_ascii_alphanumeric() || byte == b'_' || byte == b'-' || byte == b'.'
}

fn is_same(a: &[u8], b: &[u8]) -> bool
    ensures { result ≡ bytes_eq a.now b.now }
{
    a == b
}
