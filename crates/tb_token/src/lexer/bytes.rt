//! What single bytes are.

ghost use Rattle.std.specs.Prelude.{◌≡◌};
ghost use Rattle.tb_token.specs.tokens.Bytes.{is_blank, is_digit, is_quote, starts_name};

pub fn is_blank(byte: u8) -> bool
    ensures { result ≡ is_blank byte }
{
    byte == b'\t' || byte == b'\n' || byte == b'\r' || byte == b' '
}

pub fn is_digit(byte: u8) -> bool
    ensures { result ≡ is_digit byte }
{
    byte >= b'0' && byte <= b'9'
}

pub fn is_quote(byte: u8) -> bool
    ensures { result ≡ is_quote byte }
{
    byte == b'"' || byte == b'\''
}

/// Whether a name may begin with the byte.
pub fn starts_name(byte: u8) -> bool
    ensures { result ≡ starts_name byte }
{
    (byte >= b'A' && byte <= b'Z') || (byte >= b'a' && byte <= b'z') || byte == b'_' || byte >= 128
}
