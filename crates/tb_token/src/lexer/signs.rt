//! Signs at the beginning of bytes.

ghost use Rattle.std.specs.Prelude.{◌≡◌};
ghost use Rattle.tb_token.specs.tokens.Prefixes.{is_single, is_pair};

/// Whether the two bytes are a sign.
pub fn is_pair(first: u8, second: u8) -> bool
    ensures { result ≡ is_pair first second }
{
    (first == b'/' && (second == b'/' || second == b'>'))
        || (first == b'<' && (second == b'/' || second == b'='))
        || ((first == b'>' || first == b'!' || first == b':') && second == b'=')
}

/// Whether the byte alone is a sign.
pub fn is_single(byte: u8) -> bool
    ensures { result ≡ is_single byte }
{
    b"/<>!=()[]{},@*-+?".contains(&byte)
}
