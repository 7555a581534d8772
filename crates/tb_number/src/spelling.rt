//! Where blanks, the sign and the digits stand in the bytes of an integer text.

ghost use Rattle.std.specs.Prelude.{◌≡◌, ◌≤◌, IsTrue, IfSome, length};
ghost use Rattle.std.specs.List.{prefix_len, list_all};
ghost use Rattle.std.specs.Option.{option_map};
ghost use Rattle.tb_number.specs.IntText.{is_blank, is_digit};
ghost use Rattle.tb_number.specs.Reading.{without_blanks, begins_with_minus, without_sign};
ghost use Rattle.tb_number.specs.Reading.{leading_digits, signed_digits, behind_digits};
ghost use Rattle.tb_number.specs.Reduced.{without_zeros, keeps_minus};

/// The bytes from the first one on that is no blank.
pub fn without_blanks(bytes: &[u8]) -> &[u8]
    ensures { result.now ≡ without_blanks bytes.now }
{
    'blanks: for (at, byte) in bytes.iter().enumerate() {
        if !is_blank(*byte) {
            return &bytes[at..];
        }
    }
    &bytes[bytes.len()..]
}

/// Whether the bytes begin with `-`.
pub fn begins_with_minus(bytes: &[u8]) -> bool
    ensures { result ≡ begins_with_minus bytes.now }
{
    match bytes {
        [first, ..] => *first == b'-',
        [] => false,
    }
}

/// The bytes behind a sign, where they begin with one.
pub fn without_sign(bytes: &[u8]) -> &[u8]
    ensures { result.now ≡ without_sign bytes.now }
{
    match bytes {
        [first, behind @ ..] if *first == b'+' || *first == b'-' => behind,
        _ => bytes,
    }
}

/// The digits at the start, where there is one and only blanks are behind them.
pub fn leading_digits(bytes: &[u8]) -> Option<&[u8]>
    ensures prefix { option_map (λ digits. digits.now) result ≡ leading_digits bytes.now }
    ensures digits { IfSome result (λ digits. IsTrue (list_all is_digit digits.now)) }
{
    let len = digits_len(bytes);
    if len == 0 || !is_all_blank(&bytes[len..]) {
        return None;
    }
    Some(&bytes[..len])
}

/// Whether the bytes begin with `-`, the digits behind a sign, and what is behind those.
pub fn signed_digits(bytes: &[u8]) -> (bool, &[u8], &[u8])
    ensures minus { result.0 ≡ begins_with_minus bytes.now }
    ensures digits { result.1.now ≡ signed_digits bytes.now }
    ensures behind { result.2.now ≡ behind_digits bytes.now }
{
    let unsigned = without_sign(bytes);
    let len = digits_len(unsigned);
    (begins_with_minus(bytes), &unsigned[..len], &unsigned[len..])
}

/// The digits from the first one on that is no `0`.
pub fn without_zeros(digits: &[u8]) -> &[u8]
    ensures { result.now ≡ without_zeros digits.now }
{
    'zeros: for (at, digit) in digits.iter().enumerate() {
        if *digit != b'0' {
            return &digits[at..];
        }
    }
    &digits[digits.len()..]
}

/// A minus is kept where there is a digit, so zero has none.
pub fn keeps_minus(minus: bool, digits: &[u8]) -> bool
    ensures { result ≡ keeps_minus minus digits.now }
{
    minus && !digits.is_empty()
}

/// How many digits stand at the start.
fn digits_len(bytes: &[u8]) -> usize
    ensures len { result ≡ prefix_len is_digit bytes.now }
    ensures within { result ≤ length bytes.now }
{
    'digits: for (at, byte) in bytes.iter().enumerate() {
        if !is_digit(*byte) {
            return at;
        }
    }
    bytes.len()
}

fn is_all_blank(bytes: &[u8]) -> bool
    ensures { result ≡ list_all is_blank bytes.now }
{
    bytes.iter().all(|byte| is_blank(*byte))
}

fn is_blank(byte: u8) -> bool
    ensures { result ≡ is_blank byte }
{
    byte == b'\t' || byte == b'\n' || byte == b'\r' || byte == b' '
}

fn is_digit(byte: u8) -> bool
    ensures { result ≡ is_digit byte }
{
    byte >= b'0' && byte <= b'9'
}
