//! The number that digits write, compared and taken in place.

ghost use Rattle.std.specs.Prelude.{◌≡◌, ◌<◌, ◌^◌, IsTrue, SomeIff};
ghost use Rattle.std.specs.List.{list_all};
ghost use Rattle.tb_number.specs.IntText.{is_digit, with_digit, number_of};
ghost use Rattle.tb_number.specs.Reduced.{digits_cmp};

use std::cmp::Ordering;

/// The order of two numbers whose digits have no leading zeros: a shorter list first, lists of one
/// length by bytes.
pub fn compare_digits(left: &[u8], right: &[u8]) -> Ordering
    ensures { result ≡ digits_cmp left.now right.now }
{
    left.len().cmp(&right.len()).then(left.cmp(right))
}

/// The number, or `None` where it needs more than 128 bits. Without leading zeros at most 40 digits
/// are looked at.
pub fn small_number(digits: &[u8]) -> Option<u128>
    requires { IsTrue (list_all is_digit digits.now) }
    ensures { SomeIff result (number_of digits.now < 2 ^ 128) (number_of digits.now) }
{
    let mut number = 0;
    'digits: for digit in digits {
        number = with_digit(number, *digit)?;
    }
    Some(number)
}

/// The number with one digit more behind it.
fn with_digit(number: u128, digit: u8) -> Option<u128>
    requires { IsTrue (is_digit digit) }
    ensures { SomeIff result (with_digit number digit < 2 ^ 128) (with_digit number digit) }
{
    number
        .checked_mul(10)?
        .checked_add(u128::from(digit - b'0'))
}
