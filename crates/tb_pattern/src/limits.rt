//! The limits of a query: how deep it nests, how many tests it has, and how large its numbers are.

ghost use Rattle.std.specs.Prelude.{◌≡◌, ◌≤◌, IfOk, length};
ghost use Rattle.tb_pattern.specs.Faults.{is_too_nested, tests_of};
ghost use Rattle.tb_pattern.specs.Faults.{literal_in, is_past, first_past};

use std::alloc::{AllocError, Global};
use tb_number::IntText;
use tb_token::Lexeme;
use tb_token::terminals::{AXES, CLOSE, MINUS, NUMBER, OPEN, has};

/// Whether more than 32 brackets are open somewhere.
pub fn is_too_nested(tokens: &[Lexeme]) -> bool
    ensures { result ≡ is_too_nested tokens.now }
{
    tb_token::is_too_nested(tokens, &[OPEN], &[CLOSE])
}

/// How many tests are written.
pub fn tests_in(tokens: &[Lexeme]) -> usize
    ensures { result ≡ tests_of tokens.now }
{
    let mut tests = 0;
    'tokens: for token in tokens {
        if has(AXES, token.terminal) {
            tests += 1;
        }
    }
    tests
}

/// The number, from 1, of the first number token that is outside the range with its sign.
pub fn first_past(alloc: Global, tokens: &[Lexeme]) -> Result<Option<u32>, AllocError>
    ensures { IfOk result (λ past. past ≡ first_past tokens.now) }
{
    let mut minus = false;
    'tokens: for token in tokens {
        if is_past(alloc, minus, token)? {
            return Ok(Some(token.number));
        }
        minus = token.terminal == MINUS;
    }
    Ok(None)
}

/// Whether the token is a number that is outside the range, behind a `-` or not.
fn is_past(alloc: Global, minus: bool, token: &Lexeme) -> Result<bool, AllocError>
    ensures { IfOk result (λ past. past ≡ is_past minus token.now.terminal token.now.bytes) }
{
    if token.terminal != NUMBER {
        return Ok(false);
    }
    let number = literal_in(alloc, minus, token.bytes)?;
    Ok(number.is_none())
}

/// The number of a literal, or `None` where it is outside the signed range of 128 bits.
pub fn literal_in(alloc: Global, minus: bool, digits: &[u8]) -> Result<Option<i128>, AllocError>
    ensures { IfOk result (λ number. number ≡ literal_in minus digits.now) }
{
    let mut text = Vec::new(alloc);
    if minus {
        text.push(b'-')?;
    }
    text.extend_from_slice(digits)?;
    let Some(number) = IntText::read(text.as_slice()) else {
        return Ok(None);
    };
    Ok(number.in_range())
}
