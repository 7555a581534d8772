//! The next tokens of a query, as what they stand for.

ghost use Rattle.std.specs.Prelude.{◌≡◌, IfOk, drop};
ghost use Rattle.tb_pattern.specs.Building as built;
ghost use Rattle.tb_pattern.specs.Value as value;
ghost use Rattle.tb_token.specs.tokens.TerminalNames as terminals;

use crate::Mark;
use std::alloc::{AllocError, Global};
use tb_number::CmpOp;
use tb_span::Axis;
use tb_token::Lexeme;
use tb_token::terminals::{
    DOUBLE_SLASH, GREATER, GREATER_OR_EQUAL, LESS, LESS_OR_EQUAL, NAMES, NOT_EQUAL, PLUS, QUESTION,
    STAR, has,
};
use tb_tree::Bytes;

/// Whether the next token's terminal is among these.
pub fn begins(tokens: &[Lexeme], terminals: &[u8]) -> bool
    ensures { result ≡ built.begins terminals.now tokens.now }
{
    match tokens {
        [first, ..] => has(terminals, first.terminal),
        [] => false,
    }
}

/// Whether the next token is a name or a keyword.
pub fn begins_name(tokens: &[Lexeme]) -> bool
    ensures { result ≡ built.begins terminals.NAMES tokens.now }
{
    begins(tokens, NAMES)
}

/// The tokens behind the first few.
pub fn behind<'t, 'a>(tokens: &'t [Lexeme<'a>], few: usize) -> &'t [Lexeme<'a>]
    ensures { result.now ≡ drop few tokens.now }
{
    if few < tokens.len() {
        &tokens[few..]
    } else {
        &[]
    }
}

/// The terminal of the next token, or that of a name where there is none.
fn terminal(tokens: &[Lexeme]) -> u8
    ensures { result ≡ value.terminal_in (built.next tokens.now) }
{
    match tokens {
        [first, ..] => first.terminal,
        [] => 0,
    }
}

/// The bytes of the next token, or none where there is none.
pub fn bytes<'a>(tokens: &[Lexeme<'a>]) -> &'a [u8]
    ensures { result.now ≡ value.bytes_in (built.next tokens.now) }
{
    match tokens {
        [first, ..] => first.bytes,
        [] => b"",
    }
}

/// The bytes between the quotes of the next token.
pub fn quoted(alloc: Global, tokens: &[Lexeme]) -> Result<Bytes, AllocError>
    ensures { IfOk result (λ text. text ≡ value.inside (value.bytes_in (built.next tokens.now))) }
{
    let text = between_quotes(bytes(tokens)).to_vec(alloc)?;
    Ok(Bytes::from_vec(text))
}

fn between_quotes(bytes: &[u8]) -> &[u8]
    ensures { result.now ≡ value.inside bytes.now }
{
    match bytes {
        [_, inside @ .., _] => inside,
        _ => b"",
    }
}

pub fn axis(tokens: &[Lexeme]) -> Axis
    ensures { result ≡ value.axis_of (built.next tokens.now) }
{
    if terminal(tokens) == DOUBLE_SLASH {
        Axis::Descendant
    } else {
        Axis::Child
    }
}

pub fn mark(tokens: &[Lexeme]) -> Mark
    ensures { result ≡ value.mark_of (built.next tokens.now) }
{
    match terminal(tokens) {
        QUESTION => Mark::Optional,
        PLUS => Mark::Some,
        STAR => Mark::Any,
        _ => Mark::One,
    }
}

pub fn op(tokens: &[Lexeme]) -> CmpOp
    ensures { result ≡ value.op_of (built.next tokens.now) }
{
    match terminal(tokens) {
        NOT_EQUAL => CmpOp::Ne,
        LESS => CmpOp::Lt,
        LESS_OR_EQUAL => CmpOp::Le,
        GREATER => CmpOp::Gt,
        GREATER_OR_EQUAL => CmpOp::Ge,
        _ => CmpOp::Eq,
    }
}
