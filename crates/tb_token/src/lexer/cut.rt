//! A whole text, cut into tokens.

ghost use Rattle.std.specs.Prelude.{◌≡◌, ◌≤◌, ◌<◌, false, IfOk, length, drop, slice_index};
ghost use Rattle.tb_token.specs.tokens.Bytes.{is_blank};
ghost use Rattle.tb_token.specs.tokens.Calls.{Cuts, HasOneCut, Rise};
ghost use Rattle.tb_token.specs.tokens.Places.{StandsAt, fault_at};

use crate::lexer::bytes::{is_blank, is_quote};
use crate::lexer::fault::LexFault;
use crate::lexer::prefix::Prefix;
use crate::lexer::token::Token;
use std::alloc::Global;

/// The longest tokens of the text, or the first place at which none begins, in one pass.
#[tactic(auto, using(crate::proofs::lexing::CutLaws::one_cut))]
pub fn tokens(alloc: Global, text: &[u8]) -> Result<Vec<Token>, LexFault>
    requires { length text.now ≤ 65536 }
    ensures cut { Cuts text.now result }
    ensures once { HasOneCut text.now }
    ensures rise { IfOk result (λ tokens. Rise 0 (length text.now) tokens.items) }
{
    let mut found = Vec::new(alloc);
    let mut at = 0;
    'tokens: while at < text.len() {
        if is_blank(text[at]) {
            at += 1;
            continue;
        }
        let token = token_at(text, at)?;
        found.push(token)?;
        at = token.to as usize;
    }
    Ok(found)
}

/// The token that begins at this place, or the fault where none does.
fn token_at(text: &[u8], at: usize) -> Result<Token, LexFault>
    requires short { length text.now ≤ 65536 }
    requires within { at < length text.now }
    requires some { is_blank (slice_index text.now at) ≡ false }
    ensures { StandsAt at (drop at text.now) result }
{
    let Some(prefix) = Prefix::of(&text[at..]) else {
        return Err(fault_at(text[at], at as u32));
    };
    Ok(Token {
        kind: prefix.kind,
        from: at as u32,
        to: (at + prefix.size) as u32,
    })
}

/// The fault at a byte where no token begins.
fn fault_at(byte: u8, at: u32) -> LexFault
    ensures { result ≡ fault_at byte at }
{
    if is_quote(byte) {
        LexFault::OpenString(at)
    } else {
        LexFault::BadByte(at)
    }
}
