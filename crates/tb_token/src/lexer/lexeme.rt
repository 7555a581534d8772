//! Tokens as the grammar of queries sees them.

ghost use Rattle.std.specs.Prelude.{◌≡◌, ◌≤◌, IfOk, length};
ghost use Rattle.tb_token.specs.tokens.Calls.{Rise};
ghost use Rattle.tb_token.specs.tokens.Lexemes.{bytes_of, toks_of, tok_of};

use crate::lexer::terminal::terminal_of;
use crate::lexer::token::Token;
use std::alloc::{AllocError, Global};
use std::marker::Model;

/// A token with its terminal, which is all that the grammar sees of it, its bytes, and its number in
/// the text, from 1. The terminal of a name is 0, of a variable 1, of a number 2, of a string 3, of
/// `text()` 4; signs have 8 and on, and keywords 64 and on, each in the order in which docs/FORMATS.md
/// lists them.
#[derive(Debug, Drop)]
pub struct Lexeme<'a> {
    pub terminal: u8,
    pub bytes: &'a [u8],
    pub number: u32,
}

impl<'a> Model for Lexeme<'a> {
    ghost use Rattle.tb_token.specs.grammar.Grammar.{Tok};

    ghost Value = { Tok };

    ghost view = { λ l. record { terminal = l.terminal; bytes = l.bytes.now; number = l.number } };
}

impl<'a> Lexeme<'a> {
    /// The token of this number.
    fn of(
        alloc: Global,
        text: &'a [u8],
        token: Token,
        number: u32,
    ) -> Result<Lexeme<'a>, AllocError>
        requires from { token.from ≤ token.to }
        requires to { token.to ≤ length text.now }
        ensures { IfOk result (λ lexeme. lexeme ≡ tok_of text.now token number) }
    {
        let bytes = bytes_of(text, token);
        let terminal = terminal_of(alloc, token.kind, bytes)?;
        Ok(Lexeme {
            terminal,
            bytes,
            number,
        })
    }
}

/// The tokens of the text with their terminals. They are such as `tokens` gives.
pub fn lexemes<'a>(
    alloc: Global,
    text: &'a [u8],
    tokens: &[Token],
) -> Result<Vec<Lexeme<'a>>, AllocError>
    requires short { length text.now ≤ 65536 }
    requires rise { Rise 0 (length text.now) tokens.now }
    ensures { IfOk result (λ lexemes. lexemes.items ≡ toks_of text.now tokens.now) }
{
    let mut lexemes = Vec::with_capacity(alloc, tokens.len())?;
    'tokens: for (at, token) in tokens.iter().enumerate() {
        lexemes.push(Lexeme::of(alloc, text, *token, at as u32 + 1)?)?;
    }
    Ok(lexemes)
}

/// The bytes of a token of the text.
fn bytes_of(text: &[u8], token: Token) -> &[u8]
    requires from { token.from ≤ token.to }
    requires to { token.to ≤ length text.now }
    ensures { result.now ≡ bytes_of text.now token }
{
    &text[token.from as usize..token.to as usize]
}
