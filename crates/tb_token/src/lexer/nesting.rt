//! How many tokens are open at once.

ghost use Rattle.std.specs.Prelude.{◌≡◌, ◌≤◌};
ghost use Rattle.tb_token.specs.tokens.Nesting.{open_behind, is_too_nested};

use crate::lexer::lexeme::Lexeme;
use crate::lexer::terminals::has;

/// Whether more than 32 tokens are open somewhere, where the first terminals open one each, and the
/// others close one each.
pub fn is_too_nested(tokens: &[Lexeme], opening: &[u8], closing: &[u8]) -> bool
    ensures { result ≡ is_too_nested opening.now closing.now tokens.now }
{
    let mut depth = 0;
    'tokens: for token in tokens {
        depth = open_behind(opening, closing, depth, token.terminal);
        if depth > 32 {
            return true;
        }
    }
    false
}

/// How many are open behind the terminal.
fn open_behind(opening: &[u8], closing: &[u8], depth: u32, terminal: u8) -> u32
    requires { depth ≤ 32 }
    ensures { result ≡ open_behind opening.now closing.now depth terminal }
{
    if has(opening, terminal) {
        depth + 1
    } else if has(closing, terminal) {
        depth.saturating_sub(1)
    } else {
        depth
    }
}
