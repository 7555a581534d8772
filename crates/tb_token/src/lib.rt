//! The tokens and the grammar of queries, and reading by any grammar.
//!
//! Readers of queries call it. What is proved is that `tokens` cuts a text into its longest tokens,
//! or finds the first place at which none begins (`cut`), and that there is one such cut (`once`);
//! that `lexemes` gives the tokens as the grammar sees them; of every grammar that one token of
//! look-ahead decides, that it gives one tree (`tree`) and that `first_wrong` finds the first token
//! that begins no sentence of it with those before; and that the grammar of queries is one of these
//! (`readable`).
#![tactic(auto)]

mod grammar_laws;
mod lexer;
mod query_laws;
mod reader;

pub use grammar_laws::laws;
pub use lexer::cut::tokens;
pub use lexer::fault::LexFault;
pub use lexer::lexeme::{Lexeme, lexemes};
pub use lexer::nesting::is_too_nested;
pub use lexer::terminals;
pub use lexer::token::{Kind, Token};
pub use query_laws::laws_of_queries;
pub use reader::expression::{Expression, Grammar};
pub use reader::wrong::first_wrong;

#[cfg(test)]
mod tests;
