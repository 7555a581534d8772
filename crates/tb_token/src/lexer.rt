//! Tokens: a text cut into them, and what the grammar sees of each.

mod bytes;
pub mod cut;
pub mod fault;
pub mod lexeme;
mod names;
pub mod nesting;
mod prefix;
mod signs;
mod terminal;
pub mod terminals;
pub mod token;
