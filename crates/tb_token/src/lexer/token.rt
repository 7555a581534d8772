//! One token of a text.

/// What a token is.
#[derive(Clone, Copy, Debug, PartialEq, Eq)]
pub enum Kind {
    Name,
    /// One of the keywords of the language, in capitals or in small letters. It is a name too.
    Word,
    /// `$` and a name.
    Variable,
    Number,
    /// Bytes between two quotes.
    Quoted,
    /// `text()` or `TEXT()`.
    TextTest,
    Sign,
}

/// A token is the bytes of its text at `from` and up to `to`, which isn't among them, from 0.
#[derive(Clone, Copy, Debug, PartialEq, Eq)]
pub struct Token {
    pub kind: Kind,
    pub from: u32,
    pub to: u32,
}
