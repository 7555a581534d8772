//! Grammars as data.

ghost use Rattle.std.specs.Prelude.{◌≡◌};
ghost use Rattle.tb_token.specs.grammar.Reading.{is_never_empty};
ghost use Rattle.tb_token.specs.reading.View.{expression_of, rules_of};
ghost use Rattle.tb_token.specs.reading.Machine.{begins_by};

use crate::lexer::terminals::has;

/// What a rule is made of.
#[derive(Clone, Copy)]
pub enum Expression<'g> {
    /// One token whose terminal is among these.
    One(&'g [u8]),
    /// The first, and behind it the second.
    Both(&'g Expression<'g>, &'g Expression<'g>),
    /// The first or the second.
    Either(&'g Expression<'g>, &'g Expression<'g>),
    /// The expression, or nothing.
    Maybe(&'g Expression<'g>),
    /// The expression any number of times.
    Many(&'g Expression<'g>),
    /// One token whose terminal is among these, and behind it what the rule of this number says.
    Opened(&'g [u8], usize),
}

/// An expression that sentences are read by, and what each rule says.
#[derive(Clone, Copy)]
pub struct Grammar<'g> {
    pub start: &'g Expression<'g>,
    /// By their numbers, from 0.
    pub rules: &'g [&'g Expression<'g>],
    /// What any other rule says.
    pub other: &'g Expression<'g>,
}

impl<'g> Grammar<'g> {
    /// What the rule says.
    pub fn rule(&self, number: usize) -> &'g Expression<'g>
        ensures { expression_of result.now ≡ rules_of self.now number }
    {
        if number < self.rules.len() {
            return self.rules[number];
        }
        self.other
    }
}

/// Whether the expression begins with the terminal, or what is behind it does, where it may be empty.
pub fn begins(expression: &Expression, terminal: u8, behind: bool) -> bool
    ensures { result ≡ begins_by (expression_of expression.now) terminal behind }
{
    match expression {
        Expression::One(terminals) => has(terminals, terminal),
        Expression::Both(first, second) => {
            begins(first, terminal, false)
                || (!is_never_empty(first) && begins(second, terminal, behind))
        }
        Expression::Either(first, second) => {
            begins(first, terminal, behind) || begins(second, terminal, behind)
        }
        Expression::Maybe(expression) => behind || begins(expression, terminal, false),
        Expression::Many(expression) => behind || begins(expression, terminal, false),
        Expression::Opened(terminals, _) => has(terminals, terminal),
    }
}

/// Whether each sentence of the expression has a token.
pub fn is_never_empty(expression: &Expression) -> bool
    ensures { result ≡ is_never_empty (expression_of expression.now) }
{
    match expression {
        Expression::One(_) => true,
        Expression::Both(first, second) => is_never_empty(first) || is_never_empty(second),
        Expression::Either(first, second) => is_never_empty(first) && is_never_empty(second),
        Expression::Maybe(_) => false,
        Expression::Many(_) => false,
        Expression::Opened(_, _) => true,
    }
}
