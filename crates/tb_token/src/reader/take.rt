//! One expression and one terminal.

ghost use Rattle.std.specs.Prelude.{◌≡◌, IfOk, if◌then◌else◌};
ghost use Rattle.tb_token.specs.reading.View.{expression_of, rules_of};
ghost use Rattle.tb_token.specs.reading.Machine.{step};
ghost use Rattle.tb_token.specs.declared.reader.take.Took.TheVariants.{Taken, Stuck};
ghost use Rattle.tb_token.specs.reading.Stack.{HasTaken, is_passed, of_more};

use crate::lexer::terminals::has;
use crate::reader::expression::{Expression, Grammar, begins};
use std::alloc::AllocError;

/// What an expression did with a terminal.
#[derive(Clone, Copy, Debug, PartialEq, Eq)]
pub enum Took {
    /// It took it.
    Taken,
    /// It leaves it to what is behind.
    Passed,
    /// It cannot go on.
    Stuck,
}

impl Took {
    fn is_passed(self) -> bool
        ensures { result ≡ is_passed self }
    {
        match self {
            Took::Passed => true,
            Took::Taken | Took::Stuck => false,
        }
    }

    /// What a repetition did, where this is what its expression did, which begins with the terminal.
    fn of_more(self) -> Took
        ensures { result ≡ of_more self }
    {
        match self {
            Took::Taken => Took::Taken,
            Took::Passed | Took::Stuck => Took::Stuck,
        }
    }
}

/// Lets the expression take the terminal, and puts what is left of the expression on the stack.
pub fn take<'g>(
    grammar: &Grammar<'g>,
    expression: &'g Expression<'g>,
    terminal: u8,
    stack: &mut Vec<&'g Expression<'g>>,
) -> Result<Took, AllocError>
    ensures { IfOk result (HasTaken (step (rules_of grammar.now) (expression_of expression.now) terminal)
        stack.old.items stack.new.items) }
{
    match expression {
        Expression::One(terminals) => Ok(taken_if(has(terminals, terminal))),
        Expression::Both(first, second) => {
            stack.push(second)?;
            let took = take(grammar, first, terminal, stack)?;
            if !took.is_passed() {
                return Ok(took);
            }
            let _second = stack.pop();
            take(grammar, second, terminal, stack)
        }
        Expression::Either(first, _) if begins(first, terminal, false) => {
            take(grammar, first, terminal, stack)
        }
        Expression::Either(_, second) => take(grammar, second, terminal, stack),
        Expression::Maybe(inner) if begins(inner, terminal, false) => take(
            grammar, inner, terminal, stack,
        ),
        Expression::Maybe(_) => Ok(Took::Passed),
        Expression::Many(inner) if begins(inner, terminal, false) => {
            stack.push(expression)?;
            Ok(take(grammar, inner, terminal, stack)?.of_more())
        }
        Expression::Many(_) => Ok(Took::Passed),
        Expression::Opened(terminals, rule) if has(terminals, terminal) => {
            stack.push(grammar.rule(*rule))?;
            Ok(Took::Taken)
        }
        Expression::Opened(_, _) => Ok(Took::Stuck),
    }
}

fn taken_if(is: bool) -> Took
    ensures { result ≡ (if is then Taken else Stuck) }
{
    if is { Took::Taken } else { Took::Stuck }
}
