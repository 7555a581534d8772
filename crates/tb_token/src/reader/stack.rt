//! The expressions that are still to come, and one terminal.

ghost use Rattle.std.specs.Prelude.{◌≡◌, IfOk};
ghost use Rattle.tb_token.specs.grammar.Reading.{may_end};
ghost use Rattle.tb_token.specs.reading.View.{rules_of};
ghost use Rattle.tb_token.specs.reading.Stack.{expressions_in, HaveGone};

use crate::reader::expression::{Expression, Grammar, is_never_empty};
use crate::reader::take::{Took, take};
use std::alloc::AllocError;

/// Whether the expressions can go on with the terminal. Then they have taken it.
pub fn goes_on<'g>(
    grammar: &Grammar<'g>,
    terminal: u8,
    stack: &mut Vec<&'g Expression<'g>>,
) -> Result<bool, AllocError>
    ensures { IfOk result (HaveGone (rules_of grammar.now) terminal stack.old.items stack.new.items) }
{
    'expressions: while let Some(expression) = stack.pop() {
        match take(grammar, expression, terminal, stack)? {
            Took::Taken => return Ok(true),
            Took::Passed => {}
            Took::Stuck => return Ok(false),
        }
    }
    Ok(false)
}

/// Whether no expression is left that must have a token. The stack is emptied for that.
pub fn may_end<'g>(stack: &mut Vec<&'g Expression<'g>>) -> bool
    ensures { result ≡ may_end (expressions_in stack.old.items) }
{
    'expressions: while let Some(expression) = stack.pop() {
        if is_never_empty(expression) {
            return false;
        }
    }
    true
}
