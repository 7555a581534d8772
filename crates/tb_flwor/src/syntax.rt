//! Where tokens stop being a query.

ghost use Rattle.std.specs.Prelude.{◌≤◌, IfOk, length};
ghost use Rattle.tb_flwor.specs.Calls.{FirstWrong};

use crate::grammar::{CONS_REST, QUERY};
use std::alloc::{AllocError, Global};
use tb_pattern::grammar::{EDGES_REST, NAME};
use tb_token::{Grammar, Lexeme, first_wrong};

/// The number, from 1, of the first token that begins no query with those before it, or one more than
/// there are. `None` for a query. Brackets and constructors inside each other cost no calls.
pub fn first_wrong_query(alloc: Global, tokens: &[Lexeme]) -> Result<Option<u32>, AllocError>
    requires { length tokens.now ≤ 65536 }
    ensures { IfOk result (FirstWrong tokens.now) }
{
    let grammar = Grammar {
        start: &QUERY,
        rules: &[&EDGES_REST, &CONS_REST],
        other: &NAME,
    };
    first_wrong(alloc, &grammar, tokens)
}
