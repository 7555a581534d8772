//! Where tokens stop being a `MATCH` query.

ghost use Rattle.std.specs.Prelude.{◌≤◌, IfOk, length};
ghost use Rattle.tb_token.specs.grammar.Patterns.{match_query};
ghost use Rattle.tb_token.specs.grammar.Queries.{rules};
ghost use Rattle.tb_token.specs.reading.Calls.{FirstWrong};

use crate::grammar::{EDGES_REST, MATCH_QUERY, NAME};
use std::alloc::{AllocError, Global};
use tb_token::{Grammar, Lexeme, first_wrong};

/// The number, from 1, of the first token that begins no `MATCH` query with those before it, or one
/// more than there are. `None` for a query. Brackets inside each other cost no calls.
pub fn first_wrong_match(alloc: Global, tokens: &[Lexeme]) -> Result<Option<u32>, AllocError>
    requires { length tokens.now ≤ 65536 }
    ensures { IfOk result (FirstWrong rules match_query tokens.now) }
{
    let grammar = Grammar {
        start: &MATCH_QUERY,
        rules: &[&EDGES_REST],
        other: &NAME,
    };
    first_wrong(alloc, &grammar, tokens)
}
