//! A whole query.

ghost use Rattle.std.specs.Prelude.{◌≡◌, ◌≤◌, IfOk, length};
ghost use Rattle.tb_query.specs.Plannable.{IsPlannable};
ghost use Rattle.tb_flwor.specs.Variables.{bound, clauses_in};
ghost use Rattle.tb_flwor.specs.Built.{Asks};
ghost use Rattle.tb_flwor.specs.Calls.{CutsQuery, Reads};

use crate::QueryFault;
use crate::build::flwor;
use crate::check::check;
use crate::names::BoundNames;
use crate::variables::is_match;
use std::alloc::{AllocError, Global};
use tb_pattern::build::pattern;
use tb_query::Query;
use tb_token::{LexFault, Lexeme, Token, lexemes, tokens};

/// The query that the text asks for, which can be planned, or the first of its faults. Each token is
/// looked at a few times; what nests costs no calls before it is known to nest in 32 levels at most.
pub fn read_query(alloc: Global, text: &[u8]) -> Result<Query, QueryFault>
    ensures reads { Reads text.now result }
    ensures plannable { IfOk result (λ query. IsPlannable query) }
{
    if text.len() > 65_536 {
        return Err(QueryFault::TooLong);
    }
    let tokens = cut(alloc, text)?;
    let lexemes = lexemes(alloc, text, tokens.as_slice())?;
    let names = check(alloc, lexemes.as_slice())?;
    Ok(query(alloc, &names, lexemes.as_slice())?)
}

/// The tokens of the text.
fn cut(alloc: Global, text: &[u8]) -> Result<Vec<Token>, QueryFault>
    requires { length text.now ≤ 65536 }
    ensures { CutsQuery text.now result }
{
    match tokens(alloc, text) {
        Ok(tokens) => Ok(tokens),
        Err(LexFault::BadByte(at)) => Err(QueryFault::BadByte(at)),
        Err(LexFault::OpenString(at)) => Err(QueryFault::OpenString(at)),
        Err(LexFault::NoMemory) => Err(QueryFault::NoMemory),
    }
}

/// The query of tokens without fault, in which these names are bound.
fn query(alloc: Global, names: &BoundNames, tokens: &[Lexeme]) -> Result<Query, AllocError>
    requires { names.now ≡ bound (clauses_in tokens.now) }
    ensures { IfOk result (Asks tokens.now) }
{
    if is_match(tokens) {
        return Ok(Query::Match(pattern(alloc, tokens)?));
    }
    let (query, _) = flwor(alloc, names, tokens)?;
    Ok(Query::Flwor(query))
}
