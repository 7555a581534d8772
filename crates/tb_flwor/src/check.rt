//! The first fault of a query's tokens.

ghost use Rattle.std.specs.Prelude.{◌≡◌, ◌≤◌, IfOk, length};
ghost use Rattle.tb_flwor.specs.Variables.{clauses_in};
ghost use Rattle.tb_flwor.specs.Calls.{Checks, ChecksLimits};
ghost use Rattle.tb_flwor.specs.Faults.{is_too_nested, fault_at_token, fault_in_results};

use crate::constructors::{first_repeated_attribute, first_wrong_tag, is_nested, results};
use crate::names::BoundNames;
use crate::variables::{bound, first_repeated, first_unknown, is_match};
use crate::{QueryFault, first_wrong_query};
use std::alloc::{AllocError, Global};
use tb_pattern::limits::{self, first_past, tests_in};
use tb_token::Lexeme;

/// The names that are bound, where the tokens are a query without fault, or else the first fault.
pub fn check<'a>(alloc: Global, tokens: &[Lexeme<'a>]) -> Result<BoundNames<'a>, QueryFault>
    requires { length tokens.now ≤ 65536 }
    ensures { Checks tokens.now result }
{
    let names = check_limits(alloc, tokens)?;
    if let Some(fault) = fault_at_token(alloc, tokens)? {
        return Err(fault);
    }
    Ok(names)
}

/// The names that are bound, where the tokens are a query within the limits, or else the first fault.
fn check_limits<'a>(alloc: Global, tokens: &[Lexeme<'a>]) -> Result<BoundNames<'a>, QueryFault>
    requires { length tokens.now ≤ 65536 }
    ensures { ChecksLimits tokens.now result }
{
    if let Some(number) = first_wrong_query(alloc, tokens)? {
        return Err(QueryFault::Syntax(number));
    }
    if is_too_nested(tokens) {
        return Err(QueryFault::TooNested);
    }
    if tests_in(tokens) > 64 {
        return Err(QueryFault::TooManyNodes);
    }
    let names = bound(alloc, clauses_in(tokens))?;
    let Some(names) = BoundNames::of(names) else {
        return Err(QueryFault::TooManyVariables);
    };
    Ok(names)
}

/// Whether more than 32 pattern nodes of a `MATCH` query, or constructors, are inside each other.
fn is_too_nested(tokens: &[Lexeme]) -> bool
    ensures { result ≡ is_too_nested tokens.now }
{
    if is_match(tokens) {
        limits::is_too_nested(tokens)
    } else {
        is_nested(results(tokens))
    }
}

/// The tokens of a query of clauses. A `MATCH` query has neither variables nor constructors.
fn clauses_in<'t, 'a>(tokens: &'t [Lexeme<'a>]) -> &'t [Lexeme<'a>]
    ensures { result.now ≡ clauses_in tokens.now }
{
    if is_match(tokens) { &[] } else { tokens }
}

/// The first of the faults that stand at a token. It is called where at most 32 variables are bound:
/// each use is looked for among their names.
fn fault_at_token(alloc: Global, tokens: &[Lexeme]) -> Result<Option<QueryFault>, AllocError>
    ensures { IfOk result (λ fault. fault ≡ fault_at_token tokens.now) }
{
    let clauses = clauses_in(tokens);
    if let Some(number) = first_unknown(alloc, clauses)? {
        return Ok(Some(QueryFault::UnknownVariable(number)));
    }
    if let Some(number) = first_repeated(alloc, clauses)? {
        return Ok(Some(QueryFault::RepeatedVariable(number)));
    }
    if let Some(number) = first_past(alloc, tokens)? {
        return Ok(Some(QueryFault::LiteralPast(number)));
    }
    fault_in_results(alloc, results(clauses))
}

/// The first of the faults of constructors.
fn fault_in_results(alloc: Global, tokens: &[Lexeme]) -> Result<Option<QueryFault>, AllocError>
    ensures { IfOk result (λ fault. fault ≡ fault_in_results tokens.now) }
{
    if let Some(number) = first_wrong_tag(alloc, tokens)? {
        return Ok(Some(QueryFault::WrongTag(number)));
    }
    if let Some(number) = first_repeated_attribute(alloc, tokens)? {
        return Ok(Some(QueryFault::RepeatedAttribute(number)));
    }
    Ok(None)
}
