//! The variables of a query of clauses: those that it binds, and the first that is bound twice or
//! that is not known where it is used.

ghost use Rattle.std.specs.Prelude.{◌≡◌, IfOk, OnOk, map};
ghost use Rattle.tb_flwor.specs.Variables as variables;
ghost use Rattle.tb_query.specs.Lent.{lent};
ghost use Rattle.tb_flwor.specs.Noted as noted;

use std::alloc::{AllocError, Global};
use tb_token::Lexeme;
use tb_token::terminals::{ALLOWING, ASSIGN, FOR, IN, MATCH, VARIABLE, has};

/// Whether the tokens begin with the keyword MATCH.
pub fn is_match(tokens: &[Lexeme]) -> bool
    ensures { result ≡ variables.is_match tokens.now }
{
    match tokens {
        [first, ..] => first.terminal == MATCH,
        [] => false,
    }
}

/// The names that are bound, in order, each with its `$`.
pub fn bound<'a>(alloc: Global, tokens: &[Lexeme<'a>]) -> Result<Vec<&'a [u8]>, AllocError>
    ensures { IfOk result (λ names. map (λ name. name.now) names.items ≡ variables.bound tokens.now) }
{
    let mut names = Vec::new(alloc);
    'tokens: for (at, token) in tokens.iter().enumerate() {
        note(&mut names, token, &tokens[at + 1..])?;
    }
    Ok(names)
}

/// Adds the token's name where the token binds it.
fn note<'a>(
    names: &mut Vec<&'a [u8]>,
    token: &Lexeme<'a>,
    rest: &[Lexeme],
) -> Result<(), AllocError>
    ensures { OnOk result (lent names.new.items ≡ noted.noted (lent names.old.items) token.now rest.now) }
{
    if is_bound(token, rest) {
        names.push(token.bytes)?;
    }
    Ok(())
}

/// Whether the token binds a variable, where these follow it.
fn is_bound(token: &Lexeme, rest: &[Lexeme]) -> bool
    ensures { result ≡ noted.is_bound token.now rest.now }
{
    token.terminal == VARIABLE && binds(rest)
}

/// Whether IN, ALLOWING or `:=` comes next.
fn binds(tokens: &[Lexeme]) -> bool
    ensures { result ≡ variables.binds tokens.now }
{
    match tokens {
        [first, ..] => has(&[IN, ALLOWING, ASSIGN], first.terminal),
        [] => false,
    }
}

/// The number, from 1, of the first binding of a name that an earlier binding has.
pub fn first_repeated(alloc: Global, tokens: &[Lexeme]) -> Result<Option<u32>, AllocError>
    ensures { IfOk result (λ number. number ≡ variables.first_repeated tokens.now) }
{
    let mut names = Vec::new(alloc);
    'tokens: for (at, token) in tokens.iter().enumerate() {
        let rest = &tokens[at + 1..];
        if is_bound(token, rest) && is_known(names.as_slice(), token.bytes) {
            return Ok(Some(token.number));
        }
        note(&mut names, token, rest)?;
    }
    Ok(None)
}

/// Whether the name is among these.
fn is_known(names: &[&[u8]], name: &[u8]) -> bool
    ensures { result ≡ variables.is_known (lent names.now) name.now }
{
    'names: for known in names {
        if name == *known {
            return true;
        }
    }
    false
}

/// The number, from 1, of the first use of a variable with no binding whose path ends before it.
pub fn first_unknown(alloc: Global, tokens: &[Lexeme]) -> Result<Option<u32>, AllocError>
    ensures { IfOk result (λ number. number ≡ variables.first_unknown tokens.now) }
{
    let mut names = Vec::new(alloc);
    let mut before = FOR;
    'tokens: for (at, token) in tokens.iter().enumerate() {
        let rest = &tokens[at + 1..];
        if is_used(token, rest) && !is_known(known_behind(before, names.as_slice()), token.bytes) {
            return Ok(Some(token.number));
        }
        note(&mut names, token, rest)?;
        before = token.terminal;
    }
    Ok(None)
}

/// Whether the token uses a variable, where these follow it.
fn is_used(token: &Lexeme, rest: &[Lexeme]) -> bool
    ensures { result ≡ noted.is_used token.now rest.now }
{
    token.terminal == VARIABLE && !binds(rest)
}

/// The names that are known behind a token of that terminal, where these are bound.
fn known_behind<'n, 'a>(before: u8, names: &'n [&'a [u8]]) -> &'n [&'a [u8]]
    ensures { lent result.now ≡ variables.known_behind before (lent names.now) }
{
    if has(&[IN, ASSIGN], before) {
        &names[..names.len().saturating_sub(1)]
    } else {
        names
    }
}
