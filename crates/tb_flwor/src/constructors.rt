//! What a query of clauses returns, and the constructors in it: how deep they nest, their end tags,
//! and the names of their attributes.

ghost use Rattle.std.specs.Prelude.{◌≡◌, ◌≤◌, IfOk, OnOk};
ghost use Rattle.tb_flwor.specs.Constructors as constructors;
ghost use Rattle.tb_query.specs.Lent.{lent};
ghost use Rattle.tb_flwor.specs.Borrowed.{last_first, AreAlike};
ghost use Rattle.tb_flwor.specs.Started as steps;

use std::alloc::{AllocError, Global};
use std::collections::BTreeSet;
use tb_token::terminals::{
    AT, DOUBLE_SLASH, END_TAG, EQUAL, FOR, LESS, RETURN, SELF_CLOSE, SLASH, has,
};
use tb_token::{Lexeme, is_too_nested};

/// The tokens behind the keyword RETURN.
pub fn results<'t, 'a>(tokens: &'t [Lexeme<'a>]) -> &'t [Lexeme<'a>]
    ensures { result.now ≡ constructors.results tokens.now }
{
    let mut before = FOR;
    'tokens: for (at, token) in tokens.iter().enumerate() {
        if token.terminal == RETURN && !has(&[SLASH, DOUBLE_SLASH, AT], before) {
            return &tokens[at + 1..];
        }
        before = token.terminal;
    }
    &[]
}

/// Whether more than 32 constructors are inside each other.
pub fn is_nested(tokens: &[Lexeme]) -> bool
    ensures { result ≡ constructors.is_nested tokens.now }
{
    is_too_nested(tokens, &[LESS], &[SELF_CLOSE, END_TAG])
}

/// The number, from 1, of the first end tag's name token that is not the name of its start.
pub fn first_wrong_tag(alloc: Global, tokens: &[Lexeme]) -> Result<Option<u32>, AllocError>
    ensures { IfOk result (λ number. number ≡ constructors.first_wrong_tag tokens.now) }
{
    let mut started = Vec::new(alloc);
    'tokens: for (at, token) in tokens.iter().enumerate() {
        let rest = &tokens[at + 1..];
        if is_wrong_end(started.as_slice(), token.terminal, next_bytes(rest)) {
            return Ok(Some(next_number(rest)));
        }
        follow(&mut started, token.terminal, next_bytes(rest))?;
    }
    Ok(None)
}

/// Whether the terminal ends a constructor that has not this name.
fn is_wrong_end(started: &[&[u8]], terminal: u8, name: &[u8]) -> bool
    ensures { result ≡ steps.is_wrong_end (last_first started.now) terminal name.now }
{
    terminal == END_TAG && !is_ended_by(started, name)
}

/// Whether the constructor that was opened last has this name.
fn is_ended_by(started: &[&[u8]], name: &[u8]) -> bool
    ensures { result ≡ constructors.is_ended_by (last_first started.now) name.now }
{
    match started {
        [.., last] => *last == name,
        [] => false,
    }
}

/// Opens a constructor of this name, or closes the last one, as the terminal says.
fn follow<'a>(started: &mut Vec<&'a [u8]>, terminal: u8, name: &'a [u8]) -> Result<(), AllocError>
    ensures { OnOk result
        (last_first started.new.items
        ≡ steps.started_behind (last_first started.old.items) terminal name.now) }
{
    if terminal == LESS {
        started.push(name)?;
    } else if terminal == SELF_CLOSE || terminal == END_TAG {
        started.pop();
    }
    Ok(())
}

/// The bytes of the next token.
fn next_bytes<'a>(tokens: &[Lexeme<'a>]) -> &'a [u8]
    ensures { result.now ≡ constructors.next_bytes tokens.now }
{
    match tokens {
        [first, ..] => first.bytes,
        [] => &[],
    }
}

/// The number of the next token.
fn next_number(tokens: &[Lexeme]) -> u32
    ensures { result ≡ constructors.next_number tokens.now }
{
    match tokens {
        [first, ..] => first.number,
        [] => 0,
    }
}

/// The number, from 1, of the first attribute's name token that stands earlier in its constructor.
pub fn first_repeated_attribute(alloc: Global, tokens: &[Lexeme]) -> Result<Option<u32>, AllocError>
    ensures { IfOk result (λ number. number ≡ constructors.first_repeated_attribute tokens.now) }
{
    let mut names = BTreeSet::new(alloc);
    'tokens: for (at, token) in tokens.iter().enumerate() {
        if is_repeated(&mut names, token, &tokens[at + 1..])? {
            return Ok(Some(token.number));
        }
    }
    Ok(None)
}

/// Whether the token is an attribute's name that is among those before it. Its name becomes one of
/// them; a constructor may have many, so they are kept in a set.
fn is_repeated<'a>(
    names: &mut BTreeSet<&'a [u8]>,
    token: &Lexeme<'a>,
    rest: &[Lexeme<'a>],
) -> Result<bool, AllocError>
    ensures repeated { IfOk result
        (λ repeated. repeated ≡ steps.is_repeated (lent names.old.keys) token.now rest.now) }
    ensures names { OnOk result
        (AreAlike (lent names.new.keys)
        (steps.attributes_behind (lent names.old.keys) token.now rest.now)) }
{
    if token.terminal == LESS {
        names.clear();
        return Ok(false);
    }
    if !is_named(rest) {
        return Ok(false);
    }
    let new = names.insert(token.bytes)?;
    Ok(!new)
}

/// Whether `=` comes next.
fn is_named(tokens: &[Lexeme]) -> bool
    ensures { result ≡ constructors.is_named tokens.now }
{
    match tokens {
        [first, ..] => first.terminal == EQUAL,
        [] => false,
    }
}
