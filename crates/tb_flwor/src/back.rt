//! What a query returns, at the beginning of its tokens. Constructors inside each other are calls inside
//! each other, and in a query without fault they have at most 32 levels.

ghost use Rattle.std.specs.Prelude.{◌≡◌, ◌-◌, ◌≤◌, IfOk, length};
ghost use Rattle.tb_token.specs.grammar.Grammar.{many};
ghost use Rattle.tb_pattern.specs.Building.{Builds, next};
ghost use Rattle.tb_pattern.specs.Value.{bytes_in};
ghost use Rattle.tb_token.specs.grammar.Results as part;
ghost use Rattle.tb_flwor.specs.Built.{Gives, IsBack, IsCons, AreInside, AreParts, IsPart, AreAttrs, inside};
ghost use Rattle.tb_flwor.specs.Results.{attr_from};

use crate::names::BoundNames;
use crate::operand::content;
use crate::path::path;
use std::alloc::{AllocError, Global};
use tb_pattern::prefix::{begins, begins_name, behind, bytes};
use tb_query::{AttrPart, Back, Cons, Part};
use tb_token::Lexeme;
use tb_token::terminals::{DOCUMENT, LESS, OPEN_BRACE, QUOTED, SELF_CLOSE, VARIABLE};
use tb_tree::{Bytes, Items};

/// path | "<" and the rest of the constructor
pub fn back<'t, 'a>(
    alloc: Global,
    names: &BoundNames,
    tokens: &'t [Lexeme<'a>],
) -> Result<(Back, &'t [Lexeme<'a>]), AllocError>
    ensures { IfOk result (λ r. Builds part.back (IsBack names.now r.0) tokens.now r.1.now) }
{
    if begins(tokens, &[DOCUMENT, VARIABLE]) {
        let (path, left) = path(alloc, names, tokens)?;
        return Ok((Back::Nodes(path), left));
    }
    let (inner, left) = cons(alloc, names, behind(tokens, 1))?;
    Ok((Back::Cons(inner), left))
}

/// NAME { attr } ( "/>" | ">" { piece } "</" NAME ">" )
#[cycle(building)]
fn cons<'t, 'a>(
    alloc: Global,
    names: &BoundNames,
    tokens: &'t [Lexeme<'a>],
) -> Result<(Cons, &'t [Lexeme<'a>]), AllocError>
    ensures built { IfOk result (λ r. Builds part.cons_rest (IsCons names.now r.0) tokens.now r.1.now) }
    ensures shorter { IfOk result (λ r. length r.1.now ≤ length tokens.now - 1) }
{
    let name = name(alloc, tokens)?;
    let (attrs, left) = attrs(alloc, names, behind(tokens, 1))?;
    let (parts, left) = inside(alloc, names, left)?;
    Ok((Cons { name, attrs, parts }, left))
}

/// "/>" | ">" { piece } "</" NAME ">"
#[cycle(building)]
fn inside<'t, 'a>(
    alloc: Global,
    names: &BoundNames,
    tokens: &'t [Lexeme<'a>],
) -> Result<(Items<Part>, &'t [Lexeme<'a>]), AllocError>
    ensures built { IfOk result (λ r. Builds inside (AreInside names.now r.0) tokens.now r.1.now) }
    ensures shorter { IfOk result (λ r. length r.1.now ≤ length tokens.now) }
{
    if begins(tokens, &[SELF_CLOSE]) {
        return Ok((Items::from_vec(Vec::new(alloc)), behind(tokens, 1)));
    }
    let (parts, left) = parts(alloc, names, behind(tokens, 1))?;
    Ok((parts, behind(behind(behind(left, 1), 1), 1)))
}

/// { piece }
#[cycle(building)]
fn parts<'t, 'a>(
    alloc: Global,
    names: &BoundNames,
    tokens: &'t [Lexeme<'a>],
) -> Result<(Items<Part>, &'t [Lexeme<'a>]), AllocError>
    ensures built { IfOk result (λ r.
        Builds (many part.piece) (AreParts names.now r.0) tokens.now r.1.now) }
    ensures shorter { IfOk result (λ r. length r.1.now ≤ length tokens.now) }
{
    let mut found = Vec::new(alloc);
    if !begins(tokens, &[LESS, QUOTED, OPEN_BRACE]) {
        return Ok((Items::from_vec(found), tokens));
    }
    let (first, mut left) = part(alloc, names, tokens)?;
    found.push(first)?;
    'parts: while begins(left, &[LESS, QUOTED, OPEN_BRACE]) {
        let (next, rest) = part(alloc, names, left)?;
        found.push(next)?;
        left = rest;
    }
    Ok((Items::from_vec(found), left))
}

/// cons | STRING | "{" operand "}"
#[cycle(building)]
fn part<'t, 'a>(
    alloc: Global,
    names: &BoundNames,
    tokens: &'t [Lexeme<'a>],
) -> Result<(Part, &'t [Lexeme<'a>]), AllocError>
    ensures built { IfOk result (λ r. Builds part.piece (IsPart names.now r.0) tokens.now r.1.now) }
    ensures shorter { IfOk result (λ r. length r.1.now ≤ length tokens.now - 1) }
{
    if begins(tokens, &[LESS]) {
        let (inner, left) = cons(alloc, names, behind(tokens, 1))?;
        return Ok((Part::Cons(inner), left));
    }
    let (content, left) = content(alloc, names, tokens)?;
    Ok((Part::Content(content), left))
}

/// { attr }
fn attrs<'t, 'a>(
    alloc: Global,
    names: &BoundNames,
    tokens: &'t [Lexeme<'a>],
) -> Result<(Items<AttrPart>, &'t [Lexeme<'a>]), AllocError>
    ensures built { IfOk result (λ r.
        Builds (many part.attr) (AreAttrs names.now r.0) tokens.now r.1.now) }
    ensures shorter { IfOk result (λ r. length r.1.now ≤ length tokens.now) }
{
    let mut found = Vec::new(alloc);
    if !begins_name(tokens) {
        return Ok((Items::from_vec(found), tokens));
    }
    let (first, mut left) = attr(alloc, names, tokens)?;
    found.push(first)?;
    'attrs: while begins_name(left) {
        let (next, rest) = attr(alloc, names, left)?;
        found.push(next)?;
        left = rest;
    }
    Ok((Items::from_vec(found), left))
}

/// NAME "=" ( STRING | "{" operand "}" )
fn attr<'t, 'a>(
    alloc: Global,
    names: &BoundNames,
    tokens: &'t [Lexeme<'a>],
) -> Result<(AttrPart, &'t [Lexeme<'a>]), AllocError>
    ensures built { IfOk result (λ r.
        Builds part.attr (Gives (attr_from names.now) r.0) tokens.now r.1.now) }
    ensures shorter { IfOk result (λ r. length r.1.now ≤ length tokens.now - 1) }
{
    let name = name(alloc, tokens)?;
    let (from, left) = content(alloc, names, behind(behind(tokens, 1), 1))?;
    Ok((AttrPart { name, from }, left))
}

/// The bytes of the next token.
fn name(alloc: Global, tokens: &[Lexeme]) -> Result<Bytes, AllocError>
    ensures { IfOk result (λ name. name ≡ bytes_in (next tokens.now)) }
{
    Ok(Bytes::from_vec(bytes(tokens).to_vec(alloc)?))
}
