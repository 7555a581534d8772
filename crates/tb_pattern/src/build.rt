//! The pattern of tokens that are a query without fault, built from the beginning on. Lists of edges
//! inside each other are calls inside each other, and a query without fault has at most 32 of them.

ghost use Rattle.std.specs.Prelude.{◌≡◌, ◌≤◌, IfOk, OnOk, length};
ghost use Rattle.tb_token.specs.grammar.Grammar.{maybe};
ghost use Rattle.tb_token.specs.grammar.Patterns as part;
ghost use Rattle.tb_token.specs.grammar.Terminals.{comma};
ghost use Rattle.tb_pattern.specs.Building.{Builds};
ghost use Rattle.tb_pattern.specs.BuiltParts.{Asks, bang};
ghost use Rattle.tb_pattern.specs.BuiltParts.{AreEdges, AreBelow, IsEdge, IsWhole};

use crate::conds::conds;
use crate::node_test::test;
use crate::prefix::{axis, begins, behind, mark, quoted};
use crate::{Edge, PNode, Pattern};
use std::alloc::{AllocError, Global};
use tb_token::Lexeme;
use tb_token::terminals::{BANG, COMMA, OPEN};
use tb_tree::Items;

/// MATCH DOCUMENT "(" STRING ")" "(" edge { "," edge } ")"
pub fn pattern(alloc: Global, tokens: &[Lexeme]) -> Result<Pattern, AllocError>
    ensures { IfOk result (λ pattern. Asks tokens.now pattern) }
{
    let document = quoted(alloc, behind(tokens, 3))?;
    let (edges, _) = edges(alloc, behind(tokens, 6))?;
    Ok(Pattern { document, edges })
}

/// edge { "," edge } ")"
#[cycle(building)]
fn edges<'t, 'a>(
    alloc: Global,
    tokens: &'t [Lexeme<'a>],
) -> Result<(Items<Edge>, &'t [Lexeme<'a>]), AllocError>
    ensures built { IfOk result (λ r. Builds part.edges_rest (AreEdges r.0) tokens.now r.1.now) }
    ensures shorter { IfOk result (λ r. length r.1.now ≤ length tokens.now) }
{
    let mut found = Vec::new(alloc);
    let (first, mut left) = edge(alloc, tokens)?;
    found.push(first)?;
    'edges: while begins(left, &[COMMA]) {
        let (next, rest) = edge(alloc, behind(left, 1))?;
        found.push(next)?;
        left = rest;
    }
    Ok((Items::from_vec(found), behind(left, 1)))
}

/// axis mark test [ conds ] [ "!" ] [ edges ]
#[cycle(building)]
fn edge<'t, 'a>(
    alloc: Global,
    tokens: &'t [Lexeme<'a>],
) -> Result<(Edge, &'t [Lexeme<'a>]), AllocError>
    ensures built { IfOk result (λ r. Builds part.edge (IsEdge r.0) tokens.now r.1.now) }
    ensures shorter { IfOk result (λ r. length r.1.now ≤ length tokens.now) }
{
    let marked = behind(tokens, 1);
    let (test, left) = test(alloc, behind(marked, 1))?;
    let (conds, left) = conds(alloc, left)?;
    let (whole, left) = whole(left);
    let (edges, left) = below(alloc, left)?;
    let to = PNode {
        test,
        conds,
        whole,
        edges,
    };
    Ok((
        Edge {
            axis: axis(tokens),
            mark: mark(marked),
            to,
        },
        left,
    ))
}

/// [ "!" ]
fn whole<'t, 'a>(tokens: &'t [Lexeme<'a>]) -> (bool, &'t [Lexeme<'a>])
    ensures built { Builds (maybe bang) (IsWhole result.0) tokens.now result.1.now }
    ensures shorter { length result.1.now ≤ length tokens.now }
{
    if begins(tokens, &[BANG]) {
        return (true, behind(tokens, 1));
    }
    (false, tokens)
}

/// [ edges ]
#[cycle(building)]
fn below<'t, 'a>(
    alloc: Global,
    tokens: &'t [Lexeme<'a>],
) -> Result<(Items<Edge>, &'t [Lexeme<'a>]), AllocError>
    ensures built { IfOk result (λ r. Builds (maybe part.edges) (AreBelow r.0) tokens.now r.1.now) }
    ensures shorter { IfOk result (λ r. length r.1.now ≤ length tokens.now) }
{
    if begins(tokens, &[OPEN]) {
        let (edges, left) = edges(alloc, behind(tokens, 1))?;
        return Ok((edges, left));
    }
    Ok((Items::from_vec(Vec::new(alloc)), tokens))
}
