//! Rows put together from links alone: no document is looked at.

ghost use Rattle.std.specs.Prelude.{◌≡◌, ℕ, ◌+◌, ◌<◌, ◌≤◌, ◌^◌, ◌++◌, [], ◌∷◌, length, map, All, IfOk, OnOk};
ghost use Rattle.std.specs.List.{flat_map};
ghost use Rattle.tb_tree.specs.Plain.{Plain};
ghost use Rattle.tb_pattern.specs.Plain.{nodes_in};
ghost use Rattle.tb_pattern.specs.View.{edge_of, edges_of};
ghost use Rattle.tb_pattern.specs.Witness.{witness};
ghost use Rattle.tb_twig.specs.Branches.{below_of};
ghost use Rattle.tb_twig.specs.Links.{IsRising, links_at, run, built_by};
ghost use Rattle.tb_twig.specs.Seen.{seen, row_seen};

use crate::Link;
use crate::offers::{offered, product};
use crate::run::{leading_from, links_of};
use crate::vain::is_in_vain;
use std::alloc::{AllocError, Global};
use tb_pattern::{Edge, Offer, Witness};
use tb_span::NodeId;
use tb_tree::Items;

/// The witnesses at node n, which these edges leave: `links` has those of each edge of the pattern.
pub fn rows_at(
    alloc: Global,
    edges: &[Edge],
    links: &[Vec<Link>],
    n: u32,
) -> Result<Vec<Witness>, AllocError>
    requires numbers { nodes_in (edges_of edges.now) ≤ length links.now }
    requires few { length links.now < 2 ^ 32 }
    requires rise { All (λ ls. IsRising ls.items) links.now }
    ensures { IfOk result (λ witnesses. (look : ℕ → Plain) → map (seen look) witnesses.items
        ≡ map (witness n (look n)) (built_by look (links_at links.now) 0 (edges_of edges.now) n)) }
{
    if is_in_vain(edges, links, n) {
        return Ok(Vec::new(alloc));
    }
    let rows = rows_below(alloc, edges, 0, links, n)?;
    let mut witnesses = Vec::with_capacity(alloc, rows.len())?;
    push_all(n, rows, &mut witnesses)?;
    Ok(witnesses)
}

/// The rows of node n, one offer an edge, where the first of these edges has the number e: `links` has those
/// of each edge of the pattern.
#[cycle(rows)]
fn rows_below(
    alloc: Global,
    edges: &[Edge],
    e: u32,
    links: &[Vec<Link>],
    n: u32,
) -> Result<Vec<Items<Offer>>, AllocError>
    requires numbers { e + nodes_in (edges_of edges.now) ≤ length links.now }
    requires few { length links.now < 2 ^ 32 }
    requires rise { All (λ ls. IsRising ls.items) links.now }
    ensures { IfOk result (λ rows. (look : ℕ → Plain)
        → map (row_seen look) rows.items ≡ built_by look (links_at links.now) e (edges_of edges.now) n) }
{
    let mut rows = one_empty(alloc)?;
    let mut at = e;
    'edges: for edge in edges {
        let witnesses = witnesses_below(alloc, edge, at, links, n)?;
        let offers = offered(alloc, edge.mark, witnesses)?;
        rows = product(alloc, rows, offers)?;
        at = at + 1 + size_below(edge);
    }
    Ok(rows)
}

/// The witnesses of edge e below node n, in document order.
#[cycle(rows)]
fn witnesses_below(
    alloc: Global,
    edge: &Edge,
    e: u32,
    links: &[Vec<Link>],
    n: u32,
) -> Result<Vec<Witness>, AllocError>
    requires numbers { e + 1 + nodes_in (below_of (edge_of edge.now)) ≤ length links.now }
    requires few { length links.now < 2 ^ 32 }
    requires rise { All (λ ls. IsRising ls.items) links.now }
    ensures { IfOk result (λ witnesses. (look : ℕ → Plain) → map (seen look) witnesses.items
        ≡ flat_map (λ m. map (witness m (look m)) (built_by look (links_at links.now) (e + 1) (below_of (edge_of edge.now)) m))
        (run (links_at links.now e) n)) }
{
    let mut witnesses = Vec::new(alloc);
    'links: for link in leading_from(links_of(links, e as usize), n) {
        let rows = rows_below(alloc, edge.to.edges.as_slice(), e + 1, links, link.below)?;
        push_all(link.below, rows, &mut witnesses)?;
    }
    Ok(witnesses)
}

/// One row with no offer.
fn one_empty(alloc: Global) -> Result<Vec<Items<Offer>>, AllocError>
    ensures { IfOk result (λ rows. rows.items ≡ [] ∷ []) }
{
    let mut rows = Vec::new(alloc);
    rows.push(Items::from_vec(Vec::new(alloc)))?;
    Ok(rows)
}

/// A witness at the node for each row.
fn push_all(
    node: u32,
    rows: Vec<Items<Offer>>,
    witnesses: &mut Vec<Witness>,
) -> Result<(), AllocError>
    ensures { OnOk result ((look : ℕ → Plain) → map (seen look) witnesses.new.items
        ≡ map (seen look) witnesses.old.items ++ map (witness node (look node)) (map (row_seen look) rows.items)) }
{
    'rows: for row in rows {
        witnesses.push(Witness {
            node: NodeId::new(node),
            offers: row,
        })?;
    }
    Ok(())
}

/// How many edges there are below this one.
#[cycle(sizes)]
pub fn size_below(edge: &Edge) -> u32
    requires { nodes_in (below_of (edge_of edge.now)) < 2 ^ 32 }
    ensures { result ≡ nodes_in (below_of (edge_of edge.now)) }
{
    nodes_in(edge.to.edges.as_slice())
}

/// How many edges these are, with all below them.
#[cycle(sizes)]
pub fn nodes_in(edges: &[Edge]) -> u32
    requires { nodes_in (edges_of edges.now) < 2 ^ 32 }
    ensures { result ≡ nodes_in (edges_of edges.now) }
{
    let mut size = 0;
    'edges: for edge in edges {
        size = size + 1 + size_below(edge);
    }
    size
}
