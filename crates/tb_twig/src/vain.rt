//! Nodes that have no row, seen by the links of one edge.

ghost use Rattle.std.specs.Prelude.{◌≡◌, ℕ, ◌<◌, ◌≤◌, ◌^◌, [], true, length, All};
ghost use Rattle.tb_tree.specs.Plain.{Plain};
ghost use Rattle.tb_pattern.specs.Plain.{PlainEdges, edge, nodes_in};
ghost use Rattle.tb_pattern.specs.View.{edge_of, edges_of};
ghost use Rattle.tb_twig.specs.Links.{IsRising, links_at, built_by};

use crate::Link;
use crate::narrow::asks;
use crate::rows::size_below;
use crate::run::{leading_from, links_of};
use tb_pattern::Edge;

/// Whether one of the edges that leave node n asks for a witness and has no link from it: then the node has
/// no row.
pub fn is_in_vain(edges: &[Edge], links: &[Vec<Link>], n: u32) -> bool
    requires numbers { nodes_in (edges_of edges.now) ≤ length links.now }
    requires few { length links.now < 2 ^ 32 }
    requires rise { All (λ ls. IsRising ls.items) links.now }
    ensures { result ≡ true → (look : ℕ → Plain) → built_by look (links_at links.now) 0 (edges_of edges.now) n ≡ [] }
{
    let mut at = 0;
    'edges: for edge in edges {
        if leads_nowhere(edge, at, links, n) {
            return true;
        }
        at = at + 1 + size_below(edge);
    }
    false
}

/// Whether edge e asks for a witness and has no link from node n.
fn leads_nowhere(first: &Edge, e: u32, links: &[Vec<Link>], n: u32) -> bool
    requires within { e < length links.now }
    requires rise { All (λ ls. IsRising ls.items) links.now }
    ensures { result ≡ true → (look : ℕ → Plain) (others : PlainEdges)
        → built_by look (links_at links.now) e (edge (edge_of first.now).axis (edge_of first.now).mark (edge_of first.now).to others) n ≡ [] }
{
    if !asks(first.mark) {
        return false;
    }
    leading_from(links_of(links, e as usize), n).is_empty()
}
