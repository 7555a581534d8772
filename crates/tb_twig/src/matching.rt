//! The links of all edges of a pattern, by one structural join an edge.

ghost use Rattle.std.specs.Prelude.{◌≡◌, ◌<◌, ◌≤◌, ◌^◌, [], length, replicate, map, All, IfOk};
ghost use Rattle.tb_tree.specs.View.{plain_of};
ghost use Rattle.tb_pattern.specs.View.{edges_of};
ghost use Rattle.tb_parjoin.specs.Settings.{AreAllowed};
ghost use Rattle.tb_plan.specs.Orders.{edge_count, IsOrderOf};
ghost use Rattle.tb_twig.specs.Branches.{branches_of};
ghost use Rattle.tb_twig.specs.Lists.{items_in, branch_of};
ghost use Rattle.tb_twig.specs.Links.{IsRising, lists_in};
ghost use Rattle.tb_twig.specs.Joins.{first_lists};
ghost use Rattle.tb_twig.specs.Trimmed.{AreTrimmed};
ghost use Rattle.tb_twig.specs.Calls.{AreLinks, AreTraced};

use crate::Link;
use crate::branch::Branch;
use crate::joins::{Joins, join_edge};
use crate::layout::lay_out;
use crate::nodes::Nodes;
use crate::trim::trim;
use std::alloc::{AllocError, Global};
use std::thread::Threads;
use tb_edge::Gate;
use tb_label::Store;
use tb_parjoin::{JoinTrace, Settings};
use tb_pattern::Pattern;
use tb_plan::Order;

/// The edges as they are laid out, the links of each by its number, and a trace of each join in the order in
/// which they ran.
#[derive(Debug, Drop)]
pub struct Matched {
    pub laid: Vec<Branch>,
    pub links: Vec<Vec<Link>>,
    pub trace: Vec<JoinTrace>,
}

/// Joins the edges in the order that is given. What a join shows to be in vain no later one looks at.
pub fn join_edges<R: Threads + Sync, G: Gate>(
    rt: &R,
    alloc: Global,
    p: &Pattern,
    store: &Store,
    order: &Order,
    settings: &Settings,
    gate: &G,
) -> Result<Matched, AllocError>
    requires few { edge_count (edges_of p.now.edges) < 2 ^ 32 }
    requires order { IsOrderOf order.now (edges_of p.now.edges) }
    requires settings { AreAllowed settings.now }
    ensures laid { IfOk result (λ matched. matched.laid.items ≡ map branch_of (branches_of (edges_of p.now.edges))) }
    ensures links { IfOk result (λ matched. AreLinks (plain_of store.now) (edges_of p.now.edges) matched.links.items) }
    ensures rise { IfOk result (λ matched. All (λ ls. IsRising ls.items) matched.links.items) }
    ensures below { IfOk result (λ matched. All (λ ls. All (λ link. 1 ≤ link.below) ls.items) matched.links.items) }
    ensures trimmed { IfOk result (λ matched. AreTrimmed matched.laid.items (lists_in matched.links.items)) }
    ensures many { IfOk result (λ matched. length matched.links.items ≡ edge_count (edges_of p.now.edges)) }
    ensures trace { IfOk result (λ matched. AreTraced (plain_of store.now) (edges_of p.now.edges) order.now matched.trace.items) }
{
    // So short are the lists of any store.
    let _ = store.tree();
    let mut joins = unjoined(alloc, p, store)?;
    'order: for e in order.edges() {
        join_edge(rt, alloc, &mut joins, *e as usize, settings, gate)?;
    }
    let Joins {
        laid,
        lists: _,
        mut links,
        trace,
    } = joins;
    trim(alloc, laid.as_slice(), &mut links)?;
    Ok(Matched { laid, links, trace })
}

/// The edges laid out, with all nodes that meet the tests and conditions, and no link.
fn unjoined<'a>(alloc: Global, p: &Pattern, store: &'a Store) -> Result<Joins<'a>, AllocError>
    requires few { edge_count (edges_of p.now.edges) < 2 ^ 32 }
    ensures laid { IfOk result (λ joins. joins.laid.items ≡ map branch_of (branches_of (edges_of p.now.edges))) }
    ensures lists { IfOk result (λ joins. map items_in joins.lists.items ≡ first_lists (plain_of store.now) (edges_of p.now.edges)) }
    ensures links { IfOk result (λ joins. lists_in joins.links.items ≡ replicate (length (branches_of (edges_of p.now.edges))) []) }
    ensures trace { IfOk result (λ joins. joins.trace.items ≡ []) }
{
    let mut laid = Vec::new(alloc);
    let mut lists = Vec::new(alloc);
    lists.push(Nodes::Lent(store.document_item()))?;
    lay_out(alloc, store, p.edges.as_slice(), 0, &mut laid, &mut lists)?;
    let links = empty_links(alloc, laid.len())?;
    let trace = Vec::with_capacity(alloc, laid.len())?;
    Ok(Joins {
        laid,
        lists,
        links,
        trace,
    })
}

fn empty_links(alloc: Global, count: usize) -> Result<Vec<Vec<Link>>, AllocError>
    ensures { IfOk result (λ links. lists_in links.items ≡ replicate count []) }
{
    let mut links = Vec::with_capacity(alloc, count)?;
    'edges: for _e in 0..count {
        links.push(Vec::new(alloc))?;
    }
    Ok(links)
}
