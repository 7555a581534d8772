//! The witnesses of a pattern over a document.

ghost use Rattle.std.specs.Prelude.{◌≡◌, ◌<◌, ◌≤◌, ◌^◌, length, map, All, IfOk};
ghost use Rattle.tb_tree.specs.View.{plain_of};
ghost use Rattle.tb_pattern.specs.View.{edges_of};
ghost use Rattle.tb_parjoin.specs.Settings.{AreAllowed};
ghost use Rattle.tb_plan.specs.Orders.{edge_count, IsOrderOf};
ghost use Rattle.tb_twig.specs.Seen.{nth_node, seen};
ghost use Rattle.tb_twig.specs.Calls.{rows_of_document, AreTraced};

use crate::matching::{Matched, join_edges};
use crate::rows::rows_at;
use std::alloc::{AllocError, Global};
use std::thread::Threads;
use tb_edge::Gate;
use tb_label::Store;
use tb_parjoin::{JoinTrace, Settings};
use tb_pattern::{Pattern, Witness};
use tb_plan::Order;

/// The rows of a pattern, each the document node with an offer for each edge that leaves it, and a trace of
/// each join in the order in which they ran.
#[derive(Debug, Drop)]
pub struct Found {
    pub rows: Vec<Witness>,
    pub trace: Vec<JoinTrace>,
}

/// The witnesses of a pattern, in their order, whatever the order of the joins.
pub fn witnesses<R: Threads + Sync, G: Gate>(
    rt: &R,
    alloc: Global,
    p: &Pattern,
    store: &Store,
    order: &Order,
    settings: &Settings,
    gate: &G,
) -> Result<Found, AllocError>
    requires few { edge_count (edges_of p.now.edges) < 2 ^ 32 }
    requires order { IsOrderOf order.now (edges_of p.now.edges) }
    requires settings { AreAllowed settings.now }
    ensures rows { IfOk result (λ found. map (seen (nth_node (plain_of store.now))) found.rows.items
        ≡ rows_of_document (edges_of p.now.edges) (plain_of store.now)) }
    ensures trace { IfOk result (λ found. AreTraced (plain_of store.now) (edges_of p.now.edges) order.now found.trace.items) }
{
    let Matched {
        laid: _,
        links,
        trace,
    } = join_edges(rt, alloc, p, store, order, settings, gate)?;
    let rows = rows_at(alloc, p.edges.as_slice(), links.as_slice(), 0)?;
    Ok(Found { rows, trace })
}
