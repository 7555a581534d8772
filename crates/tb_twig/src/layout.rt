//! The edges of a pattern in a flat list, and the list of nodes of each pattern node.

ghost use Rattle.std.specs.Prelude.{◌≡◌, ◌+◌, ◌<◌, ◌^◌, ◌++◌, [], ◌∷◌, length, map, IfOk, OnOk};
ghost use Rattle.tb_tree.specs.View.{plain_of};
ghost use Rattle.tb_pattern.specs.Plain.{nodes_in};
ghost use Rattle.tb_pattern.specs.View.{edge_of, edges_of, pattern_at};
ghost use Rattle.tb_twig.specs.Branches.{branch_to, below_of, branches, branches_in};
ghost use Rattle.tb_twig.specs.Lists.{items_in, branch_of, first_list};

use crate::branch::Branch;
use crate::condition::holding;
use crate::nodes::Nodes;
use std::alloc::{AllocError, Global};
use tb_label::Store;
use tb_pattern::{Edge, PNode};

/// Puts the edges that leave node `up` and all below them behind the others, and the lists of their lower ends.
#[cycle(layout)]
pub fn lay_out<'a>(
    alloc: Global,
    store: &'a Store,
    edges: &[Edge],
    up: u32,
    laid: &mut Vec<Branch>,
    lists: &mut Vec<Nodes<'a>>,
) -> Result<(), AllocError>
    requires few { length laid.old.items + nodes_in (edges_of edges.now) < 2 ^ 32 }
    ensures edges { OnOk result (laid.new.items
        ≡ laid.old.items ++ map branch_of (branches up (length laid.old.items) (edges_of edges.now))) }
    ensures lists { OnOk result (map items_in lists.new.items ≡ map items_in lists.old.items
        ++ map (λ s. first_list (plain_of store.now) s.to) (branches up (length laid.old.items) (edges_of edges.now))) }
{
    'edges: for edge in edges {
        lay_edge(alloc, store, edge, up, laid, lists)?;
    }
    Ok(())
}

/// An edge that leaves node `up`, and all edges below it.
#[cycle(layout)]
fn lay_edge<'a>(
    alloc: Global,
    store: &'a Store,
    edge: &Edge,
    up: u32,
    laid: &mut Vec<Branch>,
    lists: &mut Vec<Nodes<'a>>,
) -> Result<(), AllocError>
    requires few { length laid.old.items + 1 + nodes_in (below_of (edge_of edge.now)) < 2 ^ 32 }
    ensures edges { OnOk result (laid.new.items
        ≡ laid.old.items ++ map branch_of (branches_in up (length laid.old.items) (edge_of edge.now))) }
    ensures lists { OnOk result (map items_in lists.new.items ≡ map items_in lists.old.items
        ++ map (λ s. first_list (plain_of store.now) s.to) (branches_in up (length laid.old.items) (edge_of edge.now))) }
{
    let below = laid.len() as u32 + 1;
    push_edge(alloc, store, edge, up, laid, lists)?;
    lay_out(alloc, store, edge.to.edges.as_slice(), below, laid, lists)?;
    Ok(())
}

/// One edge that leaves node `up`, and the list of its lower end.
fn push_edge<'a>(
    alloc: Global,
    store: &'a Store,
    edge: &Edge,
    up: u32,
    laid: &mut Vec<Branch>,
    lists: &mut Vec<Nodes<'a>>,
) -> Result<(), AllocError>
    ensures edge { OnOk result (laid.new.items ≡ laid.old.items ++ branch_of (branch_to up (edge_of edge.now)) ∷ []) }
    ensures list { OnOk result (map items_in lists.new.items
        ≡ map items_in lists.old.items ++ first_list (plain_of store.now) (edge_of edge.now).to ∷ []) }
{
    let list = first_list(alloc, store, &edge.to)?;
    lists.push(list)?;
    laid.push(Branch {
        up,
        axis: edge.axis,
        mark: edge.mark,
    })?;
    Ok(())
}

/// The nodes that meet the test and the conditions of a pattern node.
fn first_list<'a>(alloc: Global, store: &'a Store, node: &PNode) -> Result<Nodes<'a>, AllocError>
    ensures { IfOk result (λ nodes. items_in nodes ≡ first_list (plain_of store.now) (pattern_at node.now)) }
{
    let list = store.list(&node.test);
    if node.conds.as_slice().is_empty() {
        return Ok(Nodes::Lent(list));
    }
    let kept = holding(alloc, store.tree(), list, node.conds.as_slice())?;
    Ok(Nodes::Kept(kept))
}
