//! Joins of edges: what they know, and one more.

ghost use Rattle.std.specs.Prelude.{◌≡◌, ◌+◌, ◌<◌, ◌≤◌, ◌^◌, ◌++◌, [], ◌∷◌, set, length, map, IfOk, OnOk};
ghost use Rattle.tb_span.specs.Lists.{AreJoinable};
ghost use Rattle.tb_parjoin.specs.Settings.{AreAllowed};
ghost use Rattle.tb_twig.specs.Lists.{items_in};
ghost use Rattle.tb_twig.specs.Links.{lists_in};
ghost use Rattle.tb_twig.specs.Narrowed.{links_between, lower_left, upper_left};
ghost use Rattle.tb_twig.specs.Hits.{IsNumbered, left_of};
ghost use Rattle.tb_twig.specs.Joins.{node_list, links_found, lists_after};
ghost use Rattle.tb_twig.specs.Trimmed.{laid_at};

use crate::Link;
use crate::branch::Branch;
use crate::narrow::{Narrowed, narrow};
use crate::nodes::Nodes;
use std::alloc::{AllocError, Global};
use std::thread::Threads;
use tb_edge::Gate;
use tb_parjoin::{By, JoinTrace, Settings, structural_join};
use tb_span::Item;

/// The edges of a pattern, the list of each of its nodes, the links of each edge that is joined, and a trace of
/// each join.
#[derive(Drop)]
pub struct Joins<'a> {
    pub laid: Vec<Branch>,
    pub lists: Vec<Nodes<'a>>,
    pub links: Vec<Vec<Link>>,
    pub trace: Vec<JoinTrace>,
}

/// Joins edge e, and narrows the lists of its two nodes.
pub fn join_edge<R: Threads + Sync, G: Gate>(
    rt: &R,
    alloc: Global,
    joins: &mut Joins<'_>,
    e: usize,
    settings: &Settings,
    gate: &G,
) -> Result<(), AllocError>
    requires within { e < length joins.old.laid.items }
    requires upper { (laid_at joins.old.laid.items e).up ≤ e }
    requires lists { length joins.old.lists.items ≡ length joins.old.laid.items + 1 }
    requires links { length joins.old.links.items ≡ length joins.old.laid.items }
    requires joinable { AreJoinable (node_list (map items_in joins.old.lists.items) (laid_at joins.old.laid.items e).up)
        (node_list (map items_in joins.old.lists.items) (e + 1)) }
    requires above { IsNumbered (node_list (map items_in joins.old.lists.items) (laid_at joins.old.laid.items e).up) }
    requires below { IsNumbered (node_list (map items_in joins.old.lists.items) (e + 1)) }
    requires few { length (node_list (map items_in joins.old.lists.items) (e + 1)) < 2 ^ 32 }
    requires settings { AreAllowed settings.now }
    ensures laid { joins.new.laid.items ≡ joins.old.laid.items }
    ensures links { OnOk result (lists_in joins.new.links.items ≡ set (lists_in joins.old.links.items) e
        (links_found (laid_at joins.old.laid.items e) e (map items_in joins.old.lists.items))) }
    ensures lists { OnOk result (map items_in joins.new.lists.items ≡ lists_after (laid_at joins.old.laid.items e) e
        (links_found (laid_at joins.old.laid.items e) e (map items_in joins.old.lists.items)) (map items_in joins.old.lists.items)) }
    ensures trace { OnOk result (map (λ t. t.size) joins.new.trace.items
        ≡ map (λ t. t.size) joins.old.trace.items ++ length (node_list (map items_in joins.old.lists.items) (e + 1)) ∷ []) }
{
    let branch = joins.laid[e];
    let (narrowed, trace) = joined_at(
        rt,
        alloc,
        &branch,
        joins.lists.as_slice(),
        e,
        settings,
        gate,
    )?;
    joins.trace.push(trace)?;
    let Narrowed {
        links,
        above,
        below,
    } = narrowed;
    joins.links[e] = links;
    put_some(&mut joins.lists, branch.up as usize, above);
    put(&mut joins.lists, e + 1, below);
    Ok(())
}

/// The links of edge e, what is left of the lists of its two nodes, and the trace.
fn joined_at<R: Threads + Sync, G: Gate>(
    rt: &R,
    alloc: Global,
    branch: &Branch,
    lists: &[Nodes<'_>],
    e: usize,
    settings: &Settings,
    gate: &G,
) -> Result<(Narrowed, JoinTrace), AllocError>
    requires upper { branch.now.up < length lists.now }
    requires lower { e + 1 < length lists.now }
    requires joinable { AreJoinable (node_list (map items_in lists.now) branch.now.up) (node_list (map items_in lists.now) (e + 1)) }
    requires above { IsNumbered (node_list (map items_in lists.now) branch.now.up) }
    requires below { IsNumbered (node_list (map items_in lists.now) (e + 1)) }
    requires few { length (node_list (map items_in lists.now) (e + 1)) < 2 ^ 32 }
    requires settings { AreAllowed settings.now }
    ensures links { IfOk result (λ made. made.0.links.items ≡ links_found branch.now e (map items_in lists.now)) }
    ensures above { IfOk result (λ made. left_of (node_list (map items_in lists.now) branch.now.up) made.0.above
        ≡ upper_left branch.now.mark made.0.links.items (node_list (map items_in lists.now) branch.now.up)) }
    ensures below { IfOk result (λ made. made.0.below.items
        ≡ lower_left made.0.links.items (node_list (map items_in lists.now) (e + 1))) }
    ensures size { IfOk result (λ made. made.1.size ≡ length (node_list (map items_in lists.now) (e + 1))) }
{
    let a = list_of(lists, branch.up as usize);
    let d = list_of(lists, e + 1);
    let made = joined(rt, alloc, branch, a, d, settings, gate)?;
    Ok(made)
}

/// The links of an edge between two lists, what it leaves of them, and the trace.
fn joined<R: Threads + Sync, G: Gate>(
    rt: &R,
    alloc: Global,
    branch: &Branch,
    a: &[Item],
    d: &[Item],
    settings: &Settings,
    gate: &G,
) -> Result<(Narrowed, JoinTrace), AllocError>
    requires joinable { AreJoinable a.now d.now }
    requires above { IsNumbered a.now }
    requires below { IsNumbered d.now }
    requires few { length d.now < 2 ^ 32 }
    requires settings { AreAllowed settings.now }
    ensures links { IfOk result (λ made. made.0.links.items ≡ links_between branch.now.axis a.now d.now) }
    ensures above { IfOk result (λ made. left_of a.now made.0.above ≡ upper_left branch.now.mark made.0.links.items a.now) }
    ensures below { IfOk result (λ made. made.0.below.items ≡ lower_left made.0.links.items d.now) }
    ensures size { IfOk result (λ made. made.1.size ≡ length d.now) }
{
    let joined = structural_join(rt, alloc, a, d, branch.axis, By::Anc, settings, gate)?;
    let narrowed = narrow(alloc, a, d, branch.mark, joined.pairs.as_slice())?;
    Ok((narrowed, joined.trace))
}

fn list_of<'b>(lists: &'b [Nodes<'_>], x: usize) -> &'b [Item]
    requires { x < length lists.now }
    ensures { result.now ≡ node_list (map items_in lists.now) x }
{
    lists[x].as_slice()
}

fn put(lists: &mut Vec<Nodes<'_>>, x: usize, items: Vec<Item>)
    requires { x < length lists.old.items }
    ensures { map items_in lists.new.items ≡ set (map items_in lists.old.items) x items.items }
{
    lists[x] = Nodes::Kept(items);
}

fn put_some(lists: &mut Vec<Nodes<'_>>, x: usize, items: Option<Vec<Item>>)
    requires { x < length lists.old.items }
    ensures { map items_in lists.new.items
        ≡ set (map items_in lists.old.items) x (left_of (node_list (map items_in lists.old.items) x) items) }
{
    match items {
        Some(items) => put(lists, x, items),
        None => {}
    }
}
