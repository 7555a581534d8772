//! The answer of a plan.

ghost use Rattle.std.specs.Prelude.{◌≡◌, ◌<◌, ◌^◌, Some, IfOk};
ghost use Rattle.tb_tree.specs.View.{plain_of};
ghost use Rattle.tb_pattern.specs.View.{edges_of};
ghost use Rattle.tb_query.specs.Answer.{match_trees, counted};
ghost use Rattle.tb_table.specs.Documents.{docs_of};
ghost use Rattle.tb_parjoin.specs.Settings.{AreAllowed};
ghost use Rattle.tb_plan.specs.Orders.{edge_count, IsOrderOf};
ghost use Rattle.tb_tlc.specs.Meaning.{meaning};
ghost use Rattle.tb_twig.specs.Calls.{AreTraced};
ghost use Rattle.tb_engine.specs.Calls.{IsOnePattern, Answers, AreTraces, order_by};

use crate::EngineFault;
use crate::text::witness_text;
use std::alloc::{AllocError, Global};
use std::thread::Threads;
use tb_edge::Gate;
use tb_label::Store;
use tb_parjoin::{Answer, OrderRule, Settings};
use tb_pattern::Pattern;
use tb_plan::{Order, reverse, written};
use tb_table::Documents;
use tb_tlc::{Op, Plan};
use tb_twig::{Matched, join_edges};

/// The answer of a plan over the documents, which is what the plan means.
pub fn answer<R: Threads + Sync, G: Gate>(
    rt: &R,
    alloc: Global,
    plan: &Plan,
    docs: &Documents,
    settings: &Settings,
    gate: &G,
) -> Result<Answer, EngineFault>
    requires pattern { IsOnePattern plan.now.ops }
    requires settings { AreAllowed settings.now }
    ensures answer { Answers (meaning (docs_of docs.now) plan.now.ops) result }
    ensures trace { IfOk result (λ answer. AreTraces (docs_of docs.now) settings.now.order plan.now.ops answer.trace.items) }
{
    let [op] = plan.ops.as_slice() else {
        unreachable!();
    };
    let Op::Match { pattern } = op else {
        unreachable!();
    };
    let Some(document) = docs.find(pattern.document.as_slice()) else {
        return Ok(Answer {
            count: 0,
            text: Vec::new(alloc),
            trace: Vec::new(alloc),
        });
    };
    let answer = match_answer(rt, alloc, pattern, docs.store(document), settings, gate)?;
    Ok(answer)
}

/// The answer of a pattern over a document.
fn match_answer<R: Threads + Sync, G: Gate>(
    rt: &R,
    alloc: Global,
    p: &Pattern,
    store: &Store,
    settings: &Settings,
    gate: &G,
) -> Result<Answer, AllocError>
    requires few { edge_count (edges_of p.now.edges) < 2 ^ 32 }
    requires settings { AreAllowed settings.now }
    ensures answer { IfOk result (λ answer. (answer.count, answer.text.items)
        ≡ counted (match_trees (edges_of p.now.edges) (Some (plain_of store.now)))) }
    ensures trace { IfOk result (λ answer. AreTraced (plain_of store.now) (edges_of p.now.edges)
        (order_by settings.now.order (edges_of p.now.edges)) answer.trace.items) }
{
    let order = order_by(alloc, settings.order, p)?;
    let Matched { laid, links, trace } = join_edges(rt, alloc, p, store, &order, settings, gate)?;
    let edges = p.edges.as_slice();
    let (count, text) = witness_text(
        alloc,
        edges,
        laid.as_slice(),
        links.as_slice(),
        store.tree(),
    )?;
    Ok(Answer { count, text, trace })
}

/// The order in which the edges are joined.
fn order_by(alloc: Global, rule: OrderRule, p: &Pattern) -> Result<Order, AllocError>
    requires few { edge_count (edges_of p.now.edges) < 2 ^ 32 }
    ensures order { IfOk result (λ order. order ≡ order_by rule (edges_of p.now.edges)) }
    ensures each_once { IfOk result (λ order. IsOrderOf order (edges_of p.now.edges)) }
{
    match rule {
        OrderRule::Written => written(alloc, p),
        OrderRule::Reverse => reverse(alloc, p),
    }
}
