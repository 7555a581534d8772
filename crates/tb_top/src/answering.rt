//! The answer of a query over the documents of a history.

ghost use Rattle.std.specs.Prelude.{◌≡◌, ◌≤◌, IfOk, option_map};
ghost use Rattle.tb_tree.specs.Documents.{found};
ghost use Rattle.tb_pattern.specs.Plain.{nodes_in};
ghost use Rattle.tb_pattern.specs.View.{edges_of};
ghost use Rattle.tb_query.specs.Answer.{answer};
ghost use Rattle.tb_table.specs.Documents.{docs_of};
ghost use Rattle.tb_top.specs.Answered.{told, AsksFew};
ghost use Rattle.tb_top.specs.History.{documents_in};
ghost use Rattle.tb_top.specs.Kept.{changes_in};

use crate::history::History;
use std::alloc::{AllocError, Global};
use std::sync::Arc;
use std::thread::Threads;
use tb_edge::Gate;
use tb_engine::{Answer, EngineFault, answer};
use tb_parjoin::{OrderRule, Settings};
use tb_query::Query;
use tb_table::{Documents, Secret};
use tb_tlc::translate;
use tb_tree::Bytes;

/// One worker, and the edges of a pattern as they are written.
const SETTINGS: Settings = Settings {
    workers: 1,
    grain: 4096,
    order: OrderRule::Written,
    trace: false,
};

/// The answer of a pattern over the documents of a history; `None` where a sum is past the range.
pub fn answered<R: Threads + Sync, G: Gate>(
    rt: &R,
    alloc: Global,
    query: &Query,
    history: &History,
    secret: Secret,
    gate: &G,
) -> Result<Option<Answer>, AllocError>
    requires few { AsksFew query.now }
    ensures { IfOk result (λ a. option_map told a ≡ answer (documents_in (changes_in history.now)) query.now) }
{
    let plan = translate(alloc, query)?;
    let docs = asked(alloc, query, history, secret)?;
    match answer(rt, alloc, &plan, &docs, &SETTINGS, gate) {
        Ok(answer) => Ok(Some(answer)),
        Err(EngineFault::Past) => Ok(None),
        Err(EngineFault::NoMemory) => Err(AllocError),
    }
}

/// The documents that a query asks for.
fn asked(
    alloc: Global,
    query: &Query,
    history: &History,
    secret: Secret,
) -> Result<Documents, AllocError>
    requires few { AsksFew query.now }
    ensures { IfOk result (λ docs. answer (docs_of docs) query.now ≡ answer (documents_in (changes_in history.now)) query.now) }
{
    match query {
        Query::Match(p) => one_document(alloc, &p.document, history, secret),
        Query::Flwor(_) => Ok(Documents::with_secret(alloc, secret)),
    }
}

/// The document of that name, where it is loaded.
fn one_document(
    alloc: Global,
    name: &Bytes,
    history: &History,
    secret: Secret,
) -> Result<Documents, AllocError>
    ensures { IfOk result (λ docs. found name.now (docs_of docs) ≡ found name.now (documents_in (changes_in history.now))) }
{
    let mut docs = Documents::with_secret(alloc, secret);
    if let Some(store) = history.find(name) {
        docs.add(name.copy(alloc)?, Arc::try_clone(store)?)?;
    }
    Ok(docs)
}
