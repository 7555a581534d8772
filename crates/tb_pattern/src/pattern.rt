//! Patterns: nodes with tests and conditions, and marked edges between them.

ghost use Rattle.std.specs.Prelude.{◌≡◌, IfOk};

use crate::Cond;
use std::alloc::{AllocError, Global};
use tb_span::Axis;
use tb_tree::{Bytes, Items, Test};

/// How the matches below an edge are offered: `-`, `?`, `+`, `*`.
#[derive(Clone, Copy, Debug, PartialEq, Eq)]
pub enum Mark {
    /// Each alone.
    One,
    /// Each alone, or none where there is none.
    Optional,
    /// All together, where there is one.
    Some,
    /// All together, also where there is none.
    Any,
}

/// A node of a pattern, with all that is below it.
#[cycle(pattern)]
#[derive(Debug, Drop)]
pub struct PNode {
    pub test: Test,
    /// In written order. All must hold.
    pub conds: Items<Cond>,
    /// Marked `!`: the node brings its own attributes and kids.
    pub whole: bool,
    pub edges: Items<Edge>,
}

/// An edge of a pattern with the node at its lower end.
#[cycle(pattern)]
#[derive(Debug, Drop)]
pub struct Edge {
    pub axis: Axis,
    pub mark: Mark,
    pub to: PNode,
}

/// What a `MATCH` query asks of the document of this name: edges from its document node. Edges are
/// numbered from 0 in written order, each before those below it.
#[derive(Debug, Drop)]
pub struct Pattern {
    pub document: Bytes,
    pub edges: Items<Edge>,
}

impl PNode {
    #[cycle(copies)]
    pub fn copy(&self, alloc: Global) -> Result<PNode, AllocError>
        ensures { IfOk result (λ node. node ≡ self.now) }
    {
        let test = self.test.copy(alloc)?;
        let conds = copy_conds(alloc, self.conds.as_slice())?;
        let edges = copy_edges(alloc, self.edges.as_slice())?;
        Ok(PNode {
            test,
            conds,
            whole: self.whole,
            edges,
        })
    }
}

impl Edge {
    #[cycle(copies)]
    pub fn copy(&self, alloc: Global) -> Result<Edge, AllocError>
        ensures { IfOk result (λ edge. edge ≡ self.now) }
    {
        let to = self.to.copy(alloc)?;
        Ok(Edge {
            axis: self.axis,
            mark: self.mark,
            to,
        })
    }
}

impl Pattern {
    pub fn copy(&self, alloc: Global) -> Result<Pattern, AllocError>
        ensures { IfOk result (λ pattern. pattern ≡ self.now) }
    {
        let document = self.document.copy(alloc)?;
        let edges = copy_edges(alloc, self.edges.as_slice())?;
        Ok(Pattern { document, edges })
    }
}

fn copy_conds(alloc: Global, conds: &[Cond]) -> Result<Items<Cond>, AllocError>
    ensures { IfOk result (λ copies. copies ≡ conds.now) }
{
    let mut copies = Vec::with_capacity(alloc, conds.len())?;
    'conds: for cond in conds {
        copies.push(cond.copy(alloc)?)?;
    }
    Ok(Items::from_vec(copies))
}

#[cycle(copies)]
fn copy_edges(alloc: Global, edges: &[Edge]) -> Result<Items<Edge>, AllocError>
    ensures { IfOk result (λ copies. copies ≡ edges.now) }
{
    let mut copies = Vec::with_capacity(alloc, edges.len())?;
    'edges: for edge in edges {
        copies.push(edge.copy(alloc)?)?;
    }
    Ok(Items::from_vec(copies))
}
