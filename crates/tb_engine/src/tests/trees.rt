//! The lines of the trees that witnesses have as nodes.

use super::{pattern, settings};
use std::alloc::Global;
use std::test::Fail;
use std::thread::Threads;
use tb_construct::witness_trees;
use tb_edge::OpenGate;
use tb_esis::read_tree;
use tb_label::Store;
use tb_parjoin::OrderRule;
use tb_plan::written;
use tb_tree::Writer;
use tb_twig::witnesses;

/// Those of a pattern over the document of these lines.
pub fn by_trees<R: Threads + Sync>(
    rt: &R,
    alloc: Global,
    lines: &[u8],
    text: &[u8],
) -> Result<Vec<u8>, Fail> {
    if lines.len() > 4000 {
        return Err("too many lines".into());
    }
    let Ok(tree) = read_tree(alloc, lines) else {
        return Err("no document".into());
    };
    let store = Store::build(alloc, tree)?;
    let p = pattern(alloc, text)?;
    let order = written(alloc, &p)?;
    let settings = settings(OrderRule::Written);
    let found = witnesses(rt, alloc, &p, &store, &order, &settings, &OpenGate)?;
    let forest = witness_trees(alloc, &p, &store, found.rows.as_slice())?;
    let mut page = Writer::new(alloc);
    page.nodes(forest.trees.as_slice())?;
    Ok(page.into_vec()?)
}
