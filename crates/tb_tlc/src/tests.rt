//! What no clause says: that a plan is made where there is ample memory.

ghost use Rattle.std.specs.Prelude.{⊤};

use crate::{Op, translate};
use std::alloc::{AllocError, Global};
use std::test::Fail;
use tb_pattern::{Edge, Mark, PNode, Pattern};
use tb_query::Query;
use tb_span::Axis;
use tb_tree::{Bytes, Items, Test};

fn bytes(alloc: Global, text: &[u8]) -> Result<Bytes, AllocError> {
    Ok(Bytes::from_vec(text.to_vec(alloc)?))
}

// `MATCH document("m") (//- a !)`
fn pattern(alloc: Global) -> Result<Pattern, AllocError> {
    let mut edges = Vec::new(alloc);
    edges.push(Edge {
        axis: Axis::Descendant,
        mark: Mark::One,
        to: PNode {
            test: Test::Name(bytes(alloc, b"a")?),
            conds: Items::from_vec(Vec::new(alloc)),
            whole: true,
            edges: Items::from_vec(Vec::new(alloc)),
        },
    })?;
    Ok(Pattern {
        document: bytes(alloc, b"m")?,
        edges: Items::from_vec(edges),
    })
}

#[test]
fn a_pattern_is_a_plan_of_one_operator(rt: HostRuntime) -> Result<(), Fail> {
    let query = Query::Match(pattern(rt.alloc())?);
    let plan = translate(rt.alloc(), &query)?;
    let [Op::Match { pattern }] = plan.ops.as_slice() else {
        Err("the plan isn't a pattern alone")?;
        return Ok(());
    };
    assert_eq!(rt; pattern.document.as_slice(), b"m".as_slice());
    assert_eq!(rt; pattern.edges.as_slice().len(), 1);
    let edge = &pattern.edges.as_slice()[0];
    assert!(rt; edge.to.whole);
    assert!(rt; edge.axis == Axis::Descendant);
    Ok(())
}
