//! What no clause says: that answers are made with ample memory, and small ones that were worked by hand.

ghost use Rattle.std.specs.Prelude.{◌≤◌, IfOk};
ghost use Rattle.tb_pattern.specs.View.{edges_of};
ghost use Rattle.tb_parjoin.specs.Settings.{AreAllowed};
ghost use Rattle.tb_plan.specs.Orders.{edge_count};
ghost use Rattle.tb_engine.specs.Calls.{IsOnePattern};

use self::naive::{joined, rows};
use self::random::{Dice, roll};
use self::trees::by_trees;
use crate::{Answer, EngineFault, answer};
use std::alloc::Global;
use std::slice;
use std::sync::Arc;
use std::test::Fail;
use std::thread::Threads;
use tb_edge::OpenGate;
use tb_esis::read_tree;
use tb_label::Store;
use tb_parjoin::{OrderRule, Settings};
use tb_pattern::{Pattern, read_pattern};
use tb_table::Documents;
use tb_tlc::{Op, Plan};
use tb_token::tokens;
use tb_tree::{Bytes, Items};

mod naive;
mod plans;
mod random;
mod trees;

fn settings(order: OrderRule) -> Settings
    ensures allowed { AreAllowed result }
{
    Settings {
        workers: 4,
        grain: 1,
        order,
        trace: false,
    }
}

// The lines as the document `d`.
fn documents(alloc: Global, lines: &[u8]) -> Result<Documents, Fail> {
    if lines.len() > 4000 {
        return Err("too many lines".into());
    }
    let Ok(tree) = read_tree(alloc, lines) else {
        return Err("no document".into());
    };
    let store = Arc::new(alloc, Store::build(alloc, tree)?)?;
    let mut documents = Documents::empty(alloc);
    let name = Bytes::from_vec(b"d".to_vec(alloc)?);
    documents.add(name, store)?;
    Ok(documents)
}

fn pattern(alloc: Global, text: &[u8]) -> Result<Pattern, Fail>
    ensures few { IfOk result (λ p. edge_count (edges_of p.edges) ≤ 64) }
{
    if text.len() > 65_536 {
        return Err("too long".into());
    }
    let Ok(found) = tokens(alloc, text) else {
        return Err("no tokens".into());
    };
    match read_pattern(alloc, text, found.as_slice()) {
        Ok(p) => Ok(p),
        Err(_) => Err("no pattern".into()),
    }
}

fn plan(alloc: Global, text: &[u8]) -> Result<Plan, Fail>
    ensures pattern { IfOk result (λ plan. IsOnePattern plan.ops) }
{
    let pattern = pattern(alloc, text)?;
    let mut ops = Vec::new(alloc);
    ops.push(Op::Match { pattern })?;
    Ok(Plan {
        ops: Items::from_vec(ops),
    })
}

fn answered<R: Threads + Sync>(
    rt: &R,
    alloc: Global,
    lines: &[u8],
    text: &[u8],
    order: OrderRule,
) -> Result<Answer, Fail> {
    let documents = documents(alloc, lines)?;
    let plan = plan(alloc, text)?;
    match answer(rt, alloc, &plan, &documents, &settings(order), &OpenGate) {
        Ok(answer) => Ok(answer),
        Err(EngineFault::NoMemory) => Err("no memory".into()),
        Err(EngineFault::Past) => Err("past the range".into()),
    }
}

const NONE: &[u8] = b"(b\n)b\n";

const TWO: &[u8] = b"(b\n(c\n)c\n(c\n)c\n)b\n";

const THREE: &[u8] = b"(a\n(a\n(a\n)a\n)a\n)a\n";

const DEEP: &[u8] = b"(r\n(x\n(a\n)a\n)x\n)r\n";

const BIB: &[u8] =
    b"(BIB\nAYEAR CDATA 1994\n(BOOK\n-on\n(TITLE\n-TCP/IP\n)TITLE\n-ce\n)BOOK\nAYEAR CDATA 2000\nAID CDATA x\\ny\n(BOOK\n)BOOK\n)BIB\n";

// Of each: the document, the query, how many trees, and their lines.
const ROWS: [(&[u8], &[u8], u64, &[u8]); 17] = [
    (
        THREE,
        b"MATCH document('d') (//- a (//- a))",
        3,
        b"(witness\n(a\n(a\n)a\n)a\n)witness\n(witness\n(a\n(a\n)a\n)a\n)witness\n(witness\n(a\n(a\n)a\n)a\n)witness\n",
    ),
    (NONE, b"MATCH document('d') (//- b (/- c))", 0, b""),
    (
        NONE,
        b"MATCH document('d') (//- b (/? c))",
        1,
        b"(witness\n(b\n)b\n)witness\n",
    ),
    (NONE, b"MATCH document('d') (//- b (/+ c))", 0, b""),
    (
        NONE,
        b"MATCH document('d') (//- b (/* c))",
        1,
        b"(witness\n(b\n)b\n)witness\n",
    ),
    (
        TWO,
        b"MATCH document('d') (//- b (/- c))",
        2,
        b"(witness\n(b\n(c\n)c\n)b\n)witness\n(witness\n(b\n(c\n)c\n)b\n)witness\n",
    ),
    (
        TWO,
        b"MATCH document('d') (//- b (/? c))",
        2,
        b"(witness\n(b\n(c\n)c\n)b\n)witness\n(witness\n(b\n(c\n)c\n)b\n)witness\n",
    ),
    (
        TWO,
        b"MATCH document('d') (//- b (/+ c))",
        1,
        b"(witness\n(b\n(c\n)c\n(c\n)c\n)b\n)witness\n",
    ),
    (
        TWO,
        b"MATCH document('d') (//- b (/* c))",
        1,
        b"(witness\n(b\n(c\n)c\n(c\n)c\n)b\n)witness\n",
    ),
    (DEEP, b"MATCH document('d') (/- r (/- a))", 0, b""),
    (
        DEEP,
        b"MATCH document('d') (/- r (//- a))",
        1,
        b"(witness\n(r\n(a\n)a\n)r\n)witness\n",
    ),
    (
        BIB,
        b"MATCH document('d') (/- BIB (/- BOOK (/- @YEAR [< 1995] !)))",
        1,
        b"(witness\n(BIB\n(BOOK\n(@YEAR\n-1994\n)@YEAR\n)BOOK\n)BIB\n)witness\n",
    ),
    (
        BIB,
        b"MATCH document('d') (/- BIB (/- BOOK (/- @ID !)))",
        1,
        b"(witness\n(BIB\n(BOOK\n(@ID\n-x\\ny\n)@ID\n)BOOK\n)BIB\n)witness\n",
    ),
    (
        BIB,
        b"MATCH document('d') (//- BOOK ! (/- text(), /* text()))",
        2,
        b"(witness\nAYEAR CDATA 1994\n(BOOK\n-on\n(TITLE\n-TCP/IP\n)TITLE\n-ceononce\n)BOOK\n)witness\n(witness\nAYEAR CDATA 1994\n(BOOK\n-on\n(TITLE\n-TCP/IP\n)TITLE\n-ceceonce\n)BOOK\n)witness\n",
    ),
    (
        BIB,
        b"MATCH document('d') (//- TITLE !, //+ @YEAR)",
        1,
        b"(witness\n(TITLE\n-TCP/IP\n)TITLE\n(@YEAR\n)@YEAR\n(@YEAR\n)@YEAR\n)witness\n",
    ),
    (
        BIB,
        b"MATCH document('d') (//- BOOK (/? TITLE (/* text())))",
        2,
        b"(witness\n(BOOK\n(TITLE\n-TCP/IP\n)TITLE\n)BOOK\n)witness\n(witness\n(BOOK\n)BOOK\n)witness\n",
    ),
    (NONE, b"MATCH document('other') (//- b)", 0, b""),
];

#[test]
fn each_witness_prints_as_a_tree_in_any_order_of_the_edges(rt: HostRuntime) -> Result<(), Fail> {
    for (lines, text, count, wanted) in ROWS {
        for order in [OrderRule::Written, OrderRule::Reverse] {
            let answer = answered(&rt, rt.alloc(), lines, text, order)?;
            assert_eq!(rt; answer.count, count);
            assert_eq!(rt; answer.text.as_slice(), wanted);
        }
    }
    Ok(())
}

#[test]
fn a_trace_for_each_edge_and_none_without_a_document(rt: HostRuntime) -> Result<(), Fail> {
    let rows: [(&[u8], OrderRule, &[u32]); 3] = [
        (
            b"MATCH document('d') (//- b (/- c))",
            OrderRule::Written,
            &[1, 2],
        ),
        (
            b"MATCH document('d') (//- b (/- c))",
            OrderRule::Reverse,
            &[2, 1],
        ),
        (
            b"MATCH document('other') (//- b (/- c))",
            OrderRule::Written,
            &[],
        ),
    ];
    for (text, order, wanted) in rows {
        let answer = answered(&rt, rt.alloc(), TWO, text, order)?;
        let mut sizes = Vec::new(rt.alloc());
        for trace in &answer.trace {
            sizes.push(trace.size())?;
        }
        assert_eq!(rt; sizes.as_slice(), wanted);
    }
    Ok(())
}

// The answer by the definition's recursion.
fn by_definition(alloc: Global, lines: &[u8], text: &[u8]) -> Result<Vec<Vec<u8>>, Fail> {
    let pattern = pattern(alloc, text)?;
    if lines.len() > 4000 {
        return Err("too many lines".into());
    }
    let Ok(tree) = read_tree(alloc, lines) else {
        return Err("no document".into());
    };
    let root = tree.root(alloc)?;
    let mut trees = Vec::new(alloc);
    let rows = rows(alloc, pattern.edges.as_slice(), slice::from_ref(&root))?;
    for row in &rows {
        let mut tree = b"(witness\n".to_vec(alloc)?;
        let inside = joined(alloc, row.as_slice())?;
        tree.extend_from_slice(inside.as_slice())?;
        tree.extend_from_slice(b")witness\n")?;
        trees.push(tree)?;
    }
    Ok(trees)
}

// Whether the answer of a random pattern over a random document is that of the definition, and so are the lines
// of the trees that its witnesses have as nodes.
fn is_same<R: Threads + Sync>(rt: &R, alloc: Global, dice: &mut Dice) -> Result<bool, Fail> {
    let lines = random::document(alloc, dice)?;
    let text = random::pattern(alloc, dice)?;
    let order = match roll(dice) % 2 == 0 {
        true => OrderRule::Written,
        false => OrderRule::Reverse,
    };
    let answer = answered(rt, alloc, lines.as_slice(), text.as_slice(), order)?;
    let trees = by_definition(alloc, lines.as_slice(), text.as_slice())?;
    let mut all = Vec::new(alloc);
    for tree in &trees {
        all.extend_from_slice(tree.as_slice())?;
    }
    if by_trees(rt, alloc, lines.as_slice(), text.as_slice())?.as_slice() != all.as_slice() {
        return Ok(false);
    }
    Ok(answer.count == trees.len() as u64 && answer.text.as_slice() == all.as_slice())
}

#[test]
fn random_patterns_have_the_trees_of_the_definition(rt: HostRuntime) -> Result<(), Fail> {
    let mut dice = Dice { state: 11 };
    for _round in 0..300 {
        assert!(rt; is_same(&rt, rt.alloc(), &mut dice)?);
    }
    Ok(())
}
