//! What no clause says: that witnesses are found with ample memory, and small ones that were worked by hand.

ghost use Rattle.std.specs.Prelude.{◌≤◌, IfOk};
ghost use Rattle.tb_pattern.specs.View.{edges_of};
ghost use Rattle.tb_plan.specs.Orders.{edge_count};

use crate::{Found, Offer, join_edges, witnesses};
use std::alloc::{AllocError, Global};
use std::test::Fail;
use std::thread::Threads;
use tb_edge::OpenGate;
use tb_esis::read_tree;
use tb_label::Store;
use tb_parjoin::{OrderRule, Settings};
use tb_pattern::{Pattern, read_pattern};
use tb_plan::Order;
use tb_token::tokens;

const SETTINGS: Settings = Settings {
    workers: 4,
    grain: 1,
    order: OrderRule::Written,
    trace: false,
};

fn store(alloc: Global, lines: &[u8]) -> Result<Store, Fail> {
    if lines.len() > 1000 {
        return Err("too many lines".into());
    }
    match read_tree(alloc, lines) {
        Ok(tree) => Ok(Store::build(alloc, tree)?),
        Err(_) => Err("no document".into()),
    }
}

fn pattern(alloc: Global, text: &[u8]) -> Result<Pattern, Fail>
    ensures few { IfOk result (λ p. edge_count (edges_of p.edges) ≤ 64) }
{
    if text.len() > 65_536 {
        return Err("too long".into());
    }
    let Ok(found) = tokens(alloc, text) else {
        return Err("no tokens".into());
    };
    match read_pattern(alloc, text, found.as_slice()) {
        Ok(p) => Ok(p),
        Err(_) => Err("no pattern".into()),
    }
}

// The last digits of the numbers, each with its offers in brackets.
fn push_row(row: &[Offer], out: &mut Vec<u8>) -> Result<(), AllocError> {
    for offer in row {
        out.push(b'(')?;
        for w in offer.as_slice() {
            out.push(b'0' + (w.node.index() % 10) as u8)?;
            push_row(w.offers.as_slice(), out)?;
        }
        out.push(b')')?;
    }
    Ok(())
}

// A line for each row, and the sizes of the joins in the order in which they ran.
#[derive(Debug, Drop)]
struct Told {
    rows: Vec<u8>,
    sizes: Vec<u32>,
}

fn tell(alloc: Global, found: &Found) -> Result<Told, AllocError> {
    let mut rows = Vec::new(alloc);
    for row in &found.rows {
        push_row(row.offers.as_slice(), &mut rows)?;
        rows.push(b'\n')?;
    }
    let mut sizes = Vec::new(alloc);
    for trace in &found.trace {
        sizes.push(trace.size())?;
    }
    Ok(Told { rows, sizes })
}

// What is found, where the edges are joined in that order.
fn found<R: Threads + Sync>(
    rt: &R,
    alloc: Global,
    lines: &[u8],
    text: &[u8],
    list: &[u32],
) -> Result<Told, Fail> {
    let store = store(alloc, lines)?;
    let p = pattern(alloc, text)?;
    let Some(order) = Order::of(&p, list.to_vec(alloc)?) else {
        return Err("no order".into());
    };
    let found = witnesses(rt, alloc, &p, &store, &order, &SETTINGS, &OpenGate)?;
    Ok(tell(alloc, &found)?)
}

const NONE: &[u8] = b"(b\n)b\n";

const TWO: &[u8] = b"(b\n(c\n)c\n(c\n)c\n)b\n";

// Two elements `a` inside each other, each with an `x`, the inner one with a `y` of several texts, too.
const NESTED: &[u8] = b"(a\n(x\n-7\n)x\n(a\n(x\n-30\n)x\n(y\n-on\n(z\n)z\n-ce\n)y\n)a\n)a\n";

const ORDERS: [&[u32]; 24] = [
    &[0, 1, 2, 3],
    &[0, 1, 3, 2],
    &[0, 2, 1, 3],
    &[0, 2, 3, 1],
    &[0, 3, 1, 2],
    &[0, 3, 2, 1],
    &[1, 0, 2, 3],
    &[1, 0, 3, 2],
    &[1, 2, 0, 3],
    &[1, 2, 3, 0],
    &[1, 3, 0, 2],
    &[1, 3, 2, 0],
    &[2, 0, 1, 3],
    &[2, 0, 3, 1],
    &[2, 1, 0, 3],
    &[2, 1, 3, 0],
    &[2, 3, 0, 1],
    &[2, 3, 1, 0],
    &[3, 0, 1, 2],
    &[3, 0, 2, 1],
    &[3, 1, 0, 2],
    &[3, 1, 2, 0],
    &[3, 2, 0, 1],
    &[3, 2, 1, 0],
];

#[test]
fn every_order_of_four_edges_finds_the_same_four_rows(rt: HostRuntime) -> Result<(), Fail> {
    let text: &[u8] = b"MATCH document('d') (//- b (/- c, /? c, /* c))";
    let rows: &[u8] = b"(1(2)(2)(23))\n(1(2)(3)(23))\n(1(3)(2)(23))\n(1(3)(3)(23))\n";
    for order in ORDERS {
        let found = found(&rt, rt.alloc(), TWO, text, order)?;
        assert_eq!(rt; found.rows.as_slice(), rows);
    }
    Ok(())
}

#[test]
fn marks_offer_each_alone_or_all_together(rt: HostRuntime) -> Result<(), Fail> {
    let rows: [(&[u8], &[u8], &[u8], &[u32]); 8] = [
        (NONE, b"MATCH document('d') (//- b (/- c))", b"", &[1, 0]),
        (
            NONE,
            b"MATCH document('d') (//- b (/? c))",
            b"(1())\n",
            &[1, 0],
        ),
        (NONE, b"MATCH document('d') (//- b (/+ c))", b"", &[1, 0]),
        (
            NONE,
            b"MATCH document('d') (//- b (/* c))",
            b"(1())\n",
            &[1, 0],
        ),
        (
            TWO,
            b"MATCH document('d') (//- b (/- c))",
            b"(1(2))\n(1(3))\n",
            &[1, 2],
        ),
        (
            TWO,
            b"MATCH document('d') (//- b (/? c))",
            b"(1(2))\n(1(3))\n",
            &[1, 2],
        ),
        (
            TWO,
            b"MATCH document('d') (//- b (/+ c))",
            b"(1(23))\n",
            &[1, 2],
        ),
        (
            TWO,
            b"MATCH document('d') (//- b (/* c))",
            b"(1(23))\n",
            &[1, 2],
        ),
    ];
    for (lines, text, wanted, sizes) in rows {
        let found = found(&rt, rt.alloc(), lines, text, &[0, 1])?;
        assert_eq!(rt; found.rows.as_slice(), wanted);
        assert_eq!(rt; found.sizes.as_slice(), sizes);
    }
    Ok(())
}

#[test]
fn axes_and_conditions_choose_and_joins_narrow(rt: HostRuntime) -> Result<(), Fail> {
    let rows: [(&[u8], &[u32], &[u8], &[u32]); 8] = [
        (
            b"MATCH document('d') (//- a (/- x))",
            &[0, 1],
            b"(1(2))\n(4(5))\n",
            &[2, 2],
        ),
        (
            b"MATCH document('d') (//- a (//- x))",
            &[0, 1],
            b"(1(2))\n(1(5))\n(4(5))\n",
            &[2, 2],
        ),
        (
            b"MATCH document('d') (/- a (//- x [> 7]))",
            &[0, 1],
            b"(1(5))\n",
            &[2, 1],
        ),
        (
            b"MATCH document('d') (/- a (//- x [> 7]))",
            &[1, 0],
            b"(1(5))\n",
            &[1, 2],
        ),
        (
            b"MATCH document('d') (//- a (/- y [= 'once']))",
            &[1, 0],
            b"(4(7))\n",
            &[1, 1],
        ),
        (
            b"MATCH document('d') (//- a (/- y [= 'one']))",
            &[0, 1],
            b"",
            &[2, 0],
        ),
        (
            b"MATCH document('d') (//- a (//- a (/- y)))",
            &[0, 1, 2],
            b"(1(4(7)))\n",
            &[2, 2, 1],
        ),
        (
            b"MATCH document('d') (//- a (//? a (/- y)))",
            &[2, 1, 0],
            b"(1(4(7)))\n(4())\n",
            &[1, 1, 2],
        ),
    ];
    for (text, order, wanted, sizes) in rows {
        let found = found(&rt, rt.alloc(), NESTED, text, order)?;
        assert_eq!(rt; found.rows.as_slice(), wanted);
        assert_eq!(rt; found.sizes.as_slice(), sizes);
    }
    Ok(())
}

#[test]
fn links_in_vain_are_dropped(rt: HostRuntime) -> Result<(), Fail> {
    let store = store(rt.alloc(), NESTED)?;
    let p = pattern(rt.alloc(), b"MATCH document('d') (//- a (//- a (/- z)))")?;
    let Some(order) = Order::of(&p, [0, 1, 2].to_vec(rt.alloc())?) else {
        return Err("no order".into());
    };
    let matched = join_edges(&rt, rt.alloc(), &p, &store, &order, &SETTINGS, &OpenGate)?;
    let mut most = 0;
    for links in &matched.links {
        most = most.max(links.len());
    }
    assert_eq!(rt; most, 0);
    Ok(())
}
