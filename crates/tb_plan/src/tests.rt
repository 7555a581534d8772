//! What no clause says: that orders are made with ample memory, and small lists that were judged by hand.

ghost use Rattle.std.specs.Prelude.{◌≤◌, IfOk};
ghost use Rattle.tb_pattern.specs.View.{edges_of};
ghost use Rattle.tb_plan.specs.Orders.{edge_count};

use crate::{Order, reverse, written};
use std::alloc::Global;
use std::test::Fail;
use tb_pattern::{Pattern, read_pattern};
use tb_token::tokens;
use tb_tree::{Bytes, Items};

// The pattern of a `MATCH` query.
fn pattern(alloc: Global, text: &[u8]) -> Result<Pattern, Fail>
    ensures few { IfOk result (λ p. edge_count (edges_of p.edges) ≤ 64) }
{
    if text.len() > 65_536 {
        return Err("too long".into());
    }
    let Ok(found) = tokens(alloc, text) else {
        return Err("no tokens".into());
    };
    match read_pattern(alloc, text, found.as_slice()) {
        Ok(p) => Ok(p),
        Err(_) => Err("no pattern".into()),
    }
}

// Whether the list is an order of the pattern, which then comes back as it was.
fn is_accepted(alloc: Global, text: &[u8], list: &[u32]) -> Result<bool, Fail> {
    let p = pattern(alloc, text)?;
    match Order::of(&p, list.to_vec(alloc)?) {
        Some(order) => Ok(order.edges() == list),
        None => Ok(false),
    }
}

const FOUR: &[u8] = b"MATCH document('d') (//- a (/- b, //? c (/+ d)))";

#[test]
fn edges_are_ordered_as_they_are_written_and_turned_round(rt: HostRuntime) -> Result<(), Fail> {
    let rows: [(&[u8], &[u32], &[u32]); 3] = [
        (b"MATCH document('d') (//- a)", &[0], &[0]),
        (FOUR, &[0, 1, 2, 3], &[3, 2, 1, 0]),
        (
            b"MATCH document('d') (//- a (/- b), /* c (/- d, /- e))",
            &[0, 1, 2, 3, 4],
            &[4, 3, 2, 1, 0],
        ),
    ];
    for (text, rising, falling) in rows {
        let p = pattern(rt.alloc(), text)?;
        assert_eq!(rt; written(rt.alloc(), &p)?.edges(), rising);
        assert_eq!(rt; reverse(rt.alloc(), &p)?.edges(), falling);
    }
    Ok(())
}

#[test]
fn a_list_is_accepted_where_it_has_each_edge_once(rt: HostRuntime) -> Result<(), Fail> {
    let rows: [(&[u32], bool); 12] = [
        (&[0, 1, 2, 3], true),
        (&[3, 2, 1, 0], true),
        (&[2, 0, 3, 1], true),
        (&[1, 2, 3, 0], true),
        (&[], false),
        (&[0, 1, 2], false),
        (&[0, 1, 2, 3, 4], false),
        (&[0, 1, 2, 3, 3], false),
        (&[0, 1, 1, 3], false),
        (&[3, 3, 3, 3], false),
        (&[0, 1, 2, 4], false),
        (&[0, 1, 2, 2_147_483_651], false),
    ];
    for (list, wanted) in rows {
        assert_eq!(rt; is_accepted(rt.alloc(), FOUR, list)?, wanted);
    }
    Ok(())
}

#[test]
fn a_pattern_without_edges_has_the_empty_order(rt: HostRuntime) -> Result<(), Fail> {
    let p = Pattern {
        document: Bytes::from_vec(Vec::new(rt.alloc())),
        edges: Items::from_vec(Vec::new(rt.alloc())),
    };
    assert_eq!(rt; written(rt.alloc(), &p)?.edges().len(), 0);
    assert_eq!(rt; reverse(rt.alloc(), &p)?.edges().len(), 0);
    assert_eq!(rt; Order::of(&p, Vec::new(rt.alloc())).is_some(), true);
    Ok(())
}
