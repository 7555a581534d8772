//! Matching a pattern over a document.

ghost use Rattle.std.specs.Prelude.{◌≤◌, IfOk, IfSome};
ghost use Rattle.tb_pattern.specs.View.{edges_of};
ghost use Rattle.tb_plan.specs.Orders.{edge_count, IsOrderOf};

use std::alloc::{AllocError, Global};
use std::process::ExitCode;
use std::thread::Threads;
use std::time::Instant;
use std::{env, io};
use tb_edge::OpenGate;
use tb_label::Store;
use tb_parjoin::{OrderRule, Settings};
use tb_pattern::{Offer, Pattern, Witness, read_pattern};
use tb_plan::Order;
use tb_token::tokens;
use tb_twig::{join_edges, witnesses};

const SETTINGS: Settings = Settings {
    workers: 1,
    grain: 1,
    order: OrderRule::Written,
    trace: false,
};

/// Times the joins of the `MATCH` query and the order of edges that the words behind `match` name, and then
/// joins and rows together; and says how many rows there are, and which.
pub fn time_match<R: Threads + Sync>(
    rt: &HostRuntime,
    threads: &R,
    store: &Store,
) -> io::Result<ExitCode> {
    let Some(pattern) = pattern_of(rt)? else {
        eprintln!(rt; "no pattern")?;
        return Ok(ExitCode::FAILURE);
    };
    let Some(order) = order_of(rt, &pattern)? else {
        eprintln!(rt; "no order")?;
        return Ok(ExitCode::FAILURE);
    };
    let start = Instant::now(rt)?;
    let joined = join_edges(
        threads,
        rt.alloc(),
        &pattern,
        store,
        &order,
        &SETTINGS,
        &OpenGate,
    )?;
    let took = start.elapsed(rt)?;
    drop(joined);
    eprintln!(rt; "joins {}", took.as_nanos())?;
    let start = Instant::now(rt)?;
    let found = witnesses(
        threads,
        rt.alloc(),
        &pattern,
        store,
        &order,
        &SETTINGS,
        &OpenGate,
    )?;
    let took = start.elapsed(rt)?;
    eprintln!(rt; "witnesses {}", took.as_nanos())?;
    println!(rt; "rows {}", found.rows.len())?;
    println!(rt; "sum {}", rows_sum(&found.rows))?;
    Ok(ExitCode::SUCCESS)
}

/// The pattern of the word behind the first.
pub fn pattern_of(rt: &HostRuntime) -> io::Result<Option<Pattern>>
    ensures { IfOk result (λ read. IfSome read (λ p. edge_count (edges_of p.edges) ≤ 64)) }
{
    let Some(word) = env::args(rt)?.nth(2) else {
        return Ok(None);
    };
    Ok(read(rt.alloc(), word.as_bytes()))
}

fn read(alloc: Global, text: &[u8]) -> Option<Pattern>
    ensures { IfSome result (λ p. edge_count (edges_of p.edges) ≤ 64) }
{
    if text.len() > 65_536 {
        return None;
    }
    let Ok(found) = tokens(alloc, text) else {
        return None;
    };
    match read_pattern(alloc, text, found.as_slice()) {
        Ok(pattern) => Some(pattern),
        Err(_) => None,
    }
}

/// The order of the second word behind `match`, a digit for each edge.
fn order_of(rt: &HostRuntime, pattern: &Pattern) -> io::Result<Option<Order>>
    requires { edge_count (edges_of pattern.now.edges) ≤ 64 }
    ensures { IfOk result (λ order. IfSome order (λ o. IsOrderOf o (edges_of pattern.now.edges))) }
{
    let Some(word) = env::args(rt)?.nth(3) else {
        return Ok(None);
    };
    let numbers = digits(rt.alloc(), word.as_bytes())?;
    Ok(Order::of(pattern, numbers))
}

fn digits(alloc: Global, word: &[u8]) -> Result<Vec<u32>, AllocError> {
    let mut numbers = Vec::new(alloc);
    'digits: for byte in word {
        numbers.push(u32::from(byte.wrapping_sub(b'0')))?;
    }
    Ok(numbers)
}

/// A number that differs where the rows do, most likely.
fn rows_sum(rows: &[Witness]) -> u64 {
    let mut sum = 1u64;
    'rows: for row in rows {
        sum = with_offers(sum, row.offers.as_slice());
    }
    sum
}

fn with_offers(start: u64, offers: &[Offer]) -> u64 {
    let mut sum = start;
    'offers: for offer in offers {
        sum = sum
            .wrapping_mul(31)
            .wrapping_add(offer.as_slice().len() as u64);
        'witnesses: for witness in offer.as_slice() {
            sum = sum
                .wrapping_mul(31)
                .wrapping_add(u64::from(witness.node.index()));
            sum = with_offers(sum, witness.offers.as_slice());
        }
    }
    sum
}
