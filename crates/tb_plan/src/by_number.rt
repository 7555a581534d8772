//! The edges by their numbers: as they are written, and from the last to the first.

ghost use Rattle.std.specs.Prelude.{◌≡◌, ◌<◌, ◌^◌, IfOk};
ghost use Rattle.tb_pattern.specs.View.{edges_of};
ghost use Rattle.tb_plan.specs.Orders.{edge_count, numbers, IsOrderOf, written_order, reverse_order};

use crate::Order;
use crate::count::edges_in;
use std::alloc::{AllocError, Global};
use tb_pattern::Pattern;

/// The edges in written order: 0, 1, 2 and on.
pub fn written(alloc: Global, p: &Pattern) -> Result<Order, AllocError>
    requires few { edge_count (edges_of p.now.edges) < 2 ^ 32 }
    ensures order { IfOk result (λ order. order ≡ written_order (edges_of p.now.edges)) }
    ensures each_once { IfOk result (λ order. IsOrderOf order (edges_of p.now.edges)) }
{
    let edges = numbers_below(alloc, edges_in(p.edges.as_slice()))?;
    Ok(Order::listed(edges))
}

/// The edges from the last one to the first.
pub fn reverse(alloc: Global, p: &Pattern) -> Result<Order, AllocError>
    requires few { edge_count (edges_of p.now.edges) < 2 ^ 32 }
    ensures order { IfOk result (λ order. order ≡ reverse_order (edges_of p.now.edges)) }
    ensures each_once { IfOk result (λ order. IsOrderOf order (edges_of p.now.edges)) }
{
    let mut edges = numbers_below(alloc, edges_in(p.edges.as_slice()))?;
    edges.reverse();
    Ok(Order::listed(edges))
}

fn numbers_below(alloc: Global, count: u32) -> Result<Vec<u32>, AllocError>
    ensures { IfOk result (λ edges. edges.items ≡ numbers count) }
{
    let mut edges = Vec::with_capacity(alloc, count as usize)?;
    'numbers: for number in 0..count {
        edges.push(number)?;
    }
    Ok(edges)
}
