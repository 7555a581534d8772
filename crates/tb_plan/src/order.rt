//! The order in which the edges of a pattern are joined.

ghost use Rattle.std.specs.Prelude.{◌≡◌, ◌<◌, ◌^◌, ◌↔◌, IsSome, IfSome};
ghost use Rattle.tb_pattern.specs.View.{edges_of};
ghost use Rattle.tb_plan.specs.Orders.{edge_count, IsOrder, IsOrderOf};

use crate::count::edges_in;
use crate::permutation::is_permutation;
use std::marker::Model;
use tb_pattern::Pattern;

/// The numbers of a pattern's edges, from 0, each once.
#[derive(Debug, Drop)]
pub struct Order {
    edges: Vec<u32>,
}

impl Model for Order {
    ghost use Rattle.std.specs.Prelude.{List, ℕ};
    ghost use Rattle.tb_plan.specs.Orders.{IsOrder};

    ghost Value = { List ℕ };

    ghost view = { λ order. order.edges.items };

    ghost invariant = { λ order. IsOrder order.edges.items };
}

impl Order {
    /// The order of this list, or `None` where the list isn't one of the edges of the pattern. It takes no memory.
    pub fn of(p: &Pattern, edges: Vec<u32>) -> Option<Order>
        requires few { edge_count (edges_of p.now.edges) < 2 ^ 32 }
        ensures exactly { IsSome result ↔ IsOrderOf edges.items (edges_of p.now.edges) }
        ensures listed { IfSome result (λ order. order ≡ edges.items) }
    {
        let mut edges = edges;
        if edges.len() != edges_in(p.edges.as_slice()) as usize {
            return None;
        }
        if !is_permutation(&mut edges) {
            return None;
        }
        Some(Order { edges })
    }

    /// The order of a list that is one.
    pub(crate) fn listed(edges: Vec<u32>) -> Order
        requires { IsOrder edges.items }
        ensures { result ≡ edges.items }
    {
        Order { edges }
    }

    /// The number of each edge once, the edge that is joined first standing first.
    pub fn edges(&self) -> &[u32]
        ensures listed { result.now ≡ self.now }
        ensures once { IsOrder self.now }
    {
        self.edges.as_slice()
    }
}
