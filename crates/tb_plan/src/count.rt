//! How many edges a pattern has.

ghost use Rattle.std.specs.Prelude.{◌≡◌, ◌<◌, ◌^◌};
ghost use Rattle.tb_pattern.specs.View.{edges_of};
ghost use Rattle.tb_plan.specs.Orders.{edge_count};

use tb_pattern::Edge;

/// The edges and all that are below them.
pub fn edges_in(edges: &[Edge]) -> u32
    requires few { edge_count (edges_of edges.now) < 2 ^ 32 }
    ensures { result ≡ edge_count (edges_of edges.now) }
{
    let mut count = 0;
    'edges: for edge in edges {
        count += 1 + edges_in(edge.to.edges.as_slice());
    }
    count
}
