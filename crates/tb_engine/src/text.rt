//! The text of all witnesses of a pattern, from the links of its edges.

ghost use Rattle.std.specs.Prelude.{◌≡◌, ◌<◌, ◌≤◌, ◌^◌, false, length, map, All, IfOk};
ghost use Rattle.tb_tree.specs.View.{plain_of};
ghost use Rattle.tb_pattern.specs.View.{edges_of};
ghost use Rattle.tb_pattern.specs.WitnessTree.{witness_tree};
ghost use Rattle.tb_plan.specs.Orders.{edge_count};
ghost use Rattle.tb_query.specs.Answer.{counted};
ghost use Rattle.tb_twig.specs.Branches.{branches_of};
ghost use Rattle.tb_twig.specs.Lists.{branch_of};
ghost use Rattle.tb_twig.specs.Links.{IsRising, lists_in, links_at, built_by};
ghost use Rattle.tb_twig.specs.Seen.{nth_node};
ghost use Rattle.tb_twig.specs.Trimmed.{AreTrimmed};

use crate::ground::{Ground, Pen, Stem};
use crate::write::write_trees;
use std::alloc::{AllocError, Global};
use tb_pattern::Edge;
use tb_tree::{Tree, Writer};
use tb_twig::{Branch, Cursors, Link, Runs, is_in_vain};

/// How many trees the witnesses have, and their lines. The links are those of the edges, none in vain.
pub fn witness_text(
    alloc: Global,
    edges: &[Edge],
    laid: &[Branch],
    links: &[Vec<Link>],
    tree: &Tree,
) -> Result<(u64, Vec<u8>), AllocError>
    requires few { edge_count (edges_of edges.now) < 2 ^ 32 }
    requires laid { laid.now ≡ map branch_of (branches_of (edges_of edges.now)) }
    requires many { length links.now ≡ edge_count (edges_of edges.now) }
    requires rise { All (λ ls. IsRising ls.items) links.now }
    requires below { All (λ ls. All (λ link. 1 ≤ link.below) ls.items) links.now }
    requires trimmed { AreTrimmed laid.now (lists_in links.now) }
    ensures { IfOk result (λ text. (text.0, text.1.items) ≡ counted (map (witness_tree (edges_of edges.now))
        (built_by (nth_node (plain_of tree.now)) (links_at links.now) 0 (edges_of edges.now) 0))) }
{
    if is_in_vain(edges, links, 0) {
        return Ok((0, Vec::new(alloc)));
    }
    let g = Ground {
        alloc,
        laid,
        runs: Runs::new(links),
        tree,
    };
    let mut pen = Pen {
        page: Writer::new(alloc),
        cursors: Cursors::new(alloc, links.len())?,
    };
    let trees = write_trees(&g, &document(edges), &mut pen)?;
    let Pen { page, cursors: _ } = pen;
    let text = page.into_vec()?;
    // There are no more trees than bytes.
    let _ = text.len();
    Ok((trees, text))
}

/// The document node, which these edges leave.
fn document(edges: &[Edge]) -> Stem<'_>
    ensures place { result.place ≡ 0 }
    ensures whole { result.whole ≡ false }
    ensures edges { result.edges.now ≡ edges.now }
    ensures node { result.node ≡ 0 }
{
    Stem {
        place: 0,
        whole: false,
        edges,
        node: 0,
    }
}
