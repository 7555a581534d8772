//! Trees of witnesses, written while their rows are chosen: no row and no tree is kept.

ghost use Rattle.std.specs.Prelude.{◌≡◌, ◌+◌, ◌<◌, ◌^◌, ◌++◌, ◌∷◌, [], length, IfOk, OnOk};
ghost use Rattle.std.specs.List.{flat_map};
ghost use Rattle.tb_tree.specs.Pages.{with_node, with_nodes};
ghost use Rattle.tb_pattern.specs.Plain.{nodes_in};
ghost use Rattle.tb_pattern.specs.View.{edge_of, edges_of};
ghost use Rattle.tb_twig.specs.Branches.{below_of};
ghost use Rattle.tb_engine.specs.Told.{told, with_trees};
ghost use Rattle.tb_engine.specs.Choices.{blanks};
ghost use Rattle.tb_engine.specs.Shown.{ground_of, by_mark, content_by, whole_of, stem_tree, stem_trees, trees_from, chosen_trees, group_trees};

use crate::choice::choices;
use crate::ground::{Ground, Pen, Stem};
use crate::marked::{begin, finish, kind_at};
use crate::places::{behind, chosen_at, part};
use std::alloc::AllocError;
use tb_pattern::{Edge, Mark};
use tb_tree::Kind;
use tb_twig::{Branch, nodes_in, size_below};

/// The trees of a node, for all its rows; and how many there are, or the greatest number where there are more.
#[cycle(trees)]
pub fn write_trees(g: &Ground<'_>, stem: &Stem<'_>, pen: &mut Pen) -> Result<u64, AllocError>
    requires numbers { stem.now.place + nodes_in (edges_of stem.now.edges.now) < 2 ^ 32 }
    ensures { IfOk result (λ trees. told pen.new.page trees
        ≡ with_trees (told pen.old.page 0) (stem_trees (ground_of g.now) stem.now)) }
{
    let size = nodes_in(stem.edges) as usize;
    let rungs = part(g.laid, stem.place as usize, size);
    let mut chosen = Vec::with_capacity(g.alloc, rungs.len() + 1)?;
    chosen.push(Some(stem.node))?;
    let mut trees = 0;
    write_rows(g, stem, rungs, stem.place, &mut chosen, pen, &mut trees)?;
    Ok(trees)
}

/// The trees of the rows that go on from one. These edges are left, the first of which has the number f.
#[cycle(trees)]
fn write_rows(
    g: &Ground<'_>,
    stem: &Stem<'_>,
    rungs: &[Branch],
    f: u32,
    chosen: &mut Vec<Option<u32>>,
    pen: &mut Pen,
    trees: &mut u64,
) -> Result<(), AllocError>
    requires numbers { stem.now.place + nodes_in (edges_of stem.now.edges.now) < 2 ^ 32 }
    requires room { f + length rungs.now < 2 ^ 32 }
    ensures written { OnOk result (told pen.new.page trees.new ≡ with_trees (told pen.old.page trees.old)
        (trees_from (ground_of g.now) stem.now rungs.now f chosen.old.items)) }
    ensures back { OnOk result (chosen.new.items ≡ chosen.old.items) }
{
    let [rung, rest @ ..] = rungs else {
        write_tree(g, stem, behind(chosen.as_slice(), 1), pen)?;
        *trees = trees.saturating_add(1);
        return Ok(());
    };
    let above = chosen_at(
        chosen.as_slice(),
        rung.up.saturating_sub(stem.place) as usize,
    );
    let (blank, run) = choices(g, rung.mark, f, above, &mut pen.cursors);
    write_blank(g, stem, rest, f + 1, blank, chosen, pen, trees)?;
    'run: for link in run {
        write_choice(g, stem, rest, f + 1, Some(link.below), chosen, pen, trees)?;
    }
    Ok(())
}

/// The trees of the rows in which none is chosen next, where that may be.
#[cycle(trees)]
fn write_blank(
    g: &Ground<'_>,
    stem: &Stem<'_>,
    rungs: &[Branch],
    f: u32,
    blank: bool,
    chosen: &mut Vec<Option<u32>>,
    pen: &mut Pen,
    trees: &mut u64,
) -> Result<(), AllocError>
    requires numbers { stem.now.place + nodes_in (edges_of stem.now.edges.now) < 2 ^ 32 }
    requires room { f + length rungs.now < 2 ^ 32 }
    ensures written { OnOk result (told pen.new.page trees.new ≡ with_trees (told pen.old.page trees.old)
        (flat_map (λ c. trees_from (ground_of g.now) stem.now rungs.now f (chosen.old.items ++ c ∷ [])) (blanks blank))) }
    ensures back { OnOk result (chosen.new.items ≡ chosen.old.items) }
{
    if blank {
        write_choice(g, stem, rungs, f, None, chosen, pen, trees)?;
    }
    Ok(())
}

/// The trees of the rows in which this is chosen next.
#[cycle(trees)]
fn write_choice(
    g: &Ground<'_>,
    stem: &Stem<'_>,
    rungs: &[Branch],
    f: u32,
    choice: Option<u32>,
    chosen: &mut Vec<Option<u32>>,
    pen: &mut Pen,
    trees: &mut u64,
) -> Result<(), AllocError>
    requires numbers { stem.now.place + nodes_in (edges_of stem.now.edges.now) < 2 ^ 32 }
    requires room { f + length rungs.now < 2 ^ 32 }
    ensures written { OnOk result (told pen.new.page trees.new ≡ with_trees (told pen.old.page trees.old)
        (trees_from (ground_of g.now) stem.now rungs.now f (chosen.old.items ++ choice ∷ []))) }
    ensures back { OnOk result (chosen.new.items ≡ chosen.old.items) }
{
    chosen.push(choice)?;
    write_rows(g, stem, rungs, f, chosen, pen, trees)?;
    chosen.pop();
    Ok(())
}

/// The tree of a node with the part of a row that is below it.
#[cycle(trees)]
fn write_tree(
    g: &Ground<'_>,
    stem: &Stem<'_>,
    row: &[Option<u32>],
    pen: &mut Pen,
) -> Result<(), AllocError>
    requires numbers { stem.now.place + nodes_in (edges_of stem.now.edges.now) < 2 ^ 32 }
    ensures { OnOk result (pen.new.page ≡ with_node pen.old.page (stem_tree (ground_of g.now) stem.now row.now)) }
{
    begin(g.alloc, g.tree, stem.node, stem.whole, &mut pen.page)?;
    if let Kind::Text = kind_at(g.tree, stem.node) {
        return Ok(());
    }
    write_inside(g, stem.edges, stem.place, stem.node, row, pen)?;
    finish(g.tree, stem.node, &mut pen.page)?;
    Ok(())
}

/// What stands in the tree of node n for these edges, the first of which has the number f, by their part of a row.
#[cycle(trees)]
fn write_inside(
    g: &Ground<'_>,
    edges: &[Edge],
    f: u32,
    n: u32,
    row: &[Option<u32>],
    pen: &mut Pen,
) -> Result<(), AllocError>
    requires numbers { f + nodes_in (edges_of edges.now) < 2 ^ 32 }
    ensures { OnOk result (pen.new.page ≡ with_nodes pen.old.page (content_by (ground_of g.now) f (edges_of edges.now) n row.now)) }
{
    let mut at = f;
    let mut left = row;
    'edges: for edge in edges {
        let size = size_below(edge);
        write_offer(g, edge, at, n, left, pen)?;
        at = at + 1 + size;
        left = behind(left, 1 + size as usize);
    }
    Ok(())
}

/// The trees of edge f below node n.
#[cycle(trees)]
fn write_offer(
    g: &Ground<'_>,
    edge: &Edge,
    f: u32,
    n: u32,
    row: &[Option<u32>],
    pen: &mut Pen,
) -> Result<(), AllocError>
    requires numbers { f + 1 + nodes_in (below_of (edge_of edge.now)) < 2 ^ 32 }
    ensures { OnOk result (pen.new.page ≡ with_nodes pen.old.page (by_mark (edge_of edge.now).mark
        (chosen_trees (ground_of g.now) f (edge_of edge.now).to row.now) (group_trees (ground_of g.now) f (edge_of edge.now).to n))) }
{
    match edge.mark {
        Mark::One | Mark::Optional => write_chosen(g, edge, f, row, pen),
        Mark::Some | Mark::Any => write_group(g, edge, f, n, pen),
    }
}

/// The tree of the node that is chosen for edge f, if one is.
#[cycle(trees)]
fn write_chosen(
    g: &Ground<'_>,
    edge: &Edge,
    f: u32,
    row: &[Option<u32>],
    pen: &mut Pen,
) -> Result<(), AllocError>
    requires numbers { f + 1 + nodes_in (below_of (edge_of edge.now)) < 2 ^ 32 }
    ensures { OnOk result (pen.new.page ≡ with_nodes pen.old.page (chosen_trees (ground_of g.now) f (edge_of edge.now).to row.now)) }
{
    let Some(node) = chosen_at(row, 0) else {
        return Ok(());
    };
    let size = size_below(edge) as usize;
    let stem = stem_of(edge, f, node);
    write_tree(g, &stem, part(row, 1, size), pen)?;
    Ok(())
}

/// The trees of all nodes to which edge f leads from node n.
#[cycle(trees)]
fn write_group(g: &Ground<'_>, edge: &Edge, f: u32, n: u32, pen: &mut Pen) -> Result<(), AllocError>
    requires numbers { f + 1 + nodes_in (below_of (edge_of edge.now)) < 2 ^ 32 }
    ensures { OnOk result (pen.new.page ≡ with_nodes pen.old.page (group_trees (ground_of g.now) f (edge_of edge.now).to n)) }
{
    let run = g.runs.run(f as usize, n, &mut pen.cursors);
    'run: for link in run {
        let stem = stem_of(edge, f, link.below);
        write_trees(g, &stem, pen)?;
    }
    Ok(())
}

/// A node at the lower end of edge f.
fn stem_of<'a>(edge: &'a Edge, f: u32, node: u32) -> Stem<'a>
    requires { f + 1 < 2 ^ 32 }
    ensures place { result.place ≡ f + 1 }
    ensures node { result.node ≡ node }
    ensures whole { result.whole ≡ whole_of (edge_of edge.now).to }
    ensures edges { edges_of result.edges.now ≡ below_of (edge_of edge.now) }
{
    Stem {
        place: f + 1,
        whole: edge.to.whole,
        edges: edge.to.edges.as_slice(),
        node,
    }
}
