//! The trees of rows.

ghost use Rattle.std.specs.Prelude.{◌≡◌, Some, map, IfOk};
ghost use Rattle.tb_tree.specs.View.{plain_of};
ghost use Rattle.tb_pattern.specs.View.{edges_of};
ghost use Rattle.tb_construct.specs.Seen.{nth_node, seen, rows_of_document};
ghost use Rattle.tb_query.specs.Answer.{match_trees};
ghost use Rattle.tb_construct.specs.Trees.{row_tree, trees_by};

use crate::inside::put_offers;
use std::alloc::{AllocError, Global};
use tb_label::Store;
use tb_pattern::{Edge, Pattern, Witness};
use tb_tree::{Bytes, Items, Node, Tree};

/// Trees in order.
#[derive(Debug, Drop)]
pub struct Forest {
    pub trees: Vec<Node>,
}

/// The trees of these rows, in their order: the matched nodes, inside each other as in the pattern. Each row is
/// the document node with an offer for each edge that leaves it, as the witnesses of the pattern are.
pub fn witness_trees(
    alloc: Global,
    p: &Pattern,
    store: &Store,
    rows: &[Witness],
) -> Result<Forest, AllocError>
    ensures trees { IfOk result (λ forest. map plain_of forest.trees.items
        ≡ trees_by (edges_of p.now.edges) (map (seen (nth_node (plain_of store.now))) rows.now)) }
    ensures naive { IfOk result (λ forest. map (seen (nth_node (plain_of store.now))) rows.now
        ≡ rows_of_document (edges_of p.now.edges) (plain_of store.now)
        → map plain_of forest.trees.items ≡ match_trees (edges_of p.now.edges) (Some (plain_of store.now))) }
{
    let trees = row_trees(alloc, p.edges.as_slice(), store.tree(), rows)?;
    Ok(Forest { trees })
}

fn row_trees(
    alloc: Global,
    edges: &[Edge],
    tree: &Tree,
    rows: &[Witness],
) -> Result<Vec<Node>, AllocError>
    ensures { IfOk result (λ trees. map plain_of trees.items
        ≡ trees_by (edges_of edges.now) (map (seen (nth_node (plain_of tree.now))) rows.now)) }
{
    let mut trees = Vec::with_capacity(alloc, rows.len())?;
    'rows: for row in rows {
        trees.push(row_tree(alloc, edges, tree, row)?)?;
    }
    Ok(trees)
}

fn row_tree(alloc: Global, edges: &[Edge], tree: &Tree, row: &Witness) -> Result<Node, AllocError>
    ensures { IfOk result (λ node. plain_of node
        ≡ row_tree (edges_of edges.now) (seen (nth_node (plain_of tree.now)) row.now)) }
{
    let name = Bytes::from_vec(b"witness".to_vec(alloc)?);
    let mut kids = Vec::new(alloc);
    put_offers(alloc, tree, edges, row.offers.as_slice(), &mut kids)?;
    Ok(Node::Elem {
        name,
        kids: Items::from_vec(kids),
    })
}
