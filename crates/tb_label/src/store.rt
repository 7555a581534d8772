//! A document with the labels of its nodes and the list of each test.

ghost use Rattle.std.specs.Prelude.{◌≡◌, ◌∷◌, [], ◌^◌, ◌<◌, ◌≤◌, length, IfOk};
ghost use Rattle.tb_span.specs.Lists.{AreJoinable};
ghost use Rattle.tb_tree.specs.Plain.{one};
ghost use Rattle.tb_tree.specs.View.{plain_of};
ghost use Rattle.tb_tree.specs.Numbers.{count};
ghost use Rattle.tb_tree.specs.Levels.{levels};
ghost use Rattle.tb_tree.specs.declared.node_test.Test.{Test};
ghost use Rattle.tb_label.specs.Rows.{listed};
ghost use Rattle.tb_label.specs.Stores.{document_item_of};

use crate::listing::{item_at, lists_of};
use crate::lists::Lists;
use std::alloc::{AllocError, Global};
use std::marker::Model;
use std::slice;
use tb_span::Item;
use tb_tree::{Test, Tree};

/// A labelled document.
#[derive(Drop)]
pub struct Store {
    tree: Tree,
    document: Item,
    lists: Lists,
}

impl Model for Store {
    ghost use Rattle.std.specs.Coded.{codes};
    ghost use Rattle.tb_tree.specs.declared.node.Node.{Node};
    ghost use Rattle.tb_tree.specs.contracts.node.Node as node_rows;
    ghost use Rattle.tb_tree.specs.View.{plain_of};
    ghost use Rattle.tb_label.specs.Stores.{IsStore};

    ghost Value = { Node };

    ghost coded = { Prim.hlevel (codes, node_rows.the_row.coded) };

    ghost view = { λ store. store.tree };

    ghost invariant = { λ store. IsStore (plain_of store.tree) store.document store.lists };
}

impl Store {
    /// Labels the nodes of a document and lists them by test: fewer than 2^30 nodes, and at most 512
    /// elements inside each other.
    pub fn build(alloc: Global, tree: Tree) -> Result<Store, AllocError>
        requires nodes { count (plain_of tree) < 2 ^ 30 }
        requires levels { levels (one (plain_of tree)) ≤ 512 }
        ensures { IfOk result (λ store. store ≡ tree) }
    {
        let last = tree.count() as u32;
        let (extents, elements, attributes) = tree.parts();
        let lists = lists_of(alloc, extents, elements, attributes)?;
        let document = item_at(0, last, 0);
        Ok(Store {
            tree,
            document,
            lists,
        })
    }

    /// The document as it was given.
    pub fn tree(&self) -> &Tree
        ensures same { result.now ≡ self.now }
        ensures few { count (plain_of self.now) < 2 ^ 30 }
    {
        &self.tree
    }

    /// The document node alone, which has the number 0.
    pub fn document_item(&self) -> &[Item]
        ensures item { result.now ≡ document_item_of (plain_of self.now) ∷ [] }
        ensures joinable { (other : Test) → AreJoinable result.now (listed other (plain_of self.now)) }
    {
        slice::from_ref(&self.document)
    }

    /// The nodes that meet the test, by start. A name that doesn't occur gives none.
    pub fn list(&self, test: &Test) -> &[Item]
        ensures items { result.now ≡ listed test.now (plain_of self.now) }
        ensures few { length result.now < 2 ^ 30 }
        ensures joinable { (other : Test) → AreJoinable result.now (listed other (plain_of self.now)) }
    {
        self.lists.of(test)
    }
}
