//! A whole document, flat: its printed lines, and for each node where they stand.

ghost use Rattle.std.specs.Prelude.{◌≡◌, ◌≤◌, IsTrue, IfOk, map};
ghost use Rattle.tb_tree.specs.View.{plain_of};
ghost use Rattle.tb_tree.specs.Plain.{one, is_element};
ghost use Rattle.tb_tree.specs.Sound.{IsSound};
ghost use Rattle.tb_tree.specs.Levels.{levels};
ghost use Rattle.tb_tree.specs.Printed.{printed_node};
ghost use Rattle.tb_tree.specs.Numbers.{count};
ghost use Rattle.tb_tree.specs.Nodes.{node_at, level_at};
ghost use Rattle.tb_tree.specs.Extents.{named};
ghost use Rattle.tb_tree.specs.FlatTrees.{root_read, AreNodes, IsDocument, IsPlaced};

use crate::built::node_of;
use crate::source::{Source, own_extents};
use crate::{Bytes, Extent, Node};
use std::alloc::{AllocError, Global};
use std::marker::Model;

/// A document: its one root is a sound element, and at most 512 elements are inside each other.
#[derive(Debug, Drop)]
pub struct Tree {
    text: Vec<u8>,
    extents: Vec<Extent>,
    elements: Vec<Bytes>,
    attributes: Vec<Bytes>,
}

impl Model for Tree {
    ghost use Rattle.std.specs.Coded.{codes};
    ghost use Rattle.tb_tree.specs.declared.node.Node.{Node};
    ghost use Rattle.tb_tree.specs.contracts.node.Node as node_rows;
    ghost use Rattle.tb_tree.specs.FlatTrees.{root_read, node_of, IsDocument};

    ghost Value = { Node };

    ghost coded = { Prim.hlevel (codes, node_rows.the_row.coded) };

    ghost view = { λ d. node_of (root_read d.text.items d.extents.items d.elements.items d.attributes.items) };

    ghost invariant = { λ d. IsDocument d.text.items d.extents.items d.elements.items d.attributes.items (root_read d.text.items d.extents.items d.elements.items d.attributes.items) };
}

impl Tree {
    /// The document of these lines and extents.
    pub(crate) fn new(
        text: Vec<u8>,
        extents: Vec<Extent>,
        elements: Vec<Bytes>,
        attributes: Vec<Bytes>,
    ) -> Tree
        requires document { IsDocument text.items extents.items elements.items attributes.items
            (root_read text.items extents.items elements.items attributes.items) }
        ensures { plain_of result ≡ root_read text.items extents.items elements.items attributes.items }
    {
        Tree {
            text,
            extents,
            elements,
            attributes,
        }
    }

    /// All printed lines.
    pub fn text(&self) -> &[u8]
        ensures lines { result.now ≡ printed_node (plain_of self.now) }
        ensures sound { IsSound (plain_of self.now) }
        ensures element { IsTrue (is_element (plain_of self.now)) }
        ensures levels { levels (one (plain_of self.now)) ≤ 512 }
    {
        self.text.as_slice()
    }

    /// How many nodes the document has, the document node apart.
    pub fn count(&self) -> usize
        ensures { result ≡ count (plain_of self.now) }
    {
        self.extents.len()
    }

    /// The nodes' extents in document order, and the names of elements and of attributes by number.
    pub fn parts(&self) -> (&[Extent], &[Bytes], &[Bytes])
        ensures { IsPlaced (plain_of self.now) result.0.now result.1.now result.2.now }
    {
        let source = self.source();
        (source.extents, source.elements, source.attributes)
    }

    /// The root with all that is below it, as a node of its own.
    pub fn root(&self, alloc: Global) -> Result<Node, AllocError>
        ensures node { IfOk result (λ node. plain_of node ≡ plain_of self.now) }
        ensures sound { IfOk result (λ node. IsSound (plain_of node)) }
        ensures element { IfOk result (λ node. IsTrue (is_element (plain_of node))) }
    {
        node_of(alloc, &self.source(), 1)
    }

    /// All that the document is told from.
    fn source(&self) -> Source<'_>
        ensures { IsDocument result.text.now result.extents.now result.elements.now result.attributes.now (plain_of self.now) }
    {
        Source {
            text: self.text.as_slice(),
            extents: self.extents.as_slice(),
            elements: self.elements.as_slice(),
            attributes: self.attributes.as_slice(),
        }
    }

    /// What the node with that number, from 1 in document order, and all below it are told from.
    pub(crate) fn part(&self, number: u32) -> Source<'_>
        requires some { 1 ≤ number }
        requires within { number ≤ count (plain_of self.now) }
        ensures nodes { AreNodes result.text.now (map (named result.elements.now result.attributes.now) result.extents.now)
            number (level_at (plain_of self.now) number) (one (node_at (plain_of self.now) number)) }
        ensures sound { IsSound (node_at (plain_of self.now) number) }
    {
        let source = self.source();
        Source {
            text: source.text,
            extents: own_extents(source.extents, number),
            elements: source.elements,
            attributes: source.attributes,
        }
    }
}
