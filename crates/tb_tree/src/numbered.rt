//! What a document tells of a node by its number, from 1 in document order.

ghost use Rattle.std.specs.Prelude.{◌≡◌, ◌≤◌, ◌+◌, IfOk};
ghost use Rattle.tb_tree.specs.View.{plain_of};
ghost use Rattle.tb_tree.specs.Sound.{IsSound};
ghost use Rattle.tb_tree.specs.Printed.{printed_node};
ghost use Rattle.tb_tree.specs.Numbers.{count};
ghost use Rattle.tb_tree.specs.Nodes.{node_at, level_at};
ghost use Rattle.tb_tree.specs.Extents.{kind_of, name_of};

use crate::built::node_of;
use crate::source::{extent_at, name_at, within};
use crate::{Kind, Node, Tree};
use std::alloc::{AllocError, Global};

impl Tree {
    /// The node and all that is below it, as a node of its own.
    pub fn node(&self, alloc: Global, number: u32) -> Result<Node, AllocError>
        requires some { 1 ≤ number }
        requires within { number ≤ count (plain_of self.now) }
        ensures node { IfOk result (λ node. plain_of node ≡ node_at (plain_of self.now) number) }
        ensures sound { IfOk result (λ node. IsSound (plain_of node)) }
    {
        node_of(alloc, &self.part(number), number as usize)
    }

    /// The lines of the node.
    pub fn printed(&self, number: u32) -> &[u8]
        requires some { 1 ≤ number }
        requires within { number ≤ count (plain_of self.now) }
        ensures lines { result.now ≡ printed_node (node_at (plain_of self.now) number) }
        ensures sound { IsSound (node_at (plain_of self.now) number) }
    {
        let part = self.part(number);
        let extent = extent_at(part.extents, 1);
        let from = extent.from as usize;
        within(part.text, from, (extent.to as usize).saturating_sub(from))
    }

    /// Which kind the node is of.
    pub fn kind(&self, number: u32) -> Kind
        requires some { 1 ≤ number }
        requires within { number ≤ count (plain_of self.now) }
        ensures { result ≡ kind_of (node_at (plain_of self.now) number) }
    {
        extent_at(self.part(number).extents, 1).kind
    }

    /// The level of the node: the root has 1.
    pub fn level(&self, number: u32) -> u16
        requires some { 1 ≤ number }
        requires within { number ≤ count (plain_of self.now) }
        ensures { result ≡ level_at (plain_of self.now) number }
    {
        extent_at(self.part(number).extents, 1).level
    }

    /// The number of the last node below it, or its own where none is.
    pub fn last(&self, number: u32) -> u32
        requires some { 1 ≤ number }
        requires within { number ≤ count (plain_of self.now) }
        ensures { result + 1 ≡ number + count (node_at (plain_of self.now) number) }
    {
        extent_at(self.part(number).extents, 1).last
    }

    /// The name of an element or an attribute; a text has none.
    pub fn name(&self, number: u32) -> &[u8]
        requires some { 1 ≤ number }
        requires within { number ≤ count (plain_of self.now) }
        ensures { result.now ≡ name_of (node_at (plain_of self.now) number) }
    {
        let part = self.part(number);
        let extent = extent_at(part.extents, 1);
        match extent.kind {
            Kind::Element => name_at(part.elements, extent.name),
            Kind::Attribute => name_at(part.attributes, extent.name),
            Kind::Text => &[],
        }
    }
}
