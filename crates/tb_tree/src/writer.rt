//! A page of lines that is written from front to back.

ghost use Rattle.std.specs.Prelude.{◌≡◌, ◌≤◌, ◌++◌, ◌∷◌, [], true, false, IfOk, OnOk};
ghost use Rattle.tb_tree.specs.View.{plain_of, plains_of};
ghost use Rattle.tb_tree.specs.Printed.{start_line, end_line, attribute_line, attribute_lines};
ghost use Rattle.tb_tree.specs.Plain.{kids_of};
ghost use Rattle.tb_tree.specs.Numbers.{count};
ghost use Rattle.tb_tree.specs.Nodes.{node_at};
ghost use Rattle.tb_tree.specs.Pieces.{content_of};
ghost use Rattle.tb_tree.specs.Pages.{
  page,
  text_start,
  whole_lines,
  ended,
  with_lines,
  with_text,
  with_node,
  with_nodes,
  joined,
  going_on,
};

use crate::escaped::push_escaped;
use crate::printer::{push_attribute_told, push_attributes, push_named, push_node};
use crate::{Kind, Node, Tree};
use std::alloc::{AllocError, Global};
use std::marker::Model;

/// The lines so far. Texts that follow each other share a line, and one without a byte has none.
#[derive(Debug, Drop)]
pub struct Writer {
    out: Vec<u8>,
    /// The last line is of a text, and has no end yet.
    is_going: bool,
}

impl Model for Writer {
    ghost use Rattle.tb_tree.specs.Pages.{Page, page};

    ghost Value = { Page };

    ghost view = { λ w. page w.out.items w.is_going };
}

impl Writer {
    /// A page without a line.
    pub fn new(alloc: Global) -> Writer
        ensures { result ≡ page [] false }
    {
        Writer {
            out: Vec::new(alloc),
            is_going: false,
        }
    }

    /// Ends the text that goes on.
    pub fn end(&mut self) -> Result<(), AllocError>
        ensures { OnOk result (self.new ≡ ended self.old) }
    {
        if self.is_going {
            self.out.push(b'\n')?;
            self.is_going = false;
        }
        Ok(())
    }

    /// Begins a text, where none goes on.
    fn begin(&mut self) -> Result<(), AllocError>
        ensures { OnOk result (self.new ≡ page (self.old.bytes ++ text_start self.old.is_going) true) }
    {
        if !self.is_going {
            self.out.push(b'-')?;
            self.is_going = true;
        }
        Ok(())
    }

    /// The start of an element.
    pub fn open(&mut self, name: &[u8]) -> Result<(), AllocError>
        ensures { OnOk result (self.new ≡ with_lines self.old (start_line name.now)) }
    {
        self.end()?;
        push_named(b'(', name, &mut self.out)
    }

    /// The end of an element.
    pub fn close(&mut self, name: &[u8]) -> Result<(), AllocError>
        ensures { OnOk result (self.new ≡ with_lines self.old (end_line name.now)) }
    {
        self.end()?;
        push_named(b')', name, &mut self.out)
    }

    /// The start of an element that stands for an attribute: its name has `@` before it.
    pub fn open_marked(&mut self, name: &[u8]) -> Result<(), AllocError>
        ensures { OnOk result (self.new ≡ with_lines self.old (start_line (64 ∷ name.now))) }
    {
        self.end()?;
        self.out.push(b'(')?;
        push_named(b'@', name, &mut self.out)
    }

    /// The end of such an element.
    pub fn close_marked(&mut self, name: &[u8]) -> Result<(), AllocError>
        ensures { OnOk result (self.new ≡ with_lines self.old (end_line (64 ∷ name.now))) }
    {
        self.end()?;
        self.out.push(b')')?;
        push_named(b'@', name, &mut self.out)
    }

    /// An attribute of the element that is to start.
    pub fn attribute(&mut self, name: &[u8], value: &[u8]) -> Result<(), AllocError>
        ensures { OnOk result (self.new ≡ with_lines self.old (attribute_line name.now value.now)) }
    {
        self.end()?;
        push_attribute_told(name, value, &mut self.out)?;
        Ok(())
    }

    /// The attributes among the kids of the element that is to start.
    pub fn attributes(&mut self, kids: &[Node]) -> Result<(), AllocError>
        ensures { OnOk result (self.new ≡ with_lines self.old (attribute_lines (plains_of kids.now))) }
    {
        self.end()?;
        push_attributes(kids, &mut self.out)
    }

    /// A text, or more of the one that goes on.
    pub fn text(&mut self, value: &[u8]) -> Result<(), AllocError>
        ensures { OnOk result (self.new ≡ with_text self.old value.now) }
    {
        if value.is_empty() {
            return Ok(());
        }
        self.begin()?;
        push_escaped(value, &mut self.out)?;
        Ok(())
    }

    /// A node with all that is below it.
    pub fn node(&mut self, node: &Node) -> Result<(), AllocError>
        ensures { OnOk result (self.new ≡ with_node self.old (plain_of node.now)) }
    {
        match node {
            Node::Elem { .. } => {
                self.end()?;
                push_node(node, &mut self.out)
            }
            Node::Attr { .. } => self.end(),
            Node::Text { value } => self.text(value.as_slice()),
        }
    }

    /// Nodes, one after the other.
    pub fn nodes(&mut self, nodes: &[Node]) -> Result<(), AllocError>
        ensures { OnOk result (self.new ≡ with_nodes self.old (plains_of nodes.now)) }
    {
        'nodes: for node in nodes {
            self.node(node)?;
        }
        Ok(())
    }

    /// The node of a document with that number, from 1 in document order, and all that is below it: its lines
    /// are copied as they stand.
    pub fn document_node(&mut self, tree: &Tree, number: u32) -> Result<(), AllocError>
        requires some { 1 ≤ number }
        requires within { number ≤ count (plain_of tree.now) }
        ensures { OnOk result (self.new ≡ with_node self.old (node_at (plain_of tree.now) number)) }
    {
        let lines = tree.printed(number);
        match tree.kind(number) {
            Kind::Element => self.copy(lines, false, false)?,
            Kind::Attribute => self.end()?,
            Kind::Text => self.copy(lines, true, true)?,
        }
        Ok(())
    }

    /// The attributes of a document's element.
    pub fn document_attributes(&mut self, tree: &Tree, number: u32) -> Result<(), AllocError>
        requires some { 1 ≤ number }
        requires within { number ≤ count (plain_of tree.now) }
        ensures { OnOk result (self.new ≡ with_lines self.old (attribute_lines (kids_of (node_at (plain_of tree.now) number)))) }
    {
        self.end()?;
        self.out.extend_from_slice(tree.attribute_lines(number))
    }

    /// The kids of a document's element but for its attributes, and all that is below them.
    pub fn document_content(&mut self, tree: &Tree, number: u32) -> Result<(), AllocError>
        requires some { 1 ≤ number }
        requires within { number ≤ count (plain_of tree.now) }
        ensures { OnOk result (self.new ≡ with_nodes self.old (content_of (kids_of (node_at (plain_of tree.now) number)))) }
    {
        let lines = tree.content_lines(number);
        if lines.is_empty() {
            return Ok(());
        }
        self.copy(
            lines,
            tree.begins_with_text(number),
            tree.ends_with_text(number),
        )?;
        Ok(())
    }

    /// Lines as they print, of which the first or the last may be a text's.
    fn copy(&mut self, lines: &[u8], begins: bool, ends: bool) -> Result<(), AllocError>
        ensures { OnOk result (self.new ≡ going_on (joined self.old begins lines.now) ends) }
    {
        self.join(lines, begins)?;
        if ends {
            self.out.pop();
            self.is_going = true;
        }
        Ok(())
    }

    fn join(&mut self, lines: &[u8], begins: bool) -> Result<(), AllocError>
        ensures { OnOk result (self.new ≡ joined self.old begins lines.now) }
    {
        if !begins {
            self.end()?;
            return self.out.extend_from_slice(lines);
        }
        self.begin()?;
        self.out.extend_from_slice(&lines[lines.len().min(1)..])?;
        self.is_going = false;
        Ok(())
    }

    /// All lines, the last one ended.
    pub fn into_vec(self) -> Result<Vec<u8>, AllocError>
        ensures { IfOk result (λ out. out.items ≡ whole_lines self) }
    {
        let Writer { mut out, is_going } = self;
        if is_going {
            out.push(b'\n')?;
        }
        Ok(out)
    }
}
