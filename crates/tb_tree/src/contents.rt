//! The lines of what stands in an element, by its number.

ghost use Rattle.std.specs.Prelude.{◌≡◌, ◌≤◌, length};
ghost use Rattle.tb_tree.specs.View.{plain_of};
ghost use Rattle.tb_tree.specs.Plain.{kids_of};
ghost use Rattle.tb_tree.specs.Sound.{begins_with_text, IsSound};
ghost use Rattle.tb_tree.specs.Printed.{attribute_lines, content_lines};
ghost use Rattle.tb_tree.specs.Numbers.{count};
ghost use Rattle.tb_tree.specs.Nodes.{node_at};
ghost use Rattle.tb_tree.specs.Pieces.{content_of, ends_with_text};

use crate::source::{attributes_end, begins_with_data, extent_at, is_text_at, suffix, within};
use crate::{Kind, Tree};

impl Tree {
    /// The lines of the attributes of an element.
    pub fn attribute_lines(&self, number: u32) -> &[u8]
        requires some { 1 ≤ number }
        requires within { number ≤ count (plain_of self.now) }
        ensures { result.now ≡ attribute_lines (kids_of (node_at (plain_of self.now) number)) }
    {
        within(self.printed(number), 0, self.attributes_len(number))
    }

    /// The lines of an element between its start and its end.
    pub fn content_lines(&self, number: u32) -> &[u8]
        requires some { 1 ≤ number }
        requires within { number ≤ count (plain_of self.now) }
        ensures lines { result.now ≡ content_lines (kids_of (node_at (plain_of self.now) number)) }
        ensures sound { IsSound (node_at (plain_of self.now) number) }
    {
        let lines = self.printed(number);
        let Kind::Element = self.kind(number) else {
            return &[];
        };
        let line = self.name(number).len() + 2;
        let start = self.attributes_len(number);
        let len = lines.len().saturating_sub(start).saturating_sub(line);
        within(lines, start + line, len.saturating_sub(line))
    }

    /// Whether the first kid of the node that is no attribute is a text.
    pub fn begins_with_text(&self, number: u32) -> bool
        requires some { 1 ≤ number }
        requires within { number ≤ count (plain_of self.now) }
        ensures { result ≡ begins_with_text (content_of (kids_of (node_at (plain_of self.now) number))) }
    {
        begins_with_data(self.content_lines(number))
    }

    /// Whether the last kid of the node that is no attribute is a text.
    pub fn ends_with_text(&self, number: u32) -> bool
        requires some { 1 ≤ number }
        requires within { number ≤ count (plain_of self.now) }
        ensures { result ≡ ends_with_text (content_of (kids_of (node_at (plain_of self.now) number))) }
    {
        let part = self.part(number);
        let first = extent_at(part.extents, 1);
        let last = extent_at(part.extents, first.last.saturating_sub(number) + 1);
        is_text_at(u32::from(first.level) + 1, &last)
    }

    /// How many bytes the lines of its attributes have.
    fn attributes_len(&self, number: u32) -> usize
        requires some { 1 ≤ number }
        requires within { number ≤ count (plain_of self.now) }
        ensures { result ≡ length (attribute_lines (kids_of (node_at (plain_of self.now) number))) }
    {
        let part = self.part(number);
        let from = extent_at(part.extents, 1).from;
        let end = attributes_end(from, suffix(part.extents, 1));
        (end as usize).saturating_sub(from as usize)
    }
}
