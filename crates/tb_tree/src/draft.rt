//! A document that is being made: its lines are appended, and each node's extent is noted.

ghost use Rattle.std.specs.Prelude.{◌≡◌, ◌==◌, ◌∷◌, ◌++◌, ◌<◌, ◌≤◌, ◌+◌, true, false, not, [], None, length, IsTrue, OnOk, IfOk, IfSome};
ghost use Rattle.std.specs.Option.{option_map};
ghost use Rattle.std.specs.List.{list_any};
ghost use Rattle.std.specs.Str.{bytes_eq};
ghost use Rattle.tb_tree.specs.Making.{Made, nothing_made, names_of, NextEnd, is_innermost, innermost_name, has_begun, with_attribute, with_element, with_more_text, with_text_ended, with_element_ended};
ghost use Rattle.tb_tree.specs.Sound.{is_empty_list};
ghost use Rattle.tb_tree.specs.Drafts.{is_none, Shows, HasRoom, IsInside, IsDone, size_of, depth_of};
ghost use Rattle.tb_tree.specs.Printed.{attribute_line, start_line, end_line, escaped};
ghost use Rattle.tb_tree.specs.Plain.{Plain};
ghost use Rattle.tb_tree.specs.View.{plain_of};

use crate::line::behind_line;
use crate::names::Names;
use crate::noting::{begin_at, end_at, keep_place, lengthen_at, note_waiting, waited_of};
use crate::printer::{lengthen_data, push_attribute_told, push_data_told, push_named};
use crate::{Extent, Kind, Tree};
use std::alloc::{AllocError, Global};

/// What has been made of a document so far.
#[derive(Drop)]
pub struct Draft {
    alloc: Global,
    /// The lines of what has begun, and of the attributes that wait.
    text: Vec<u8>,
    extents: Vec<Extent>,
    /// Where the extents of the open elements stand, the innermost last.
    stack: Vec<u32>,
    elements: Names,
    attributes: Names,
    /// The last line is of a text that goes on.
    is_going: bool,
    /// Attributes wait for their element, whose extent is kept at `kept`.
    is_waiting: bool,
    kept: u32,
    has_begun: bool,
    /// For each name of attributes, by its number, the number of the element that it last waited for; 0 where
    /// it waited for none.
    waited: Vec<u32>,
}

impl Draft {
    /// No node yet, with room for so many bytes of lines, and for the nodes that they commonly have.
    pub fn with_capacity(alloc: Global, bytes: usize) -> Result<Draft, AllocError>
        ensures { IfOk result (λ draft. Shows draft nothing_made) }
    {
        Ok(Draft {
            alloc,
            text: Vec::with_capacity(alloc, bytes)?,
            extents: Vec::with_capacity(alloc, bytes / 16)?,
            stack: Vec::new(alloc),
            elements: Names::new(alloc)?,
            attributes: Names::new(alloc)?,
            is_going: false,
            is_waiting: false,
            kept: 0,
            has_begun: false,
            waited: Vec::new(alloc),
        })
    }

    /// Whether attributes wait for their element.
    pub fn is_waiting(&self) -> bool
        ensures { (m : Made) → Shows self.now m → result ≡ not (is_none m.waiting) }
    {
        self.is_waiting
    }

    /// Whether an attribute of the name waits.
    pub fn is_waiting_for(&self, name: &[u8]) -> bool
        ensures { (m : Made) → Shows self.now m → result ≡ list_any (bytes_eq name.now) (names_of m.waiting) }
    {
        if !self.is_waiting {
            return false;
        }
        match self.attributes.known(name) {
            Some(number) => is_next(self.kept, waited_of(number, self.waited.as_slice())),
            None => false,
        }
    }

    /// How many elements are open.
    pub fn depth(&self) -> usize
        ensures { (m : Made) → Shows self.now m → result ≡ length m.frames }
    {
        self.stack.len()
    }

    /// Whether an element has begun.
    pub fn has_begun(&self) -> bool
        ensures { (m : Made) → Shows self.now m → result ≡ has_begun m.frames m.root }
    {
        self.has_begun
    }

    /// One attribute more waits for its element.
    pub fn attribute(&mut self, name: &[u8], value: &[u8]) -> Result<(), AllocError>
        requires room { HasRoom self.old (length (attribute_line name.now value.now)) }
        ensures shown { OnOk result ((m : Made) → Shows self.old m
            → Shows self.new (with_attribute m name.now value.now)) }
        ensures grown { OnOk result (size_of self.new ≡ size_of self.old + length (attribute_line name.now value.now)) }
    {
        let number = self.attributes.number(self.alloc, name)?;
        let at = self.text.len() as u32;
        let level = self.stack.len() as u16 + 1;
        self.kept = keep_place(self.is_waiting, self.kept, at, level, &mut self.extents)?;
        self.is_waiting = true;
        note_waiting(number, self.kept.saturating_add(1), &mut self.waited)?;
        let escaped = push_attribute_told(name, value, &mut self.text)?;
        let extent = Extent {
            from: at,
            to: self.text.len() as u32,
            last: self.extents.len() as u32 + 1,
            name: number,
            level: level + 1,
            kind: Kind::Attribute,
            escaped,
        };
        self.extents.push(extent)?;
        Ok(())
    }

    /// An element begins, with the attributes that waited.
    pub fn start(&mut self, name: &[u8]) -> Result<(), AllocError>
        requires room { HasRoom self.old (length (start_line name.now)) }
        ensures shown { OnOk result ((m : Made) → m.root ≡ None → Shows self.old m
            → Shows self.new (with_element m name.now)) }
        ensures grown { OnOk result (size_of self.new ≡ size_of self.old + length (start_line name.now)) }
    {
        let number = self.elements.number(self.alloc, name)?;
        let at = self.text.len() as u32;
        let level = self.stack.len() as u16 + 1;
        let place = keep_place(self.is_waiting, self.kept, at, level, &mut self.extents)?;
        begin_at(place, number, &mut self.extents);
        push_named(b'(', name, &mut self.text)?;
        self.stack.push(place)?;
        self.is_going = false;
        self.is_waiting = false;
        self.has_begun = true;
        Ok(())
    }

    /// The text goes on, or begins.
    pub fn more_text(&mut self, value: &[u8]) -> Result<(), AllocError>
        requires room { HasRoom self.old (2 + length (escaped value.now)) }
        ensures shown { OnOk result ((m : Made) → m.waiting ≡ [] → IsInside m.frames value.now
            → Shows self.old m → Shows self.new (with_more_text m value.now)) }
        ensures grown { OnOk result (size_of self.new ≤ size_of self.old + (2 + length (escaped value.now))) }
    {
        if value.is_empty() {
            return Ok(());
        }
        if self.is_going {
            return self.lengthen(value);
        }
        self.begin_text(value)
    }

    fn lengthen(&mut self, value: &[u8]) -> Result<(), AllocError>
        requires room { HasRoom self.old (2 + length (escaped value.now)) }
        requires some { is_empty_list value.now ≡ false }
        ensures shown { OnOk result ((m : Made) → m.waiting ≡ [] → IsInside m.frames value.now → self.old.is_going ≡ true
            → Shows self.old m → Shows self.new (with_more_text m value.now)) }
        ensures grown { OnOk result (size_of self.new ≤ size_of self.old + (2 + length (escaped value.now))) }
    {
        let escaped = lengthen_data(value, &mut self.text)?;
        let last = self.extents.len().saturating_sub(1);
        lengthen_at(last, self.text.len() as u32, escaped, &mut self.extents);
        Ok(())
    }

    fn begin_text(&mut self, value: &[u8]) -> Result<(), AllocError>
        requires room { HasRoom self.old (2 + length (escaped value.now)) }
        requires some { is_empty_list value.now ≡ false }
        ensures shown { OnOk result ((m : Made) → m.waiting ≡ [] → IsInside m.frames value.now → self.old.is_going ≡ false
            → Shows self.old m → Shows self.new (with_more_text m value.now)) }
        ensures grown { OnOk result (size_of self.new ≤ size_of self.old + (2 + length (escaped value.now))) }
    {
        let from = self.text.len() as u32;
        let escaped = push_data_told(value, &mut self.text)?;
        let extent = Extent {
            from,
            to: self.text.len() as u32,
            last: self.extents.len() as u32 + 1,
            name: 0,
            level: self.stack.len() as u16 + 1,
            kind: Kind::Text,
            escaped,
        };
        self.extents.push(extent)?;
        self.is_going = true;
        Ok(())
    }

    /// Whether the innermost element has the name.
    pub fn is_innermost(&self, name: &[u8]) -> bool
        ensures innermost { (m : Made) → Shows self.now m → result ≡ is_innermost name.now m.frames }
        ensures open { IsTrue result → 0 < depth_of self.now }
    {
        match self.innermost() {
            Some(open) => open == name,
            None => false,
        }
    }

    /// The name of the innermost element.
    fn innermost(&self) -> Option<&[u8]>
        ensures name { (m : Made) → Shows self.now m → option_map (λ name. name.now) result ≡ innermost_name m.frames }
        ensures open { IfSome result (λ name. 0 < depth_of self.now) }
    {
        let place = *self.stack.last()?;
        let extent = self.extents.get(place as usize)?;
        self.elements.find(extent.name)
    }

    /// The name of the innermost element and the bytes behind its end tag, or none where the bytes begin otherwise.
    pub fn next_end<'b>(&self, bytes: &'b [u8]) -> Option<(&'b [u8], &'b [u8])>
        ensures end { (m : Made) → Shows self.now m
            → NextEnd m.frames bytes.now (option_map (λ found. (found.0.now, found.1.now)) result) }
        ensures line { IfSome result (λ found. bytes.now ≡ 41 ∷ (found.0.now ++ 10 ∷ found.1.now)) }
        ensures open { IfSome result (λ found. 0 < depth_of self.now) }
    {
        let [lead, rest @ ..] = bytes else {
            return None;
        };
        if *lead != b')' {
            return None;
        }
        let name = self.innermost()?;
        let behind = behind_line(rest, name)?;
        Some((&rest[..name.len()], behind))
    }

    /// The innermost element ends, which has the name.
    pub fn end(&mut self, name: &[u8]) -> Result<(), AllocError>
        requires open { 0 < depth_of self.old }
        requires room { HasRoom self.old (length (end_line name.now)) }
        ensures shown { OnOk result ((m : Made) → m.waiting ≡ [] → is_innermost name.now m.frames ≡ true
            → Shows self.old m → Shows self.new (with_element_ended (with_text_ended m))) }
        ensures grown { OnOk result (size_of self.new ≡ size_of self.old + length (end_line name.now)) }
    {
        let Some(place) = self.stack.pop() else {
            unreachable!();
        };
        push_named(b')', name, &mut self.text)?;
        let last = self.extents.len() as u32;
        end_at(place, self.text.len() as u32, last, &mut self.extents);
        self.is_going = false;
        Ok(())
    }

    /// The document, where its root has ended.
    pub fn finish(self) -> Tree
        requires done { (m : Made) × (root : Plain) × Shows self m × IsDone m root }
        ensures { (m : Made) → (root : Plain) → Shows self m → IsDone m root → plain_of result ≡ root }
    {
        let Draft {
            mut text,
            mut extents,
            elements,
            attributes,
            ..
        } = self;
        text.shrink_to_fit();
        extents.shrink_to_fit();
        Tree::new(
            text,
            extents,
            elements.into_table(),
            attributes.into_table(),
        )
    }
}

/// The number is the one behind the place's.
fn is_next(place: u32, number: u32) -> bool
    ensures { result ≡ (number == place + 1) }
{
    u64::from(number) == u64::from(place) + 1
}
