//! What nodes of a document are told from: its text, their extents, and names by number.

ghost use Rattle.std.specs.Prelude.{◌≡◌, ◌<◌, ◌+◌, ◌-◌, ◌^◌, [], take, drop, slice_index_or};
ghost use Rattle.std.specs.Option.{option_map};
ghost use Rattle.tb_tree.specs.FlatTrees.{no_extent, raw_behind};
ghost use Rattle.tb_tree.specs.Parts.{is_text_kind, is_attribute_kind, is_text_at, attributes_end, begins_with_data, NextText};

use crate::{Bytes, Extent, Kind};

/// The text and the names of a document, and the extents of some of its nodes.
#[derive(Clone, Copy)]
pub struct Source<'a> {
    pub text: &'a [u8],
    pub extents: &'a [Extent],
    pub elements: &'a [Bytes],
    pub attributes: &'a [Bytes],
}

/// The extent of that turn, from 1, or one that is empty.
pub fn extent_at(extents: &[Extent], number: u32) -> Extent
    ensures { result ≡ slice_index_or extents.now (number - 1) no_extent }
{
    match extents.get((number as usize).saturating_sub(1)) {
        Some(extent) => *extent,
        None => Extent {
            from: 0,
            to: 0,
            last: 0,
            name: 0,
            level: 0,
            kind: Kind::Text,
            escaped: false,
        },
    }
}

/// The extents from that of the node with the number, from 1, to that of its last descendant.
pub fn own_extents(extents: &[Extent], number: u32) -> &[Extent]
    ensures { result.now ≡ take ((slice_index_or extents.now (number - 1) no_extent).last + 1 - number) (drop (number - 1) extents.now) }
{
    let from_own = suffix(extents, (number as usize).saturating_sub(1));
    let past = last_of(&extent_at(extents, number)) + 1;
    prefix(from_own, past.saturating_sub(number as usize))
}

/// The number of the last node below the extent's, or its own where none is.
pub fn last_of(extent: &Extent) -> usize
    ensures is { result ≡ extent.now.last }
    ensures fits { result < 2 ^ 32 }
{
    extent.last as usize
}

/// The first extents, so many at most.
pub fn prefix(extents: &[Extent], count: usize) -> &[Extent]
    ensures { result.now ≡ take count extents.now }
{
    &extents[..count.min(extents.len())]
}

/// The extents behind the first ones.
pub fn suffix(extents: &[Extent], count: usize) -> &[Extent]
    ensures { result.now ≡ drop count extents.now }
{
    &extents[count.min(extents.len())..]
}

/// The first extent of a text, and the extents behind it.
pub fn next_text(extents: &[Extent]) -> Option<(Extent, &[Extent])>
    ensures { NextText extents.now (option_map (λ found. (found.0, found.1.now)) result) }
{
    'extents: for (at, extent) in extents.iter().enumerate() {
        if is_text_kind(extent.kind) {
            return Some((*extent, &extents[at + 1..]));
        }
    }
    None
}

fn is_text_kind(kind: Kind) -> bool
    ensures { result ≡ is_text_kind kind }
{
    match kind {
        Kind::Element => false,
        Kind::Attribute => false,
        Kind::Text => true,
    }
}

/// Where the lines of the attributes end that stand first, the first of which begins there.
pub fn attributes_end(at: u32, extents: &[Extent]) -> u32
    ensures { result ≡ attributes_end at extents.now }
{
    let mut end = at;
    'attributes: for extent in extents {
        if !is_attribute_kind(extent.kind) {
            return end;
        }
        end = extent.to;
    }
    end
}

fn is_attribute_kind(kind: Kind) -> bool
    ensures { result ≡ is_attribute_kind kind }
{
    match kind {
        Kind::Element => false,
        Kind::Attribute => true,
        Kind::Text => false,
    }
}

/// Whether the extent is that of a text of the level.
pub fn is_text_at(level: u32, extent: &Extent) -> bool
    ensures { result ≡ is_text_at level extent.now }
{
    is_text_kind(extent.kind) && u32::from(extent.level) == level
}

/// Whether the lines begin with that of a text.
pub fn begins_with_data(lines: &[u8]) -> bool
    ensures { result ≡ begins_with_data lines.now }
{
    match lines {
        [first, ..] => *first == b'-',
        [] => false,
    }
}

/// The name of that number, or no byte.
pub fn name_at(names: &[Bytes], number: u32) -> &[u8]
    ensures { result.now ≡ slice_index_or names.now number [] }
{
    match names.get(number as usize) {
        Some(name) => name.as_slice(),
        None => &[],
    }
}

/// What stands in the extent's line behind its first bytes and before its end.
pub fn raw_behind<'a>(text: &'a [u8], before: usize, extent: &Extent) -> &'a [u8]
    requires { before < 2 ^ 63 + 8 }
    ensures { result.now ≡ raw_behind text.now before extent.now.from extent.now.to }
{
    let from = extent.from as usize;
    let len = (extent.to as usize).saturating_sub(from);
    within(text, from + before, len.saturating_sub(before + 1))
}

/// The bytes from there on, so many at most.
pub fn within(bytes: &[u8], from: usize, len: usize) -> &[u8]
    ensures { result.now ≡ take len (drop from bytes.now) }
{
    let behind = &bytes[from.min(bytes.len())..];
    &behind[..len.min(behind.len())]
}
