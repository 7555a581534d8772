//! Values of a document's nodes, by number: lent where they lie in one piece of its lines.

ghost use Rattle.std.specs.Prelude.{◌≡◌, ◌≤◌, ◌++◌, ℕ, false, List, [], map, IfOk, OnOk};
ghost use Rattle.std.specs.List.{concat};
ghost use Rattle.std.specs.Option.{option_map};
ghost use Rattle.tb_tree.specs.View.{plain_of};
ghost use Rattle.tb_tree.specs.Printed.{escaped};
ghost use Rattle.tb_tree.specs.Numbers.{count};
ghost use Rattle.tb_tree.specs.Nodes.{node_at};
ghost use Rattle.tb_tree.specs.Value.{value_of};
ghost use Rattle.tb_tree.specs.Pieces.{only_of, piece_of, lent_of};
ghost use Rattle.tb_tree.specs.Parts.{told_piece, told_texts};

use crate::source::{extent_at, name_at, next_text, raw_behind};
use crate::{Bytes, Extent, Kind, Tree, push_unescaped};
use std::alloc::{AllocError, Global};

impl Tree {
    /// The value as it prints, where it lies in one piece: of an element that has at most one text below it.
    pub fn raw_value(&self, number: u32) -> Option<&[u8]>
        requires some { 1 ≤ number }
        requires within { number ≤ count (plain_of self.now) }
        ensures { option_map (λ raw. raw.now) result ≡ option_map escaped (piece_of (node_at (plain_of self.now) number)) }
    {
        match self.piece(number) {
            Some((raw, _escaped)) => Some(raw),
            None => None,
        }
    }

    /// The value, where it lies in one piece of which no byte is escaped.
    pub fn lent_value(&self, number: u32) -> Option<&[u8]>
        requires some { 1 ≤ number }
        requires within { number ≤ count (plain_of self.now) }
        ensures { option_map (λ value. value.now) result ≡ lent_of (node_at (plain_of self.now) number) }
    {
        match self.piece(number) {
            Some((raw, false)) => Some(raw),
            Some((_raw, true)) => None,
            None => None,
        }
    }

    /// The value: an attribute's or a text's own, and of an element all texts below it.
    pub fn value(&self, alloc: Global, number: u32) -> Result<Bytes, AllocError>
        requires some { 1 ≤ number }
        requires within { number ≤ count (plain_of self.now) }
        ensures { IfOk result (λ value. value ≡ value_of (node_at (plain_of self.now) number)) }
    {
        let mut value = Vec::new(alloc);
        if let Some(raw) = self.raw_value(number) {
            push_unescaped(raw, &mut value)?;
            return Ok(Bytes::from_vec(value));
        }
        let part = self.part(number);
        push_texts(part.text, part.extents, &mut value)?;
        Ok(Bytes::from_vec(value))
    }

    /// The value as it prints and whether a byte of it is escaped, where it lies in one piece.
    fn piece(&self, number: u32) -> Option<(&[u8], bool)>
        requires some { 1 ≤ number }
        requires within { number ≤ count (plain_of self.now) }
        ensures { option_map (λ piece. (piece.0.now, piece.1)) result
            ≡ option_map told_piece (piece_of (node_at (plain_of self.now) number)) }
    {
        let part = self.part(number);
        let first = extent_at(part.extents, 1);
        match first.kind {
            Kind::Attribute => {
                let before = 8 + name_at(part.attributes, first.name).len();
                Some((raw_behind(part.text, before, &first), first.escaped))
            }
            _ => only_text(part.text, part.extents),
        }
    }
}

/// The only text of these extents as it prints, and whether a byte of it is escaped; no byte where there is none.
fn only_text<'a>(text: &'a [u8], extents: &[Extent]) -> Option<(&'a [u8], bool)>
    ensures { option_map (λ piece. (piece.0.now, piece.1)) result ≡ only_of ([], false) (told_texts text.now extents.now) }
{
    let Some((first, behind)) = next_text(extents) else {
        return Some((&[], false));
    };
    let Some(_second) = next_text(behind) else {
        return Some((raw_behind(text, 1, &first), first.escaped));
    };
    None
}

/// Appends what the texts of these extents give; no escape in a document's lines is wrong.
fn push_texts(text: &[u8], extents: &[Extent], value: &mut Vec<u8>) -> Result<(), AllocError>
    ensures { OnOk result ((texts : List (List ℕ)) → told_texts text.now extents.now ≡ map told_piece texts
        → value.new.items ≡ value.old.items ++ concat texts) }
{
    let mut rest = extents;
    'texts: while let Some((extent, behind)) = next_text(rest) {
        push_unescaped(raw_behind(text, 1, &extent), value)?;
        rest = behind;
    }
    Ok(())
}
