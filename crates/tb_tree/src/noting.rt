//! Extents as they become known.

ghost use Rattle.std.specs.Prelude.{◌≡◌, ◌<◌, ◌≤◌, ◌^◌, ◌+◌, ◌==◌, ℕ, max, ◌++◌, ◌||◌, set, length, vec_len, slice_index_or, if◌then◌else◌, IfOk, OnOk};
ghost use Rattle.tb_tree.specs.declared.extent.Extent as code;
ghost use Rattle.tb_tree.specs.Drafts.{begun_extent, ended_extent, longer_extent, place_if};

use crate::{Extent, Kind};
use std::alloc::AllocError;

/// Keeps a place for an element of that level, whose lines begin there, unless one is kept. Gives where it
/// stands.
pub fn keep_place(
    is_kept: bool,
    kept: u32,
    at: u32,
    level: u16,
    extents: &mut Vec<Extent>,
) -> Result<u32, AllocError>
    requires { vec_len extents.old < 2 ^ 32 }
    ensures place { IfOk result (λ place. place ≡ (if is_kept then kept else length extents.old.items)) }
    ensures extents { OnOk result (extents.new.items ≡ extents.old.items ++ place_if is_kept at level) }
{
    if is_kept {
        return Ok(kept);
    }
    let place = extents.len() as u32;
    extents.push(Extent {
        from: at,
        to: 0,
        last: 0,
        name: 0,
        level,
        kind: Kind::Text,
        escaped: false,
    })?;
    Ok(place)
}

/// The element at the place has this name's number.
pub fn begin_at(place: u32, name: u32, extents: &mut Vec<Extent>)
    ensures { (e : code.Extent) → extents.new.items
        ≡ set extents.old.items place (begun_extent (slice_index_or extents.old.items place e) name) }
{
    if let Some(extent) = extents.get_mut(place as usize) {
        extent.name = name;
        extent.kind = Kind::Element;
    }
}

/// The element at the place ends there, and so do its kids.
pub fn end_at(place: u32, to: u32, last: u32, extents: &mut Vec<Extent>)
    ensures { (e : code.Extent) → extents.new.items
        ≡ set extents.old.items place (ended_extent (slice_index_or extents.old.items place e) to last) }
{
    if let Some(extent) = extents.get_mut(place as usize) {
        extent.to = to;
        extent.last = last;
    }
}

/// The text at the place ends there, and has an escape where it had one or more of it has.
pub fn lengthen_at(place: usize, to: u32, escaped: bool, extents: &mut Vec<Extent>)
    ensures { (e : code.Extent) → extents.new.items
        ≡ set extents.old.items place (longer_extent (slice_index_or extents.old.items place e) to escaped) }
{
    if let Some(extent) = extents.get_mut(place) {
        let before = extent.escaped;
        extent.to = to;
        extent.escaped = is_either(before, escaped);
    }
}

/// The name of that number waits for that element.
pub fn note_waiting(number: u32, element: u32, waited: &mut Vec<u32>) -> Result<(), AllocError>
    ensures noted { OnOk result ((n : ℕ) → slice_index_or waited.new.items n 0
        ≡ (if n == number then element else slice_index_or waited.old.items n 0)) }
    ensures few { OnOk result (length waited.new.items ≤ max (length waited.old.items) (number + 1)) }
{
    let place = number as usize;
    if waited.len() <= place {
        waited.resize(place + 1, 0)?;
    }
    set_at(place, element, waited);
    Ok(())
}

fn set_at(place: usize, element: u32, waited: &mut Vec<u32>)
    requires within { place < vec_len waited.old }
    ensures { waited.new.items ≡ set waited.old.items place element }
{
    waited[place] = element;
}

/// The element that the name of that number last waited for, or 0.
pub fn waited_of(number: u32, waited: &[u32]) -> u32
    ensures { result ≡ slice_index_or waited.now number 0 }
{
    match waited.get(number as usize) {
        Some(element) => *element,
        None => 0,
    }
}

fn is_either(first: bool, second: bool) -> bool
    ensures { result ≡ (first || second) }
{
    first || second
}
