//! The reach of an ancestor: the part of a range of descendants that is below it.

ghost use Rattle.std.specs.Prelude.{◌≡◌, ◌++◌, ◌<◌, [], length, flat_map, OnOk};
ghost use Rattle.tb_stackjoin.specs.Reaches.{reach_at, reaches_ended, pairs_in};

use std::alloc::AllocError;
use tb_span::Pair;

/// An ancestor by its place in `a`, and its descendants: from place `first` of `d` up to `last`.
#[derive(Clone, Copy)]
pub struct Reach {
    pub a: u32,
    pub first: u32,
    pub last: u32,
}

pub fn ancestor_of(reaches: &[Reach], number: u32) -> u32
    requires { number < length reaches.now }
    ensures { result ≡ (reach_at reaches.now number).a }
{
    reaches[number as usize].a
}

/// Ends a reach before a place. The newest one is let go where it has no descendant, so lists with many ancestors
/// that have none take no room for them.
pub fn end_reach(reaches: &mut Vec<Reach>, number: u32, place: u32)
    requires { number < length reaches.old.items }
    ensures { reaches.new.items ≡ reaches_ended place number reaches.old.items }
{
    if reaches[number as usize].first == place && number as usize + 1 == reaches.len() {
        reaches.truncate(number as usize);
        return;
    }
    reaches[number as usize].last = place;
}

fn pair_reach(reach: &Reach, pairs: &mut Vec<Pair>) -> Result<(), AllocError>
    ensures { OnOk result (pairs.new.items ≡ pairs.old.items ++ pairs_in reach.now) }
{
    'places: for place in reach.first..reach.last {
        pairs.push(Pair {
            a: reach.a,
            d: place,
        })?;
    }
    Ok(())
}

fn pair_reaches(reaches: &[Reach], pairs: &mut Vec<Pair>) -> Result<(), AllocError>
    ensures { OnOk result (pairs.new.items ≡ pairs.old.items ++ flat_map pairs_in reaches.now) }
{
    'reaches: for reach in reaches {
        pair_reach(reach, pairs)?;
    }
    Ok(())
}

/// How many pairs the reaches have, for the room that is taken.
fn count_pairs(reaches: &[Reach]) -> usize {
    let mut count = 0usize;
    'reaches: for reach in reaches {
        count = count.saturating_add(reach.last.saturating_sub(reach.first) as usize);
    }
    count
}

/// Writes the pairs of all reaches into room for all of them, and lets the reaches go.
pub fn write_reaches(reaches: &mut Vec<Reach>, pairs: &mut Vec<Pair>) -> Result<(), AllocError>
    ensures pairs { OnOk result
        (pairs.new.items ≡ pairs.old.items ++ flat_map pairs_in reaches.old.items) }
    ensures none { OnOk result (reaches.new.items ≡ []) }
{
    pairs.reserve(count_pairs(reaches))?;
    pair_reaches(reaches, pairs)?;
    reaches.clear();
    Ok(())
}
