//! Which places of two lists the pairs of a join have, and what they leave of the lists.

ghost use Rattle.std.specs.Prelude.{◌≡◌, ◌<◌, [], replicate, false, length, map, IfOk};
ghost use Rattle.tb_span.specs.Seeds.{item_at};
ghost use Rattle.tb_twig.specs.Hits.{link_at, AreWithin, AreHits, chosen};

use crate::Link;
use std::alloc::{AllocError, Global};
use tb_span::{Item, Pair};

/// The pairs by numbers of nodes.
pub fn links_at(
    alloc: Global,
    a: &[Item],
    d: &[Item],
    pairs: &[Pair],
) -> Result<Vec<Link>, AllocError>
    requires above { AreWithin (λ p. p.a) (length a.now) pairs.now }
    requires below { AreWithin (λ p. p.d) (length d.now) pairs.now }
    ensures { IfOk result (λ links. links.items ≡ map (link_at a.now d.now) pairs.now) }
{
    let mut links = Vec::with_capacity(alloc, pairs.len())?;
    'pairs: for pair in pairs {
        links.push(Link {
            above: item_at(a, pair.a as usize).node.index(),
            below: item_at(d, pair.d as usize).node.index(),
        })?;
    }
    Ok(links)
}

/// One flag for each of so many places of the upper list.
pub fn hits_above(alloc: Global, count: usize, pairs: &[Pair]) -> Result<Vec<bool>, AllocError>
    requires { AreWithin (λ p. p.a) count pairs.now }
    ensures { IfOk result (λ hits. AreHits (λ p. p.a) pairs.now hits.items count) }
{
    let mut hits = none_hit(alloc, count)?;
    'pairs: for pair in pairs {
        hits[pair.a as usize] = true;
    }
    Ok(hits)
}

/// One flag for each of so many places of the lower list.
pub fn hits_below(alloc: Global, count: usize, pairs: &[Pair]) -> Result<Vec<bool>, AllocError>
    requires { AreWithin (λ p. p.d) count pairs.now }
    ensures { IfOk result (λ hits. AreHits (λ p. p.d) pairs.now hits.items count) }
{
    let mut hits = none_hit(alloc, count)?;
    'pairs: for pair in pairs {
        hits[pair.d as usize] = true;
    }
    Ok(hits)
}

fn none_hit(alloc: Global, count: usize) -> Result<Vec<bool>, AllocError>
    ensures { IfOk result (λ hits. hits.items ≡ replicate count false) }
{
    let mut hits = Vec::new(alloc);
    hits.resize(count, false)?;
    Ok(hits)
}

/// The items at the places that are hit.
pub fn chosen(alloc: Global, items: &[Item], hits: &[bool]) -> Result<Vec<Item>, AllocError>
    requires { length hits.now ≡ length items.now }
    ensures { IfOk result (λ kept. kept.items ≡ chosen items.now hits.now) }
{
    let mut kept = Vec::new(alloc);
    'places: for place in 0..items.len() {
        if !hits[place] {
            continue;
        }
        kept.push(*item_at(items, place))?;
    }
    Ok(kept)
}

fn item_at(items: &[Item], place: usize) -> &Item
    requires { place < length items.now }
    ensures { result.now ≡ item_at items.now place }
{
    &items[place]
}
