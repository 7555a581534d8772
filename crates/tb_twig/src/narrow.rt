//! What the join of an edge leaves of its two lists.

ghost use Rattle.std.specs.Prelude.{◌≡◌, List, length, map, IfOk};
ghost use Rattle.tb_span.specs.declared.item.Item.{Item};
ghost use Rattle.tb_twig.specs.Narrowed.{asks, lower_left, upper_left};
ghost use Rattle.tb_twig.specs.Hits.{link_at, IsNumbered, AreWithin, left_of};

use crate::Link;
use crate::hits::{chosen, hits_above, hits_below, links_at};
use std::alloc::{AllocError, Global};
use tb_pattern::Mark;
use tb_span::{Item, Pair};

/// The links of an edge, and its lists without the nodes that the join showed to be in vain.
#[derive(Drop)]
pub struct Narrowed {
    pub links: Vec<Link>,
    /// `None` where the list stays as it is.
    pub above: Option<Vec<Item>>,
    pub below: Vec<Item>,
}

/// The lower list keeps what has a pair; so does the upper one, where the mark asks for something.
pub fn narrow(
    alloc: Global,
    a: &[Item],
    d: &[Item],
    mark: Mark,
    pairs: &[Pair],
) -> Result<Narrowed, AllocError>
    requires numbered_above { IsNumbered a.now }
    requires numbered_below { IsNumbered d.now }
    requires above { AreWithin (λ p. p.a) (length a.now) pairs.now }
    requires below { AreWithin (λ p. p.d) (length d.now) pairs.now }
    ensures links { IfOk result (λ n. n.links.items ≡ map (link_at a.now d.now) pairs.now) }
    ensures above { IfOk result (λ n. left_of a.now n.above ≡ upper_left mark n.links.items a.now) }
    ensures below { IfOk result (λ n. n.below.items ≡ lower_left n.links.items d.now) }
{
    let links = links_at(alloc, a, d, pairs)?;
    let above = narrowed_above(alloc, a, mark, pairs)?;
    let hits = hits_below(alloc, d.len(), pairs)?;
    let below = chosen(alloc, d, hits.as_slice())?;
    Ok(Narrowed {
        links,
        above,
        below,
    })
}

fn narrowed_above(
    alloc: Global,
    a: &[Item],
    mark: Mark,
    pairs: &[Pair],
) -> Result<Option<Vec<Item>>, AllocError>
    requires numbered { IsNumbered a.now }
    requires above { AreWithin (λ p. p.a) (length a.now) pairs.now }
    ensures { IfOk result (λ above. (d : List Item)
        → left_of a.now above ≡ upper_left mark (map (link_at a.now d) pairs.now) a.now) }
{
    if !asks(mark) {
        return Ok(None);
    }
    let hits = hits_above(alloc, a.len(), pairs)?;
    let above = chosen(alloc, a, hits.as_slice())?;
    Ok(Some(above))
}

pub fn asks(mark: Mark) -> bool
    ensures { result ≡ asks mark }
{
    match mark {
        Mark::One | Mark::Some => true,
        Mark::Optional | Mark::Any => false,
    }
}
