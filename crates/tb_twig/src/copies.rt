//! Copies of witnesses.

ghost use Rattle.std.specs.Prelude.{◌≡◌, IfOk};

use std::alloc::{AllocError, Global};
use tb_pattern::{Offer, Witness};
use tb_tree::Items;

/// An equal row: one offer an edge.
pub fn copy_row(alloc: Global, row: &[Offer]) -> Result<Items<Offer>, AllocError>
    ensures { IfOk result (λ copy. copy ≡ row.now) }
{
    let mut offers = Vec::with_capacity(alloc, row.len())?;
    'offers: for offer in row {
        let mut witnesses = Vec::with_capacity(alloc, offer.as_slice().len())?;
        'witnesses: for w in offer.as_slice() {
            let below = copy_row(alloc, w.offers.as_slice())?;
            witnesses.push(Witness {
                node: w.node,
                offers: below,
            })?;
        }
        offers.push(Items::from_vec(witnesses))?;
    }
    Ok(Items::from_vec(offers))
}

/// An equal offer.
pub fn copy_offer(alloc: Global, offer: &[Witness]) -> Result<Offer, AllocError>
    ensures { IfOk result (λ copy. copy ≡ offer.now) }
{
    let mut witnesses = Vec::with_capacity(alloc, offer.len())?;
    'witnesses: for w in offer {
        let below = copy_row(alloc, w.offers.as_slice())?;
        witnesses.push(Witness {
            node: w.node,
            offers: below,
        })?;
    }
    Ok(Items::from_vec(witnesses))
}
