//! What an edge offers, and rows with one offer more. What can be moved is moved: of each row and offer all
//! uses but the last take a copy.

ghost use Rattle.std.specs.Prelude.{◌≡◌, ◌∷◌, [], ◌++◌, map, IfOk, OnOk};
ghost use Rattle.tb_pattern.specs.declared.pattern.Mark.TheVariants.{Optional, Some};
ghost use Rattle.tb_twig.specs.Grown.{offers_by, with_each, grown};

use crate::copies::{copy_offer, copy_row};
use std::alloc::{AllocError, Global};
use tb_pattern::{Mark, Offer, Witness};
use tb_tree::Items;

/// What an edge of this mark offers, where these witnesses match below it.
pub fn offered(alloc: Global, mark: Mark, witnesses: Vec<Witness>) -> Result<Vec<Offer>, AllocError>
    ensures { IfOk result (λ offers. offers.items ≡ offers_by mark witnesses.items) }
{
    match mark {
        Mark::One => alone(alloc, witnesses),
        Mark::Optional => alone_or_none(alloc, witnesses),
        Mark::Some => some_together(alloc, witnesses),
        Mark::Any => together(alloc, witnesses),
    }
}

fn alone(alloc: Global, witnesses: Vec<Witness>) -> Result<Vec<Offer>, AllocError>
    ensures { IfOk result (λ offers. offers.items ≡ map (λ w. w ∷ []) witnesses.items) }
{
    let mut offers = Vec::with_capacity(alloc, witnesses.len())?;
    'witnesses: for w in witnesses {
        let mut one = Vec::with_capacity(alloc, 1)?;
        one.push(w)?;
        offers.push(Items::from_vec(one))?;
    }
    Ok(offers)
}

fn alone_or_none(alloc: Global, witnesses: Vec<Witness>) -> Result<Vec<Offer>, AllocError>
    ensures { IfOk result (λ offers. offers.items ≡ offers_by Optional witnesses.items) }
{
    if witnesses.is_empty() {
        return together(alloc, witnesses);
    }
    alone(alloc, witnesses)
}

fn some_together(alloc: Global, witnesses: Vec<Witness>) -> Result<Vec<Offer>, AllocError>
    ensures { IfOk result (λ offers. offers.items ≡ offers_by Some witnesses.items) }
{
    if witnesses.is_empty() {
        return Ok(Vec::new(alloc));
    }
    together(alloc, witnesses)
}

fn together(alloc: Global, witnesses: Vec<Witness>) -> Result<Vec<Offer>, AllocError>
    ensures { IfOk result (λ offers. offers.items ≡ witnesses.items ∷ []) }
{
    let mut offers = Vec::with_capacity(alloc, 1)?;
    offers.push(Items::from_vec(witnesses))?;
    Ok(offers)
}

/// Each row with each of the offers behind it, the rows varying slowest.
pub fn product(
    alloc: Global,
    rows: Vec<Items<Offer>>,
    offers: Vec<Offer>,
) -> Result<Vec<Items<Offer>>, AllocError>
    ensures { IfOk result (λ all. all.items ≡ grown rows.items offers.items) }
{
    let mut all = Vec::new(alloc);
    let mut others = rows;
    let Some(last) = others.pop() else {
        return Ok(all);
    };
    'others: for row in others {
        push_copied(alloc, row, offers.as_slice(), &mut all)?;
    }
    push_moved(alloc, last, offers, &mut all)?;
    Ok(all)
}

/// The row with a copy of each of the offers.
fn push_copied(
    alloc: Global,
    row: Items<Offer>,
    offers: &[Offer],
    all: &mut Vec<Items<Offer>>,
) -> Result<(), AllocError>
    ensures { OnOk result (all.new.items ≡ all.old.items ++ with_each offers.now row) }
{
    let [others @ .., last] = offers else {
        return Ok(());
    };
    'others: for offer in others {
        let copy = copy_row(alloc, row.as_slice())?;
        let offer = copy_offer(alloc, offer.as_slice())?;
        all.push(extended(copy, offer)?)?;
    }
    let offer = copy_offer(alloc, last.as_slice())?;
    all.push(extended(row, offer)?)?;
    Ok(())
}

/// The row with each of the offers, the row itself with the last of them.
fn push_moved(
    alloc: Global,
    row: Items<Offer>,
    offers: Vec<Offer>,
    all: &mut Vec<Items<Offer>>,
) -> Result<(), AllocError>
    ensures { OnOk result (all.new.items ≡ all.old.items ++ with_each offers.items row) }
{
    let mut others = offers;
    let Some(last) = others.pop() else {
        return Ok(());
    };
    'others: for offer in others {
        let copy = copy_row(alloc, row.as_slice())?;
        all.push(extended(copy, offer)?)?;
    }
    all.push(extended(row, last)?)?;
    Ok(())
}

fn extended(row: Items<Offer>, offer: Offer) -> Result<Items<Offer>, AllocError>
    ensures { IfOk result (λ longer. longer ≡ row ++ offer ∷ []) }
{
    let mut offers = row.into_vec();
    offers.push(offer)?;
    Ok(Items::from_vec(offers))
}
