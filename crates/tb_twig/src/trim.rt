//! Links in vain are dropped, so that each link that is left leads to a witness.

ghost use Rattle.std.specs.Prelude.{◌≡◌, ◌<◌, ◌≤◌, ◌^◌, length, map, filter, All, IfOk, OnOk};
ghost use Rattle.tb_twig.specs.Narrowed.{leads_from};
ghost use Rattle.tb_twig.specs.Links.{IsRising, lists_in};
ghost use Rattle.tb_twig.specs.Trimmed.{laid_at, leading_on, asks_above, trim_step, trimmed};

use crate::Link;
use crate::branch::Branch;
use crate::narrow::asks;
use crate::run::{links_of, start_of};
use std::alloc::{AllocError, Global};

/// From the last edge to the first, drops the links of the edge above whose lower node has no link of this
/// one, if its mark asks for one.
pub fn trim(alloc: Global, laid: &[Branch], links: &mut Vec<Vec<Link>>) -> Result<(), AllocError>
    requires above { All (λ b. b.up ≤ length links.old.items) laid.now }
    requires edges { length laid.now ≡ length links.old.items }
    requires rise { All (λ ls. IsRising ls.items) links.old.items }
    ensures trimmed { OnOk result (lists_in links.new.items
        ≡ trimmed laid.now (length laid.now) (lists_in links.old.items)) }
    ensures rise { OnOk result (All (λ ls. IsRising ls.items) links.new.items) }
{
    let mut f = laid.len();
    'edges: while f > 0 {
        f -= 1;
        trim_above(alloc, laid, f, links)?;
    }
    Ok(())
}

/// The links of the edge above edge f, without those in vain.
fn trim_above(
    alloc: Global,
    laid: &[Branch],
    f: usize,
    links: &mut Vec<Vec<Link>>,
) -> Result<(), AllocError>
    requires within { f < length laid.now }
    requires above { All (λ b. b.up ≤ length links.old.items) laid.now }
    requires edges { length laid.now ≡ length links.old.items }
    requires rise { All (λ ls. IsRising ls.items) links.old.items }
    ensures trimmed { OnOk result (lists_in links.new.items ≡ trim_step laid.now f (lists_in links.old.items)) }
    ensures rise { OnOk result (All (λ ls. IsRising ls.items) links.new.items) }
{
    let branch = laid[f];
    if !asks_above(&branch) {
        return Ok(());
    }
    let above = branch.up as usize - 1;
    let kept = leading_on(alloc, links_of(links, f), links_of(links, above))?;
    links[above] = kept;
    Ok(())
}

fn asks_above(branch: &Branch) -> bool
    ensures { result ≡ asks_above branch.now }
{
    asks(branch.mark) && branch.up != 0
}

/// The links whose lower node some of the others leads from.
fn leading_on(alloc: Global, others: &[Link], links: &[Link]) -> Result<Vec<Link>, AllocError>
    requires others { IsRising others.now }
    requires links { IsRising links.now }
    ensures kept { IfOk result (λ kept. kept.items ≡ leading_on others.now links.now) }
    ensures rise { IfOk result (λ kept. IsRising kept.items) }
{
    let mut kept = Vec::new(alloc);
    'links: for link in links {
        if !leads_from(others, link.below) {
            continue;
        }
        kept.push(*link)?;
    }
    Ok(kept)
}

fn leads_from(links: &[Link], n: u32) -> bool
    requires { IsRising links.now }
    ensures { result ≡ leads_from links.now n }
{
    match links.get(start_of(links, n)) {
        Some(link) => link.above == n,
        None => false,
    }
}
