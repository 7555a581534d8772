//! Pairs put into the order of their ancestors.

ghost use Rattle.std.specs.Prelude.{OnOk};
ghost use Rattle.tb_stackjoin.specs.Pairs.{AreByAncestor};

use std::alloc::AllocError;
use tb_span::Pair;

/// Those of one ancestor stay in the order that they have. Where no ancestor stands inside another they are in
/// that order already, and left alone.
pub fn put_by_ancestor(pairs: &mut Vec<Pair>) -> Result<(), AllocError>
    ensures { OnOk result (AreByAncestor pairs.old.items pairs.new.items) }
{
    if pairs.is_sorted_by_key(|pair| pair.a) {
        return Ok(());
    }
    pairs.sort_by_key(|pair| pair.a)?;
    Ok(())
}
