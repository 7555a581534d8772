//! The lists of all tests, filled in one pass over a document's extents.

ghost use Rattle.std.specs.Prelude.{◌≡◌, ◌^◌, ◌<◌, length, map, IfOk};
ghost use Rattle.tb_tree.specs.NameTables.{AreApart};
ghost use Rattle.tb_tree.specs.Extents.{named};
ghost use Rattle.tb_tree.specs.declared.node_test.Test.{Test};
ghost use Rattle.tb_label.specs.Lists.{in_lists};
ghost use Rattle.tb_label.specs.Picked.{item_at, picked, AreFit};

use crate::lists::Lists;
use std::alloc::{AllocError, Global};
use tb_span::{Item, Label, NodeId};
use tb_tree::{Bytes, Extent};

/// The lists of the nodes with these extents, the first of which has the number 1.
pub fn lists_of(
    alloc: Global,
    extents: &[Extent],
    elements: &[Bytes],
    attributes: &[Bytes],
) -> Result<Lists, AllocError>
    requires few { length extents.now < 2 ^ 30 }
    requires fit { AreFit (length elements.now) (length attributes.now) extents.now }
    requires elements { AreApart elements.now }
    requires attributes { AreApart attributes.now }
    ensures { IfOk result (λ lists. (t : Test)
        → in_lists lists t ≡ picked t 1 (map (named elements.now attributes.now) extents.now)) }
{
    let mut lists = Lists::new(alloc, elements, attributes)?;
    let mut number = 1;
    'extents: for extent in extents {
        lists.add(extent, &item_at(number, extent.last, extent.level))?;
        number += 1;
    }
    Ok(lists)
}

/// The item of the node with that number, from its level and from the number of its last descendant.
pub fn item_at(number: u32, last: u32, level: u16) -> Item
    requires number { number < 2 ^ 30 }
    requires last { last < 2 ^ 30 }
    ensures { result ≡ item_at number last level }
{
    let start = (2 * number + 1).saturating_sub(u32::from(level));
    let end = start + 2 * last.saturating_sub(number) + 1;
    let Some(label) = Label::new(start, end, level) else {
        unreachable!();
    };
    Item {
        label,
        node: NodeId::new(number),
    }
}
