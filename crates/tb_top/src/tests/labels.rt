//! Labels by themselves: which are made, and how three nested ones compare.

ghost use Rattle.std.specs.Prelude.{◌≡◌, ◌<◌};

use std::marker::Brand;
use std::sync::ledger::{Blank, Ledger};
use std::test::Fail;
use tb_span::{Label, NodeId, Steps};

// Whether the first starts before the second, ends before the second starts, and stands one level
// below it.
fn compared<L: Ledger>(blank: Blank, one: &Label, other: &Label) -> (bool, bool, bool)
    requires name { blank.name ≡ L.name }
    requires parts { blank.parts ≡ L.parts }
    requires some { 0 < L.parts }
{
    let mut steps = Steps::<L>::new(blank);
    let starts = one.starts_before(other, &mut steps);
    let ends = one.ends_before(other, &mut steps);
    let below = one.is_level_below(other, &mut steps);
    (starts, ends, below)
}

// The same of labels from their numbers, each start, end and level.
fn answers(one: (u32, u32, u16), other: (u32, u32, u16)) -> Option<(bool, bool, bool)> {
    let one = Label::new(one.0, one.1, one.2)?;
    let other = Label::new(other.0, other.1, other.2)?;
    Some(compared::<Brand>(Blank::new(3), &one, &other))
}

#[test]
fn labels_compare_by_their_ends_and_levels(rt: HostRuntime) -> Result<(), Fail> {
    for (one, other, wanted) in [
        ((2, 7, 1), (3, 6, 2), Some((true, false, false))),
        ((3, 6, 2), (2, 7, 1), Some((false, false, true))),
        ((2, 3, 2), (4, 5, 2), Some((true, true, false))),
        ((2, 4, 2), (4, 5, 3), Some((true, false, false))),
        ((2, 2, 0), (4, 5, 3), None),
    ] {
        assert_eq!(rt; answers(one, other), wanted);
    }
    assert_eq!(rt; NodeId::new(7).index(), 7);
    Ok(())
}
