//! What no clause says: that a world is made with ample memory, and its rows as numbers.

use crate::{Event, World};
use std::test::Fail;

#[test]
fn a_session_hears_of_a_change_that_another_told(rt: HostRuntime) -> Result<(), Fail> {
    let mut world = World::new(rt.alloc(), 2, 1, 1)?;
    assert_eq!(rt;
        world.step(Event::Hear {
            session: 1,
            mark: 0
        }),
        None
    );
    assert_eq!(rt; world.step(Event::Change { session: 0 }), Some(1));
    assert_eq!(rt;
        world.step(Event::Tell {
            session: 0,
            mark: 0
        }),
        Some(1)
    );
    assert_eq!(rt;
        world.step(Event::Hear {
            session: 1,
            mark: 0
        }),
        Some(1)
    );
    assert_eq!(rt; world.step(Event::Look { session: 1 }), Some(1));
    Ok(())
}

#[test]
fn an_untold_mark_changes_nothing(rt: HostRuntime) -> Result<(), Fail> {
    let mut world = World::new(rt.alloc(), 2, 2, 2)?;
    world.step(Event::Change { session: 0 });
    assert_eq!(rt;
        world.step(Event::Hear {
            session: 1,
            mark: 1
        }),
        None
    );
    assert_eq!(rt;
        world.step(Event::Tell {
            session: 1,
            mark: 0
        }),
        Some(0)
    );
    assert_eq!(rt; world.step(Event::Look { session: 1 }), Some(1));
    Ok(())
}
