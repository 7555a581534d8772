//! What an edge leaves to choose.

ghost use Rattle.std.specs.Prelude.{◌≡◌, ◌++◌, Some, map};
ghost use Rattle.tb_engine.specs.Choices.{choices, blanks};
ghost use Rattle.tb_engine.specs.Shown.{ground_of};

use crate::ground::Ground;
use tb_pattern::Mark;
use tb_twig::{Cursors, Link};

/// What edge f leaves to choose below a node, or below none: whether none may be chosen, and the links to the
/// nodes that may.
pub fn choices<'a>(
    g: &Ground<'a>,
    mark: Mark,
    f: u32,
    above: Option<u32>,
    cursors: &mut Cursors,
) -> (bool, &'a [Link])
    ensures { blanks result.0 ++ map Some (map (λ link. link.below) result.1.now)
        ≡ choices mark ((ground_of g.now).run f) above }
{
    let Some(node) = above else {
        return (true, &[]);
    };
    let run = g.runs.run(f as usize, node, cursors);
    match mark {
        Mark::One => (false, run),
        Mark::Optional => (run.is_empty(), run),
        Mark::Some => (!run.is_empty(), &[]),
        Mark::Any => (true, &[]),
    }
}
