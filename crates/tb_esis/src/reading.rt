//! Reading a document.

ghost use Rattle.std.specs.Prelude.{◌<◌, ◌≤◌, IfOk, length};
ghost use Rattle.tb_tree.specs.Plain.{one};
ghost use Rattle.tb_tree.specs.View.{plain_of};
ghost use Rattle.tb_tree.specs.Levels.{levels};
ghost use Rattle.tb_tree.specs.Numbers.{count};
ghost use Rattle.tb_esis.specs.Calls.{Reads};

use crate::EsisFault;
use crate::reader::Reader;
use std::alloc::Global;
use tb_tree::Tree;

/// The document that the lines are read as, or the first fault of the lines.
pub fn read_tree(alloc: Global, lines: &[u8]) -> Result<Tree, EsisFault>
    requires { length lines.now ≤ 67108864 }
    ensures read { Reads lines.now result }
    ensures levels { IfOk result (λ tree. levels (one (plain_of tree)) ≤ 512) }
    ensures fewer { IfOk result (λ tree. count (plain_of tree) < length lines.now) }
{
    let mut reader = Reader::with_capacity(alloc, lines.len())?;
    let mut scratch = Vec::new(alloc);
    let mut rest = lines;
    let mut number = 1;
    'lines: while let Some(behind) = reader.take(rest, number, &mut scratch)? {
        rest = behind;
        number += 1;
    }
    reader.conform(number)?;
    Ok(reader.into_draft().finish())
}
