//! What bytes are read from.

ghost use Rattle.std.specs.Prelude.{ℕ, ◌<◌, List, length};
ghost use Rattle.std.specs.Io.{ReadsAtMost};
ghost use Rattle.std.specs.Io.KnownBytes.{ReadConsumes};
ghost use Rattle.std.specs.declared.option.Option.{Option};
ghost use Rattle.tb_edge.specs.Faults.{Causes};

use super::Failed;

/// Gives bytes in turn. Contracts see a count of faults and, where the object tells them, the bytes left.
pub trait Source {
    // The bytes left, or `None` where the object doesn't tell.
    ghost left: { Self → Option (List ℕ) };

    ghost faults: { Self → ℕ };

    /// Puts the next bytes first in `into` and answers how many, 0 only at the end of input.
    fn read(&mut self, into: &mut [u8]) -> Result<usize, Failed>
        requires { 0 < length into.old }
        ensures bound { ReadsAtMost result into.new }

        // What `Ok` gave is what was taken, and `Err` took nothing.
        ensures bytes { ReadConsumes (left self.old) (left self.new) result into.new }
        ensures cause { Causes (faults self.old) (faults self.new) result };
}
