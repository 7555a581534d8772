//! What bytes are written to.

ghost use Rattle.std.specs.Prelude.{ℕ, ◌<◌, List, length, IfOk};
ghost use Rattle.std.specs.Io.{WritesAtMost};
ghost use Rattle.std.specs.Io.KnownBytes.{WriteAppends};
ghost use Rattle.std.specs.declared.option.Option.{Option};
ghost use Rattle.tb_edge.specs.Faults.{Causes};

use super::Failed;

/// Takes bytes in turn. Contracts see a count of faults and, where the object tells them, the bytes held.
pub trait Sink {
    // The bytes held, or `None` where the object doesn't tell.
    ghost held: { Self → Option (List ℕ) };

    ghost faults: { Self → ℕ };

    /// Takes the first bytes of `piece`, one or more, and answers how many.
    fn write(&mut self, piece: &[u8]) -> Result<usize, Failed>
        requires { 0 < length piece.now }
        ensures bound { WritesAtMost result piece.now }
        ensures some { IfOk result (λ n. 0 < n) }

        // What `Ok` counts was taken, and `Err` took nothing.
        ensures bytes { WriteAppends (held self.old) (held self.new) result piece.now }
        ensures cause { Causes (faults self.old) (faults self.new) result };
}
