//! Writing a whole text to a sink.

ghost use Rattle.std.specs.Prelude.{◌≡◌, length, OnOk, OnErr};
ghost use Rattle.std.specs.List.{flat_map};
ghost use Rattle.std.specs.Io.KnownBytes.{Appends};
ghost use Rattle.tb_edge.specs.Calls.{GrewByPart};
ghost use Rattle.tb_edge.specs.Faults.{Causes};

use super::{Failed, Sink};

/// Writes all of `bytes`, in as many calls as the sink needs.
pub fn write_all<K: Sink>(sink: &mut K, bytes: &[u8]) -> Result<(), Failed>
    ensures all { OnOk result (Appends (K.held sink.old) (K.held sink.new) bytes.now) }
    ensures part { OnErr result (GrewByPart (K.held sink.old) (K.held sink.new) bytes.now) }
    ensures cause { Causes (K.faults sink.old) (K.faults sink.new) result }

    // There is no call where there is nothing to write.
    ensures nothing { length bytes.now ≡ 0 → sink.new ≡ sink.old }
{
    let mut at = 0;
    'writes: while at < bytes.len() {
        let n = sink.write(&bytes[at..])?;
        at += n;
    }
    Ok(())
}

/// Writes all pieces, one behind the other, each at once where the sink takes it.
pub fn write_pieces<K: Sink>(sink: &mut K, pieces: &[Vec<u8>]) -> Result<(), Failed>
    ensures all { OnOk result (Appends (K.held sink.old) (K.held sink.new)
        (flat_map (λ piece. piece.items) pieces.now)) }
    ensures part { OnErr result (GrewByPart (K.held sink.old) (K.held sink.new)
        (flat_map (λ piece. piece.items) pieces.now)) }
    ensures cause { Causes (K.faults sink.old) (K.faults sink.new) result }
{
    'pieces: for piece in pieces {
        write_all(sink, piece)?;
    }
    Ok(())
}
