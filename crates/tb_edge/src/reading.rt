//! Reading a whole text from a source.

ghost use Rattle.std.specs.Prelude.{◌≡◌, ◌+◌, ◌<◌, ◌≤◌, ◌++◌, length, take, vec_len, IfOk};
ghost use Rattle.std.specs.Io.{ReadsAtMost};
ghost use Rattle.std.specs.Io.KnownBytes.{Consumes, IsAtEnd};
ghost use Rattle.tb_edge.specs.Calls.{LostAtMost, ReadCauses};

use super::{Failed, Source};
use std::alloc::{AllocError, Global};

// How many bytes one call asks for at most.
const BUFFER: usize = 65536;

/// Why a text was not read.
#[derive(Clone, Copy, Debug, PartialEq, Eq)]
pub enum ReadFault {
    /// The source failed.
    Failed,
    /// There was no memory for the buffer or for the bytes.
    NoMemory,
}

impl From<Failed> for ReadFault {
    ghost use Rattle.tb_edge.specs.declared.reading.ReadFault.TheVariants.{Failed};

    ghost from_gives = { λ _ fault. fault ≡ Failed };

    fn from(_: Failed) -> ReadFault {
        ReadFault::Failed
    }
}

impl From<AllocError> for ReadFault {
    ghost use Rattle.tb_edge.specs.declared.reading.ReadFault.TheVariants.{NoMemory};

    ghost from_gives = { λ _ fault. fault ≡ NoMemory };

    fn from(_: AllocError) -> ReadFault {
        ReadFault::NoMemory
    }
}

/// Reads the source to its end, or until there are `most + 1` bytes and no byte further: then its length
/// shows that there was more than `most`.
pub fn read_up_to<S: Source>(
    alloc: Global,
    source: &mut S,
    most: usize,
) -> Result<Vec<u8>, ReadFault>
    ensures bytes { IfOk result (λ v. Consumes (S.left source.old) (S.left source.new) v.items) }
    ensures bound { IfOk result (λ v. vec_len v ≤ most + 1) }
    ensures end { IfOk result (λ v. vec_len v ≤ most → IsAtEnd (S.left source.new)) }

    // On `Err` too, whose bytes are gone.
    ensures lost { LostAtMost (most + 1) (S.left source.old) (S.left source.new) }
    ensures cause { ReadCauses (S.faults source.old) (S.faults source.new) result }
{
    let mut buffer = zeros(alloc, BUFFER)?;
    let mut bytes = Vec::new(alloc);
    // Each read but the last gives a byte or more, so there are at most `most + 1`.
    'reads: while bytes.len() <= most {
        let wanted = (most - bytes.len()).min(BUFFER - 1) + 1;
        if read_more(source, &mut buffer[..wanted], &mut bytes)? == 0 {
            return Ok(bytes);
        }
    }
    Ok(bytes)
}

// One read into the buffer, whose bytes are appended, and how many they were.
fn read_more<S: Source>(
    source: &mut S,
    buffer: &mut [u8],
    bytes: &mut Vec<u8>,
) -> Result<usize, ReadFault>
    requires { 0 < length buffer.old }
    ensures bound { ReadsAtMost result buffer.new }
    ensures appended { IfOk result (λ n. bytes.new.items ≡ bytes.old.items ++ take n buffer.new) }
    ensures taken { IfOk result (λ n.
        Consumes (S.left source.old) (S.left source.new) (take n buffer.new)) }
    ensures end { IfOk result (λ n. n ≡ 0 → IsAtEnd (S.left source.new)) }
    ensures lost { LostAtMost (length buffer.old) (S.left source.old) (S.left source.new) }
    ensures cause { ReadCauses (S.faults source.old) (S.faults source.new) result }
{
    let n = source.read(buffer)?;
    bytes.extend_from_slice(&buffer[..n])?;
    Ok(n)
}

// So many bytes, each 0. What they are is nobody's concern.
fn zeros(alloc: Global, len: usize) -> Result<Vec<u8>, AllocError>
    ensures { IfOk result (λ v. vec_len v ≡ len) }
{
    vec![in alloc; 0; len]
}
