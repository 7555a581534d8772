//! Values one after the other in one list of bytes, each told by its span.

ghost use Rattle.std.specs.Prelude.{◌≡◌, ◌≤◌, ◌++◌, ℕ, List, [], ◌∷◌, length, Some, IfOk};
ghost use Rattle.tb_number.specs.Canonical.{canonical_text};
ghost use Rattle.tb_group.specs.Told.{IsTold, text_behind};

use itoa::Buffer;
use std::alloc::AllocError;
use tb_table::Span;

/// The span of no value.
const NOTHING: Span = Span { first: 1, end: 0 };

/// Appends the number as text.
pub fn push_number(number: i128, bytes: &mut Vec<u8>) -> Result<Span, AllocError>
    ensures { IfOk result (IsTold (Some (canonical_text number)) bytes.old.items bytes.new.items) }
{
    let first = bytes.len();
    let mut buffer = Buffer::new();
    bytes.extend_from_slice(buffer.format(number).as_bytes())?;
    Ok(Span {
        first,
        end: bytes.len(),
    })
}

/// What stands behind so many bytes, or no value where nothing does.
pub fn span_behind(first: usize, bytes: &[u8]) -> Span
    requires { first ≤ length bytes.now }
    ensures told { (before : List ℕ) → length before ≡ first → (text : List ℕ) → bytes.now ≡ before ++ text
        → IsTold (text_behind text) before bytes.now result }
{
    if bytes.len() == first {
        return NOTHING;
    }
    Span {
        first,
        end: bytes.len(),
    }
}
