//! Texts of pieces that are repeated.

use std::alloc::AllocError;

/// Appends the piece so many times.
pub fn push_times(text: &mut Vec<u8>, piece: &str, times: usize) -> Result<(), AllocError> {
    for _turn in 0..times {
        text.extend_from_slice(piece.as_bytes())?;
    }
    Ok(())
}
