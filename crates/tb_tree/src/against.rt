//! What a column of a table is compared with.

use crate::Bytes;

/// Another column, or a literal: a number or bytes.
#[derive(Debug, Drop)]
pub enum Against {
    /// The column of this number, from 0.
    Column(u32),
    Number(i128),
    Text(Bytes),
}
