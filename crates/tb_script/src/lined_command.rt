//! A command with its line.

use crate::Command;

/// A command and the number of its line, from 1.
#[derive(Debug, Drop)]
pub struct LinedCommand {
    pub line: u32,
    pub command: Command,
}
