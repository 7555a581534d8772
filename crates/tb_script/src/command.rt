//! What a script says: commands in sessions.

use tb_tree::Bytes;

/// One command. Marks count from 0, in the order of their `tell` lines.
#[derive(Debug, Drop)]
pub enum Command {
    /// The body's lines as they were read, line ends included.
    Load { name: Bytes, lines: Bytes },
    /// Each line of the text ends with byte 10.
    Query { text: Bytes },
    Tell { mark: u32, name: Bytes },
    Hear { mark: u32, name: Bytes },
}

/// The commands of one session, in order.
#[derive(Debug, Drop)]
pub struct Script {
    pub commands: Vec<Command>,
}

/// The sessions in order, and how many marks they tell.
#[derive(Debug, Drop)]
pub struct Workload {
    pub sessions: Vec<Script>,
    pub marks: u32,
}
