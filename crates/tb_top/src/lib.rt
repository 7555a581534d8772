//! The commands of `timber`: from the words of a command line, a source and a sink to a status.
//!
//! Main calls `settle`, which does `single` and `check` for scripts whose queries are patterns, or have a
//! fault. Its one clause, `Settled`, says by the status what was read and what was written, and rests on
//! the definitions of answers in the `specs/` of `tb_query`, of the queries and faults of texts in those
//! of `tb_flwor`, and of histories, runs and transcripts in its own.
#![tactic(auto)]

mod answering;
mod check;
mod commands;
mod counts;
mod fault_text;
mod faults;
mod history;
mod outcome;
mod pieces;
mod printer;
mod running;
mod single;
mod status;
mod task;

pub use commands::settle;
pub use status::Status;

#[cfg(test)]
mod tests;
