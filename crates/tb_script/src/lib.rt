//! Workload scripts: sessions with their commands, the first fault of a script, and the order in
//! which the commands of a workload are done.
//!
//! Whoever runs a workload reads its script by this crate. `read_workload` gives the workload that
//! the bytes are read as, or their first fault (its clause `read`), and a workload meets what later
//! calls ask for (`runnable`). `schedule` gives the steps of the rounds in which its sessions take
//! turns.
#![tactic(auto)]

mod body;
mod command;
mod entry;
mod fault;
mod form;
mod group;
mod line;
mod lined_command;
mod marks;
mod order;
mod reader;
mod round;
mod session_set;
mod stuck;
mod tally;
mod turnstep;
mod walk;
mod workload;

pub use command::{Command, Script, Workload};
pub use fault::ScriptFault;
pub use order::schedule;
pub use reader::read_workload;
pub use turnstep::Turnstep;

#[cfg(test)]
mod tests;
