//! Trees as ESIS lines: reading them and printing them.
//!
//! Whoever loads a document or prints an answer calls this crate. `read_tree` gives the tree that the lines
//! are read as, or their first fault (its clause `read`), and `write_nodes` appends the lines of its nodes
//! (`printed`) or nothing (`unchanged`).
#![tactic(auto)]

mod fault;
mod line;
mod reader;
mod reading;

pub use fault::EsisFault;
pub use reading::read_tree;
pub use tb_tree::write_nodes;

#[cfg(test)]
mod tests;
