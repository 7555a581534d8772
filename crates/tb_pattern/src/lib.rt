//! Annotated patterns: what a `MATCH` query asks for, and the witnesses that answer it.
//!
//! What the program promises of a query's answer is stated by its `specs/`. What is proved is that
//! `read_pattern` gives the pattern that a query's tokens ask for, or the first of their faults, and
//! that a copy of a pattern is the same.
#![tactic(auto)]

pub mod build;
mod check;
mod cond;
pub mod conds;
mod fault;
pub mod grammar;
pub mod limits;
pub mod node_test;
mod pattern;
pub mod prefix;
mod query;
mod syntax;
mod witness;

pub use cond::{Cond, Literal};
pub use fault::PatternFault;
pub use pattern::{Edge, Mark, PNode, Pattern};
pub use query::read_pattern;
pub use witness::{Offer, Witness};

#[cfg(test)]
mod tests;
