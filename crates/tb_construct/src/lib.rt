//! Result trees: of each witness of a pattern its tree, as a node that the caller owns.
//!
//! Callers who want trees, and not the lines of an answer, call `witness_trees` on the rows of `tb_twig`. What is
//! proved is that the trees are those of the rows (`trees`), and of all naive witnesses those that the query
//! means (`naive`).
#![tactic(auto)]

mod begin;
mod forest;
mod inside;
mod kids;
mod own;

pub use forest::{Forest, witness_trees};

#[cfg(test)]
mod tests;
