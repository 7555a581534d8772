//! Twig matching: the witnesses of a pattern, by one structural join an edge, in any order of the edges.
#![tactic(auto)]

mod branch;
mod condition;
mod copies;
mod found;
mod hits;
mod joins;
mod layout;
mod link;
mod matching;
mod narrow;
mod nodes;
mod offers;
mod rows;
mod run;
mod runs;
mod trim;
mod vain;

pub use branch::Branch;
pub use found::{Found, witnesses};
pub use link::Link;
pub use matching::{Matched, join_edges};
pub use rows::{nodes_in, size_below};
pub use runs::{Cursors, Runs};
pub use tb_pattern::{Offer, Witness};
pub use vain::is_in_vain;

#[cfg(test)]
mod tests;
