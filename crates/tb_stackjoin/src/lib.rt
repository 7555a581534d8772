//! Structural joins: the pairs of nodes of two lists that stand in one another.
//!
//! `join_desc` is Stack-Tree-Desc (Al-Khalifa and others, ICDE 2002) on a range of descendants, and `join_anc`
//! gives its pairs by ancestor. What is proved is which pairs they give, in which order (`pairs`), and how many
//! labels they compare at most (`cost`). `whole_join` is the whole of either for callers that count nothing, and
//! `pairs_of` the pairs of one ancestor among pairs by ancestor. `naive_join` is the definition's own program,
//! kept to be compared with.
#![tactic(auto)]

mod by_ancestor;
mod by_descendant;
mod naive;
mod opening;
mod order;
mod pairing;
mod parts;
mod reach;
mod stack;
mod whole;

pub use by_ancestor::join_anc;
pub use by_descendant::join_desc;
pub use naive::naive_join;
pub use parts::{end_of, pairs_of, start_of};
pub use whole::{By, whole_join};

#[cfg(test)]
mod tests;
