//! Orders of a pattern's edges: which edge is joined first, which next.
//!
//! Who matches a pattern by one join for each edge takes an `Order`. What is proved is that an order has the
//! number of each edge once and no other number (`IsOrderOf`), which order `written` and `reverse` give, and
//! that `Order::of` accepts exactly the lists that are one.
#![tactic(auto)]

mod by_number;
mod count;
mod order;
mod permutation;

pub use by_number::{reverse, written};
pub use order::Order;

#[cfg(test)]
mod tests;
