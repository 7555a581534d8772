//! Aggregates, orders and groups of tables.
//!
//! `tb_engine` calls it for the operators of a plan. What is proved is that the rows of each result are those
//! that the operator means (`rows`).
#![tactic(auto)]

mod aggregates;
mod extreme;
mod fault;
mod first;
mod keyed;
mod orders;
mod part;
mod sorted;
mod sum;
mod told;

pub use aggregates::aggregate;
pub use fault::GroupFault;
pub use orders::order;

#[cfg(test)]
mod tests;
