//! Queries from their texts: those of clauses, and those of patterns.
//!
//! The commands call it. What is proved is that `read_query` gives the query that a text asks for, or
//! the first of its faults, and that what is said of a query's tokens is so of its tree
//! (`laws_of_read_queries`).
#![tactic(auto)]

mod agreements;
mod back;
mod build;
mod check;
mod clause;
mod conds;
mod constructors;
mod fault;
mod grammar;
mod names;
mod operand;
mod order;
mod path;
mod query;
mod syntax;
mod variables;

pub use agreements::laws_of_read_queries;
pub use fault::QueryFault;
pub use query::read_query;
pub use syntax::first_wrong_query;

#[cfg(test)]
mod tests;
