//! Plans of queries: operators over one table, and what they mean over documents.
//!
//! `translate` makes the plan of a query. What is proved is that the plan means what the query
//! means, over any documents.
#![tactic(auto)]

mod clauses;
mod conditions;
mod operands;
mod ordering;
mod plan;
mod planning;
mod returned;
mod scope;
mod shared;
mod stood;
mod ties;

pub use plan::{ColumnStart, Op, Plan};
pub use planning::translate;
pub use shared::{Name, Steps};

#[cfg(test)]
mod tests;
