//! Queries, and what each of them means over documents.
//!
//! Readers of queries make its types, and every crate that plans or answers a query states its
//! clauses by the definitions of its `specs/`. What is proved is that `documents` gives the names
//! that a query has, each once (`names`), and that its answer depends on their documents alone
//! (`enough`, `laws_of_answers`).
#![tactic(auto)]

mod back;
mod clause;
mod laws;
mod names;
mod operand;
mod path;
mod query;
mod written;

pub use back::{AttrPart, Back, Cons, Content, Part};
pub use clause::{Clause, GroupBy, Key};
pub use laws::laws_of_answers;
pub use names::documents;
pub use operand::{Comparison, Operand, Right};
pub use path::{Path, Start, Step};
pub use query::{Flwor, Query};

#[cfg(test)]
mod tests;
