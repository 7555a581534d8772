//! Tables of answers, and the documents that they speak of.
//!
//! `Table` keeps columns and is seen as rows. `Documents` has documents by name and by number. What is proved
//! is what each call does to the rows, and that the documents are the list of them in the order in which they
//! were added.
#![tactic(auto)]

mod cell;
mod column;
mod documents;
mod gather;
mod name;
mod node_ref;
mod parts;
mod printed;
mod rows;
mod secret;
mod table;
mod text;

pub use cell::{Cell, CellRef, Row};
pub use column::Column;
pub use documents::Documents;
pub use node_ref::NodeRef;
pub use parts::Span;
pub use printed::Printed;
pub use secret::Secret;
pub use table::Table;
pub use text::Text;

#[cfg(test)]
mod tests;
