//! Stores: documents with the labels of their nodes and the list of each test; and the values of nodes,
//! compared and as keys.
#![tactic(auto)]

mod comparand;
mod comparison;
mod keys;
mod listing;
mod lists;
mod store;

pub use comparand::{Comparand, Prepared};
pub use comparison::stands;
pub use keys::{key, printed, printed_key, printed_value};
pub use store::Store;
