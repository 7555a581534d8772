//! Integer texts: values that stand for a whole number of any length, as numbers.
//!
//! Conditions, groups and orders call it, and state their clauses in the words of its `specs/`.
//! What is proved is that `read` finds the number that the bytes stand for (`reads`), and that
//! each other call goes by that number alone.
#![tactic(auto)]

mod agg;
mod digits;
mod int_text;
mod key;
mod op;
mod sort_key;
mod spelling;
mod sum;

pub use agg::AggKind;
pub use int_text::IntText;
pub use key::Key;
pub use op::CmpOp;
pub use sort_key::SortKey;
pub use spelling::signed_digits;
pub use sum::{Past, RunningSum};

#[cfg(test)]
mod tests;
