//! Structural joins as a query runs them: by its settings, and with a trace of the pieces that were worked.
//!
//! Whoever matches patterns calls `structural_join`. What is proved is that its pairs are those of the uncut
//! join, by descendant or by ancestor (`pairs`), and that its trace tells all of them once (`trace`).
#![tactic(auto)]

mod answer;
mod join;
mod settings;
mod trace;

pub use answer::Answer;
pub use join::{Joined, structural_join};
pub use settings::{OrderRule, Settings};
pub use tb_stackjoin::By;
pub use trace::{JoinTrace, Ran};

#[cfg(test)]
mod tests;
