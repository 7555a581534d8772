//! Answers of plans: of a pattern each witness's tree, written straight from the links of the joins.
//!
//! Whoever answers queries calls `answer`. What is proved is that the answer is what the plan means over
//! the documents (`answered`), and what its trace tells of the joins (`trace`).
#![tactic(auto)]

mod answering;
mod choice;
mod fault;
mod ground;
mod marked;
mod places;
mod text;
mod write;

pub use answering::answer;
pub use fault::EngineFault;
pub use tb_parjoin::Answer;

#[cfg(test)]
mod tests;
