//! Interval labels: where a node starts and ends in its document, and how deep it stands.
//!
//! Structural joins work on lists of these items, and call the comparisons. What is proved is what each comparison
//! says of two labels (`tells`) and that it counts one step (`counts`), so that a bound on steps bounds the
//! comparisons. The rule of ancestors is that of Al-Khalifa and others, ICDE 2002.
#![tactic(auto)]

mod item;
mod label;
mod steps;

pub use item::{Axis, Item, NodeId, Pair};
pub use label::Label;
pub use steps::Steps;
