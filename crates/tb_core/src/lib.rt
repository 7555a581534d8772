//! The world of fronts: what sessions that change, look, tell and hear are answered, as one state machine.
//!
//! Who settles a workload by itself runs it over the events of its schedule. What is proved is each answer
//! (`answer`) and what an event leaves (`after`).
#![tactic(auto)]

mod event;
mod world;

pub use event::Event;
pub use world::World;

#[cfg(test)]
mod tests;
