//! The machine that a script runs on, as a trait: what it is asked for, and what it answers.
//!
//! The pure machine is one (`world_core`).
#![tactic(auto)]

mod machine;

pub use machine::Machine;
