//! The pure machine: all that a machine does, one event after another, as if one lock were round it.
//!
//! This project's own definitions, `World` of `mem_base`. The layer above may rely on it that a legal history leads to every
//! world, and that each call does just the events that its contract names.
#![tactic(auto)]

mod accesses;
mod calls;
mod cells;
mod changing;
mod events;
mod hands;
mod numbers;
mod possible;
mod scripted;
mod world;

pub use world::World;
