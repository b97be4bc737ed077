//! Laws of the pure machine that a program over it stands on: the places that its passes may reach stand, and the steps
//! of an access are possible one after another.
//!
//! Each law is the contract of a function that does nothing. The definitions of the machine stand in `mem_base`.
#![tactic(auto)]

mod accesses;
mod orders;
mod passes;
mod places;

pub use accesses::accesses_are_possible;
pub use orders::orders_are_legal;
pub use passes::{entered_generations_are_held, steps_are_possible};
pub use places::held_places_stand;
