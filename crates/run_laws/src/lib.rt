//! Laws of what a script means: the numbers in its commands fit, its run is one legal history of the pure machine, and each
//! command does what its names say.
//!
//! Each law is the contract of a function that does nothing. The definitions of scripts and of the machine stand in `mem_base`.
#![tactic(auto)]

mod fitting;
mod lines;
mod runs;

pub use fitting::read_commands_fit;
pub use lines::{lines_are_tasks, orders_are_known};
pub use runs::{forests_are_made, runs_are_lawful};
