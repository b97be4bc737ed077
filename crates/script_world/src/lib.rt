//! The text of a script on the pure machine.
#![tactic(auto)]

mod runs;

pub use runs::run;
