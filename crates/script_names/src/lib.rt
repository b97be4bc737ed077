//! The names that a script has made: what each stands for, and what everything was called.
#![tactic(auto)]

mod names;
mod tables;

pub use names::Names;
pub use tables::NameTable;
