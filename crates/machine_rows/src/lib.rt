//! Worked examples of the definitions, each an equation that the checker computes.
//!
//! Expected values come from outside: from QEMU's manual, or worked by hand. A function that does nothing has the rows
//! as its contract.
#![tactic(auto)]

mod rows;

pub use rows::{
    accesses_compute, histories_compute, host_memory_computes, listeners_compute, parts_compute,
    turns_compute, worlds_compute,
};
