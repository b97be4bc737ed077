//! Laws of what the cells of regions hold, in histories of the pure machine and of the running one, and of what the running
//! machine may do next.
//!
//! Each law is the contract of a function that does nothing. The definitions of the machines stand in `mem_base`.
#![tactic(auto)]

mod cells;
mod steps;
mod turns;
mod writes;

pub use cells::{cells_hold_last, marks_are_kept, steps_tell_last, words_are_released};
pub use steps::{accesses_may_follow, turns_may_follow};
pub use turns::{turns_keep_marks, turns_make_forests, turns_reuse_released};
pub use writes::writes_are_marked;
