//! Laws of a race on the running machine: all have seen one history, and a line outside the block takes the race one step on.
//!
//! Outside the block, and at its end, the record hears what each virtual CPU has seen, and each meets what the record then has: all have
//! then seen one and the same history, to which nobody added anything on the way. The laws of one step take what a runner has at hand
//! when a line is done, the answers to its orders, the entries that were seen and what the line said, and give the race so far with it.
#![tactic(auto)]

mod level_laws;
mod step_laws;

pub use level_laws::{desk_settles, pass_settles};
pub use step_laws::{actors_are_level, desk_lines_step, orders_are_written, pass_lines_step};
