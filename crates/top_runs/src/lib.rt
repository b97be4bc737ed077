//! What the program `mtree` does without other threads, over the words, the source and the sink that it is handed: all but `race`.
//!
//! The contracts say how each ending comes and what is then written. The layer above may rely on it that a script that is read is run, and
//! its text or the line of its first fault written; and that a fault has its cause.
#![tactic(auto)]

mod endings;
mod kept;
mod running;
mod seeds;
mod tasks;

pub use endings::Ending;
pub use running::{refuse, too_long};
pub use tasks::{alone, asks_race};
