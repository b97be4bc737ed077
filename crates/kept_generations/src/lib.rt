//! The generations that are kept, and what is known of each pass.
//!
//! QEMU's core keeps a `FlatView` while it has references, and frees it after an RCU grace period. Here at most eight
//! generations are kept, the current one first; a pass announces a number before it enters, and the writer sweeps what the
//! passes announced. No call but `new` takes memory. The layer above may rely on it that each call does what the pure machine's
//! event of that name does, and that the generation of a number is the one that was published with it.
#![tactic(auto)]

mod kept;
mod numbers;
mod passes;
mod tracks;

pub use kept::{Kept, sweeps_are_one, sweeps_are_run};
