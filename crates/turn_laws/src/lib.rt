//! The law that joins the running machine to the pure one, and what follows from it.
//!
//! On the running machine a call of the writer is a turn: the replies that its shared events got say all that it does.
//! A history in which the writer's entries are those of turns is one of the pure machine, with the private events put
//! in.
#![tactic(auto)]

mod turns;

pub use turns::{turns_hold_together, turns_join, turns_replay};
