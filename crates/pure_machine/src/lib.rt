//! The pure machine for its users: whole calls of the writer, and accesses of passes.
//!
//! Between two calls nothing is due or unfilled, and each pass may make an access; so no call asks for more than that its pass is one
//! of the 16, that a pass that enters is out, and that one that leaves is in. The single events of the machine are those of
//! `world_core`, whose calls this crate hands on. The layer above may rely on it that each call is the one that the definitions name,
//! with events that are legal where they stand.
#![tactic(auto)]

mod calls;
mod machine;
mod passes;

pub use machine::PureMachine;
