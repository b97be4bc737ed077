//! The writer's seat of a cabinet as the hand of the writer's calls.
//!
//! The layer above may rely on it that a call of the writer adds just the entries of the defined turn to the writer's own entries in
//! what the seat has seen of the one history.
#![tactic(auto)]

mod hands;
mod passing;
mod recent;
mod steps;

pub use hands::{LoadingSeat, SeatBatch, SeatHand};
pub use recent::Recent;
