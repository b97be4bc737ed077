//! The cabinet: generations of the map that virtual CPUs read without a lock.
//!
//! One writer publishes generations, and each virtual CPU reads through a pass of its own, beside the writer. This
//! stands in place of QEMU's RCU read sections; that at most eight generations are kept, and that each step is one
//! atomic step on one word, are this project's own rules. All steps of a cabinet form one history, which is legal by
//! `mem_base/specs/machine/SharedHistory`, and what each seat has seen is a first part of it. The layer above may rely
//! on: `enter` enters the generation that is current at that moment, which stays readable until `leave`; `publish` is
//! held up only by a pass that may still use the oldest of eight; no call waits.
#![tactic(auto)]

mod batches;
mod board;
mod cabinet;
mod closing;
mod handing;
mod hands;
mod laws;
mod loads;
mod opening;
mod passes;
mod plans;
mod steps;
mod touches;
mod views;
mod writers;
mod writing;

pub use batches::Batch;
pub use cabinet::Cabinet;
pub use hands::Hand;
pub use laws::{seats_begin_one_history, taken_slots_are_free};
pub use passes::{Note, Pass};
pub use touches::Touch;
pub use views::Sizes;
pub use writers::{Held, Swept, WriterSeat};
