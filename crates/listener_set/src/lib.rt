//! Listeners: who is told how the view of an address space changes, and all that they were told.
//!
//! QEMU's core, `memory_listener_register`, `memory_listener_unregister` and `MEMORY_LISTENER_CALL`. The layer above may
//! rely on it that the journal grows by exactly the calls that joining, leaving and a publish make, in their order, and
//! that `deliver` takes no memory and cannot fail once `reserve` has made its room.
#![tactic(auto)]

mod counting;
mod delivering;
mod journal;
mod order;
mod set;
mod switching;

pub use set::Set;
