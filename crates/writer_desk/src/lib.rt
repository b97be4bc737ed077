//! The writer's desk: the map with its backing, the listeners, and the publish that is due.
//!
//! Each private event of the writer (a call, a begin, a commit, a listener that joins or leaves) is one call here. QEMU's core,
//! `memory_region_transaction_commit` and `memory_listener_register`. The layer above may rely on it that such an event leaves
//! and answers just what the machine's definitions say, that out of memory nothing has changed, and that what is due becomes
//! current without taking memory.
#![tactic(auto)]

mod idle;
mod listened;
mod ready;

pub use idle::{IdleDesk, note_drop};
pub use listened::ListenedDesk;
pub use ready::{Due, Planned};
