//! Memory slots for a hypervisor, as KVM has them: which parts of an address space a guest reaches as memory, without an exit.
//!
//! Memory is cut at every edge that a view of the history shows, once and for all. So a slot never spans an edge, and a window
//! that is switched touches its own slots alone; a page that is shown alike keeps its slot.
#![tactic(auto)]

mod edges;
mod pieces;
mod tables;
mod texts;

pub use edges::Edges;
pub use tables::{alike_pages_keep_their_slot, steps, table};
pub use texts::{add_header, add_slot, add_step};
