//! The ioeventfds that a view shows, how they differ between two views, and which one a write sets.
//!
//! QEMU's core, `address_space_update_ioeventfds` and `memory_region_dispatch_write_eventfds`. The layer above may rely
//! on it that a list of live ioeventfds has each one once, in order, and that what is lost and what is gained share
//! nothing.
#![tactic(auto)]

mod differing;
mod living;
mod matching;

pub use differing::differ;
pub use living::live;
pub use matching::matches;
