//! What an access reaches, as a list: memory, callbacks of devices, notifiers, pages to be marked, and nothing.
//!
//! A monitor that keeps its own memory and its own devices asks for the list at an exit of its guest, and then does what the list
//! says. QEMU's core, `address_space_rw` of physmem.c and `memory_region_dispatch_write` of memory.c, without the accesses themselves.
//! The layer above may rely on it that the list is the defined plan, in which memory of the host answers as RAM does: by chunks, or by
//! the rounds of QEMU's core. Nothing is read or written.
#![tactic(auto)]

mod accesses;
mod answerers;
mod devices;
mod laws;
mod leaves;
mod lists;
mod notifiers;
mod pages;
mod requests;
mod rounds;

pub use accesses::{core_plan_read, core_plan_write, plan_read, plan_write};
pub use answerers::{Answerer, answerer_by, answerer_of};
pub use laws::{core_plan_is_defined, plan_is_defined};
pub use lists::Reach;
pub use notifiers::notifier;
pub use requests::Request;
pub use rounds::{Round, next_round};
