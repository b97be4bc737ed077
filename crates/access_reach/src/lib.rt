//! Accesses over any machine: what its memory and its devices answer, in the order of the plan.
//!
//! Who answers is a *bus*: it reads and writes the memory of regions, calls the callbacks of their devices, sets notifiers and marks
//! pages. QEMU's core, `address_space_rw` of physmem.c, with the callbacks of `MemoryRegionOps`. The layer above may rely on it that a
//! bus is asked for what the plan of the access reaches, in order and for nothing else, and that the bytes and the result are those
//! that its replies give: by chunks, or by the rounds of QEMU's core. Memory of the host is asked for as RAM is.
#![tactic(auto)]

mod accesses;
mod boards;
mod buses;
mod cores;
mod devices;
mod leaves;
mod marks;
mod peeks;

pub use accesses::{read, read_by, write, write_by};
pub use boards::{Board, Parts};
pub use buses::{Answering, Answers, Bus, Takes, Taking};
pub use cores::{core_read, core_write};
pub use peeks::calls_device;
