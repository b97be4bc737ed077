//! Transactions: the desk at which the writer changes the map, and what it prepares before a generation becomes current.
//!
//! QEMU's core, `memory_region_transaction_begin` and `memory_region_transaction_commit`: only the outermost commit acts, and
//! a call outside all transactions is one by itself. The layer above may rely on it that a prepared generation shows what the
//! forest shows, that only spaces that the change touches are carved anew, that preparing changes nothing, and that `done`
//! takes no memory and cannot fail.
//!
//! `BackedDesk` is the desk with the pool in which its regions have their words: memory, registers and dirty marks. A region
//! that is made gets its words at once, in the first hole that fits, or the call is refused; they are given back when the region
//! is released. QEMU's core allocates the RAM of each region by itself. Every region that has words has its place, no two places
//! meet, and a refused call leaves desk and pool as they were.
#![tactic(auto)]

mod backed;
mod desk;
mod marks;
mod prepared;
mod preparing;
mod shown;
mod spare;

pub use backed::BackedDesk;
pub use desk::Desk;
pub use prepared::{Prepared, Step};
