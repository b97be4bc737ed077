//! Watchers of IOMMU regions' tables: who watches which range of a table, and all that they were told.
//!
//! QEMU's `IOMMUNotifier` with its range. That a watcher is told the whole difference at once, when it catches up with a
//! generation, is this project's own rule. The layer above may rely on it that the notices of a watcher, one after
//! another since it joined, leave it just the parts of the table in its range, however many generations were passed over.
#![tactic(auto)]

mod differences;
mod notices;
mod parts;
mod watchers;

pub use notices::Notices;
