//! Which dropped regions may be released: those that no generation which a pass may still use names.
//!
//! QEMU's core counts the references to each region (`memory_region_ref`); here a `Ledger` notes of each region the number of
//! the last generation that names it. The layer above may rely on it that a ledger that has seen each generation answers just
//! the dropped regions that no generation from the lowest number on names, the least first.
#![tactic(auto)]

mod laws;
mod ledger;
mod notes;

pub use laws::released_are_those_due;
pub use ledger::Ledger;
pub use notes::Note;
