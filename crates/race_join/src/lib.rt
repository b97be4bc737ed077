//! The actors of a race's block beside one another, over one desk, and the history that all have seen then.
//!
//! The actors share the desk behind a lock, each in a thread of its own where one can be made. After the threads the record of the desk hears what
//! all have seen, and each virtual CPU meets what the writer has seen. The layer above may rely on it that each actor did its lines, or the first of
//! them where memory ran out; that all virtual CPUs have then seen just the record's history; and that it is told how the lists of those that
//! ordered stand to the record.
#![tactic(auto)]

mod acting;
mod joining;

pub use desk_lock::{Config, Naming, Record};
pub use joining::run_block;
