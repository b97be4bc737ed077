//! What looks wrong in a script, line by line: refused commands with the line that takes each along, transactions that are left open, and a
//! block in which nothing runs side by side.
//!
//! The layer above may rely on it that each line that is told is the defined one, and that none is left out.
#![tactic(auto)]

mod blocks;
mod names;
mod refusals;
mod transactions;

pub use blocks::{add_idle_block, idle_par};
pub use refusals::{add_refusals, taken_along_by};
pub use transactions::{add_unclosed, unclosed};
