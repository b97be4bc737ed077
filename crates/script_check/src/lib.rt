//! Whether the spaces of a script show what QEMU's monitor printed.
//!
//! Each space of a script is compared with the views of `info mtree -f` that name it, range by range (`view_check`). The layer above may
//! rely on it that a space is told as `same` only where its view is one of these, and that else the first range that differs is told.
#![tactic(auto)]

mod blocks;
mod checks;
mod faults;
mod lines;
mod missed;
mod verdicts;

pub use blocks::{Block, blocks_of};
pub use checks::{Checked, check};
pub use faults::CheckFault;
pub use verdicts::{Verdict, verdict_of};
