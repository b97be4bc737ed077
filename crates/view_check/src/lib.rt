//! Whether a view is the one that QEMU's monitor printed.
//!
//! A line of `info mtree -f` tells a range: its first and last address, its kind, the name of its region, and the offset there. A view
//! is the same where it has just these ranges, in order, each of that kind, of a region named after the monitor's.
#![tactic(auto)]

mod compared;
mod kinds;

pub use compared::{first_difference, is_shown};
pub use kinds::told_kind;
