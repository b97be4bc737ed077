//! Laws of plans, which say what an access reaches in memory, devices, notifiers and marks, before any words.
//!
//! The defined access is what the words do for its plan. QEMU's core has a way of its own, in which a piece of a device is not
//! cut at its range's end, and in which the flag of a region itself says whether it takes writes; the two reach the same where no
//! piece reaches past its range and no window makes read-only what a write meets.
#![tactic(auto)]

mod agreements;
mod plans;

pub use agreements::{even_ranges_agree, one_chunk_agrees, plans_agree};
pub use plans::access_is_planned;
