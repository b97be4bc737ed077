//! Where a change of some regions may be seen, between a forest and the tree that differs from it in these regions alone.
//!
//! `differs`, `keep_ways` and `spans_of` compare two states of the changed regions and look at what stands above them; nothing
//! goes over all regions. The spans are guessed, by a walk up from the changed regions through containers and aliases, and then verified, so how
//! they were guessed does not matter. The layer above may rely on it that outside of them a search finds what it found.
//!
//! QEMU's core renders every space again when a transaction ends; all this is this project's own.
#![tactic(auto)]

mod alike;
mod closing;
mod guessing;
mod reaches;
mod seen;
mod ways;

pub use alike::{differs, is_same_region};
pub use reaches::{Reach, Span, hull};
pub use seen::spans_of;
pub use ways::keep_ways;
