//! Laws of views: what a walk between two views does, what one listener gets of it and in which order two get it, which
//! regions a forest names, which ioeventfds are live, what a change leaves untouched, and how numbers in a row are cut
//! into runs.
//!
//! Each law is the contract of a function that does nothing. The definitions stand in `mem_base`; a layer above rests
//! on a law by calling its function or by citing its proof.
#![tactic(auto)]

mod cuts;
mod deliveries;
mod live_events;
mod naming;
mod touched;
mod walks;

pub use cuts::{replies_are_shown, runs_cover_once};
pub use deliveries::{calls_go_by_priority, each_hears_its_own};
pub use live_events::{lives_agree, lives_are_live};
pub use naming::{events_are_shown, names_are_leaves};
pub use touched::untouched_spaces_stay;
pub use walks::a_walk_replays;
