//! Laws of histories: what holds of passes and generations, of the forests and places that are published, of what a reap
//! releases, and of what listeners make of their calls, after every legal history of the pure machine; and what holds
//! after every legal history of the running machine by its shared part alone.
//!
//! Each law is the contract of a function that does nothing. The definitions stand in `mem_base`; a layer above rests
//! on a law by calling its function or by citing its proof.
#![tactic(auto)]

mod histories;
mod numbers;
mod places;
mod releasing;
mod replays;

pub use histories::{
    each_event_keeps_order, few_generations_are_kept, generations_are_committed,
    legal_histories_are_in_order, publishes_are_committed,
};
pub use numbers::{own_entries_are_the_writers, shared_histories_are_sound};
pub use places::{generations_show_their_places, shown_places_are_its_own};
pub use releasing::{free_passes_release_all, reaps_release_unnamed, regions_are_dropped_once};
pub use replays::{all_calls_replay, later_calls_replay, listeners_replay};
