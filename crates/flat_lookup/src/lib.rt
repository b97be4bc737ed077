//! Looking up an address in a flat view.
//!
//! An `Atlas` owns a view and levels of keys over the starts of its ranges: each level has every sixteenth key of the level
//! below it, and the top one has at most sixteen. So a look-up reads one node of at most 16 keys a level. The layer above
//! may rely on it that `at` shows what the view shows, `run_to` says how far the answer goes on, and `has_leaf` says whether some
//! range has a leaf.
#![tactic(auto)]

mod atlas;
mod leaves;
mod levels;

pub use atlas::Atlas;
