//! Which spaces a change of the map touches, and what the listeners of each are told.
//!
//! The regions that calls change are noted, and of each space it is known which regions are reached in it. The layer above may rely on
//! it that where no noted region is near a space, the space is not touched and the same regions are reached in it; and that what is told
//! of a space is the defined change from the current generation's view to the view of the new forest.
#![tactic(auto)]

mod changes;
mod noted;
mod regions;
mod touched;

pub use changes::change_at;
pub use noted::{Noted, noting};
pub use regions::{Regions, is_same_space, reach_of};
