//! How deep and how wide the regions of a forest are, kept as the forest changes.
//!
//! Depth and weight are those of `depth_of` and `weight_of` of `mem_base`. `Kept` holds both for each region, with the
//! aliases of each; where a region is placed in a container or taken out of one, only what stands above it is looked
//! at again. The layer above may rely on this: what is kept is what is defined, or `Kept` says that it is out of date.
#![tactic(auto)]

mod extents;
mod ids;
mod journal;
mod kept;
mod limits;
mod paths;
mod raising;
mod rounds;

pub use extents::{Extent, Join, widest};
pub use ids::Ids;
pub use kept::{Kept, is_alias_of, kept_extent, place_of_target};
pub use limits::stays_within;
pub use paths::{depth_within, mark_within, reaches_within, weight_within};
pub use rounds::lengthened;
