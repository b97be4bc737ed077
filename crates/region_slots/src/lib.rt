//! Regions by ascending id, each with its children in the order of search.
//!
//! `Slots` holds the regions of a forest and keeps, beside each, what a search needs of its children. The layer
//! above may rely on this: the slots are seen as the list of their regions, the children that stand with a region
//! are those that `children_of` of `mem_base` gives, and each change is that of the definitions.
#![tactic(auto)]

mod children;
mod edits;
mod slots;

pub use children::{Child, Children};
pub use slots::{Slot, Slots, copied, place_of};
