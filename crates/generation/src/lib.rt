//! One published state of the memory map.
//!
//! A `Generation` owns a forest, an atlas for each of its spaces, and the places of the regions that it names. QEMU's core
//! publishes a `FlatView` for each address space by itself; here all spaces, translations, ioeventfds and places are
//! published together, so that an access goes by one state throughout. The layer above may rely on it that each atlas holds
//! the view of its space, and that what is asked of a region is what the forest has.
#![tactic(auto)]

mod atlases;
mod generation;
mod places;

pub use atlases::is_leaf_among;
pub use generation::Generation;
