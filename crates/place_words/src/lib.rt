//! The words of a pool and of the notifiers, seen as the cells of places.
//!
//! QEMU's core backs each region by a block of its own. Here all backing is one pool of words of 8 bytes, and after it
//! stand the words of the notifiers. The layer above may rely on it that a step on a word of a place is a step on that
//! cell of the place's region alone, and that the cells of a place stay as other places come and go.
//! `Unfilled` has the cells of the region that was made last, as long as they are not all cleared.
#![tactic(auto)]

mod laws;
#[cfg(test)]
mod tests;
mod unfilled;
mod words;

pub use laws::{
    fewer_places_keep_cells, first_cells_are_zero, new_places_are_cleared, places_keep_cells,
    steps_are_on_cells,
};
pub use unfilled::Unfilled;
pub use words::Words;
