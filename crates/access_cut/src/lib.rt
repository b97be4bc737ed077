//! How an access to a device is cut into pieces, which callbacks do a piece, and what a callback does to a register.
//!
//! QEMU's core, `memory_access_size` and `access_with_adjusted_size`. The layer above may rely on it that the pieces,
//! the places of the callbacks, the bytes of a number and the steps on a register are the defined ones. No memory is
//! taken.
#![tactic(auto)]

mod callbacks;
mod cutting;
mod numbers;
mod places;
mod registers;

pub use callbacks::accesses;
pub use cutting::{Cuts, cut};
pub use numbers::{byte_of, number_of};
pub use places::Accesses;
pub use registers::{reply_of, step_of};
