//! Windows on a space: bytes are moved between the caller and the guest's memory without an access for each word.
//!
//! QEMU's core maps a part of a space for a device model (`address_space_map`, `address_space_unmap`): directly where RAM
//! answers, and else through a bounce buffer. Here a window keeps the pass of its virtual CPU in one generation from `open`
//! to `close`. The layer above may rely on it that a window that is got or put whole and then closed has exactly the events
//! of the defined access of its length, and gives its bytes and its result; a direct write is followed by its marks at
//! `close`. `read_by_windows`, `write_by_windows` and `copy` move any number of bytes so, by a window over each direct chunk and
//! a bounce for the rest, as a device model does by QEMU's `dma_memory_read` and `dma_memory_write`: theirs are exactly the
//! events of the one defined access, or of the two. Only what writes may wait. No call takes memory but `Bounce::new`.
#![tactic(auto)]

mod bounces;
mod buffers;
mod closings;
mod copies;
mod direct;
mod laws;
mod moves;
mod openings;
mod windows;

pub use bounces::Bounce;
pub use copies::copy;
pub use direct::{Memory, memory_at};
pub use laws::{access_is_cut, direct_puts_are_marked, whole_get_is_read, whole_put_is_write};
pub use moves::{joined, read_by_windows, write_by_windows};
pub use openings::open;
pub use windows::{Closed, NoBounce, Window};
