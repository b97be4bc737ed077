//! What the block of a race has before it and after it: the room for its actors, their seats, and what it writes.
//!
//! For a block, those that have lines become actors: the desk with what is known, and each pass with its virtual CPU and its lines, with their tasks
//! where the desk has lines too. After the block the virtual CPUs are back in their places, and it is known what the desk knows. The layer above
//! may rely on it that what the block writes is told by what its actors got, and by the laws of a block, which take what stands before it and what
//! its run leaves, that the race so far goes on by just the block and its text; and out of memory that the race could have gone on.
#![tactic(auto)]

mod laws;
mod rooms;
mod seats;
mod tasks;
mod texts;

pub use laws::{blocks_may_stop, blocks_step_on};
pub use rooms::{PassRoom, Room, Work, acts, room_for};
pub use seats::{Seated, desks_known, known_after, seat, seat_desk, unseat_passes};
pub use tasks::{deal, prepare_all};
pub use texts::add_block;
