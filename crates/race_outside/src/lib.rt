//! A line of a race outside the block, on the running machine: the desk's, or a pass's.
//!
//! The desk gives the orders of its line to the record; a pass enters, leaves or accesses memory on its virtual CPU, or gives an order
//! of its own. Then all virtual CPUs and the record see the same history again, also where memory ran out. The layer above may
//! rely on it that the race so far goes on by just that line and its text; and out of memory that the race could have gone on.
#![tactic(auto)]

mod desks;
mod levels;
mod lines;
mod passes;

pub use desks::desk_line;
pub use levels::{level, meet_all};
pub use lines::outside_line;
pub use passes::pass_line;
