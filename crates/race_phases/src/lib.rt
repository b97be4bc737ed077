//! The phases of a script under `race`, and whose line each is.
//!
//! The lines outside the block follow one another; in the block the desk and up to sixteen passes run beside each other, each
//! with its own lines. The layer above may rely on it that the parts which are handed out are the phases of the definition of
//! a race, and the lines of an actor all of its lines in order.
#![tactic(auto)]

mod actors;
mod parts;

pub use actors::{actors_in, has_line, lines_by};
pub use parts::{Parts, parts_of};
pub use script_text::{DESK_NUMBER, actor_number, pass_of_line};
