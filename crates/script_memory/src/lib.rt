//! The regions of a script that are read as memory, and the map that is told then.
//!
//! `mscope import` makes a device in place of memory that the machine of a script cannot have, and ends its line with ` # memory`. A run
//! knows nothing of comments. The layer above may rely on it that a `ToldMap` is the map that a script leaves, in which lines tell just
//! those devices as RAM that a line with this comment made: search, views, flags, generations and names are those of the run.
#![tactic(auto)]

mod comments;
mod histories;
mod laws;
mod maps;
mod names;
mod regions;

pub use histories::{ToldHistory, follow_told};
pub use laws::memory_shows_the_same;
pub use maps::{ToldMap, read_told};
pub use script_map::MapStop;
