//! What a virtual CPU does for a line of a script, and what it answered.
//!
//! A line asks a pass to enter, to leave, to read, to write, or to copy bytes by windows as a device model does. The layer above may
//! rely on it that the pass's own entries of the shared history grew by just those of the line, and that the answer, which is kept as
//! data, says what the line writes; two laws put the line after those that the pass did before. Out of memory nothing was done. Only a
//! write and a copy may wait.
#![tactic(auto)]

mod answers;
mod clips;
mod copies;
mod laws;
mod lines;

pub use answers::LineAnswer;
pub use laws::{lines_are_done, passes_go_on};
pub use lines::{copy, enter, leave, read, write};
