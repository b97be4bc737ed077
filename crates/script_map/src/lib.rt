//! The map that a script leaves, for tools that look at it.
//!
//! A script's commands are done on a machine of its own, one after another, and what is left is handed out: the current generation, the
//! names, and which commands were refused. The layer above may rely on it that this is the state that the definitions of a run give the
//! script, and on each generation that the commands publish on the way.
#![tactic(auto)]

mod histories;
mod maps;
mod reading;
mod refused;

pub use histories::{History, follow};
pub use maps::{ScriptMap, after};
pub use reading::{MapStop, read};
pub use refused::RefusedLine;
