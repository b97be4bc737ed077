//! What QEMU's monitor prints of a machine, made a script of which no command is refused.
//!
//! A script that was guessed (`monitor_import`) is run, and each line that is refused becomes a comment that says why, until none is. The
//! layer above may rely on it that the text which is answered is a script, and that just as many of its commands are refused as is told.
#![tactic(auto)]

mod imports;
mod refusals;
mod rounds;

pub use imports::{Imported, import};
