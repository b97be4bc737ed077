//! The text of a script: its commands are done one after another over a machine, and each writes its lines to a sink.
//!
//! A `Session` is what stands between two commands, for whoever looks at the machine between them.
#![tactic(auto)]

mod desk;
mod faults;
mod orders;
mod passes;
mod pieces;
mod runs;
mod session;

pub use faults::RunFault;
pub use runs::run_on;
pub use script_machine::Machine;
pub use session::Session;
