//! The writer's desk of the running machine.
//!
//! `Config` joins the writer's seat of a cabinet with the desk, the listeners and the dropped regions. The layer above may rely on it
//! that each call is one turn: it adds just the entries of the defined turn, leaves its writer's part, and answers its answer; that the
//! writer's own entries in what the seat has seen are those of turns from the first one on, so all laws of turns hold of it; and that
//! out of memory nothing has happened.
#![tactic(auto)]

mod config;
mod laws;
mod loading;
mod passing;
mod settling;

pub use config::Config;
pub use settling::Patience;
