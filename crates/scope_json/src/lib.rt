//! The answers of `mscope` as JSON.
//!
//! `mscope_json` does what `mscope` of `scope_run` does, and writes each answer as one JSON text in a line. The layer above may rely on it that
//! the text reads back as a value, by the meaning of `serde_json`, and that this value tells what the definitions give for the bytes that the
//! files hold: the same that the plain answers tell.
#![tactic(auto)]

mod answers;
mod differing;
mod drawing;
mod explaining;
mod linting;
mod monitoring;
mod slotting;
mod top;
mod whys;

pub use answers::Told;
pub use top::mscope_json;
