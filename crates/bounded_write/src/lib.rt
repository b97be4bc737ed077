//! Writes of a virtual CPU that never wait.
//!
//! A part of a word is replaced by a compare-exchange, which fails where another virtual CPU changed the word meanwhile: `write` of a
//! `Vcpu` tries again until it stands, and so may wait. Here each part is tried at most n times, and the caller gives n. The layer above may rely
//! on it that what is done is the defined write of the first bytes, with the marks of just these, and that it ends before the last one only
//! where a word was found changed each time. A device whose access takes several callbacks may have got the first of them. No call takes
//! memory.
#![tactic(auto)]

mod accesses;
mod chunks;
mod devices;
mod memory;
mod tries;

pub use accesses::{Written, write_bounded};
