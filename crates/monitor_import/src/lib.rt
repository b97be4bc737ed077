//! A script made of what QEMU's monitor prints of a machine.
//!
//! The monitor's texts do not say all that a script does, so the reading is a guess: which lines tell one region, what only groups
//! others, which of two regions of one priority is tried first, and which windows are read-only. Where flat views are given, they
//! settle what they can. The layer above may rely on it that the text that is made is a script.
#![tactic(auto)]

mod choices;
mod drafts;
mod draws;
mod evidence;
mod faults;
mod flats;
mod kinds;
mod loops;
mod names;
mod orders;
mod plans;
mod reaches;
mod regions;
mod spaces;
mod stands;
mod targets;
mod trees;
mod wanted;

pub use drafts::draft;
pub use faults::ImportFault;
