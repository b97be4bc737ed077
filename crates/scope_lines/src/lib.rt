//! The lines that tell why a region answers an address, and what looks wrong in a map.
//!
//! What `find_why` and `map_lint` answer, as text for a person, with the names that a script gave. Addresses and offsets are lower-case
//! hexadecimal, counts are decimal. The layer above may rely on it that each text is the defined one.
#![tactic(auto)]

mod faults;
mod hops;
mod looks;

pub use faults::add_finding_lines;
pub use hops::{add_region_lines, add_why_lines};
