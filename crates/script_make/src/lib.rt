//! The script that a seed gives: regions of four kinds made in one transaction, and then reads and writes of them.
//!
//! Its commands are drawn from the words of `rand_pcg`, in the order that the definition says, and its text reads as these commands.
#![tactic(auto)]

mod accesses;
mod draws;
mod laws;
mod regions;
mod scripts;
mod texts;

pub use laws::seeds_give_scripts;
pub use scripts::generated;
pub use texts::text_of_seed;
