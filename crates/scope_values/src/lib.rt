//! What the commands of `mscope` answer, as values of JSON.
//!
//! Each function makes the value of one thing that a command tells: a finding, a step, a search, a row, a topic. Addresses and offsets are
//! texts, `0x` and lower-case hexadecimal; names and words are as the plain answers have them. The layer above may rely on it that each value
//! is the defined one.
#![tactic(auto)]

mod findings;
mod looks;
mod ranges;
mod rows;
mod searches;
mod steps;
mod topics;

pub use findings::finding_list;
pub use ranges::found;
pub use rows::row_list;
pub use searches::search_list;
pub use steps::{change, slot};
pub use topics::topic;
