//! The block of a race on the running machine: its actors at work, and what it writes.
//!
//! A runner of a race has the record of the desk, the sixteen virtual CPUs and what is known of names. For the block, those that have
//! lines become actors: the desk with what is known, and each pass with its virtual CPU and its lines, with their tasks where the desk has
//! lines too. After the block the runner has the same again, and the text of the block. The layer above may rely on it that the race so
//! far goes on by just the block and its text; that all have seen the same history then; and out of memory that the race could have gone
//! on.
#![tactic(auto)]

mod blocks;

pub use blocks::block;
pub use race_join::{Config, Record};
pub use race_outside::outside_line;
