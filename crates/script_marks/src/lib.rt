//! Where a line of a script is at fault, and what may stand there.
//!
//! A line is at fault at the first token with which no line of the language begins. Which token that is, and which words and operands may
//! stand in its place, is found by reading texts: one that is the beginning of some line reads as a command, or lacks a token.
#![tactic(auto)]

mod marks;
mod openings;
mod words;

pub use marks::{Mark, mark_of};
pub use words::{fits, nearest, operand_at, words_at};
