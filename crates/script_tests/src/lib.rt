//! Tests of the script language and of what a program reads and writes: texts at its edges, the names that a script makes, what lines of
//! races ask for and write, and the ends in memory and of the standard library.
//!
//! No crate stands on this one. What is tested here is what no clause says: that the rules which the contracts cite are those
//! of the language, by texts whose commands or faults were worked out by hand; that names are made and let go as a desk accepts; and
//! that the calls answer with ample memory.
#![tactic(auto)]

#[cfg(test)]
mod ends;
#[cfg(test)]
mod known_names;
#[cfg(test)]
mod names;
#[cfg(test)]
mod passes;
#[cfg(test)]
mod phases;
#[cfg(test)]
mod texts;
