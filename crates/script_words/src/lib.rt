//! The words of the program's command line, read by `clap` as one level of subcommands.
#![tactic(auto)]

mod read;
mod seeds;
mod stops;

pub use read::task_of;
pub use stops::WordsStop;
