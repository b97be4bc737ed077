//! The words of the command line of `mscope`, read by `clap`, and what they ask for.
//!
//! Each command is a subcommand with its files and names; `--help` and `--version` are clap's. The layer above may rely on it that a request is the
//! one which clap's meaning of the words gives, and that an error of clap has a kind which that meaning gives.
#![tactic(auto)]

mod commands;
mod read;
mod requests;

pub use read::{Asked, read_words};
pub use requests::{Request, Style};
