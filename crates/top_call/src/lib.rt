//! The top call: all that the program `mtree` does, over the words, the source and the sink that it is handed.
//!
//! Its contract says how each ending comes and what is then written. The program hands in those of the process; whoever
//! hands in ends in memory runs scripts in memory. What needs no other threads (`top_runs`), the reading of a script (`script_text`), its
//! run (`script_world`), its race (`race_run`), and the script of a seed (`script_make`) are crates of their own. What a script is, what its
//! commands mean and what each line looks like is defined in `mem_base`.
#![tactic(auto)]

mod machines;
mod racing;
mod top;

pub use top::{exit_code, mtree};
pub use top_runs::{Ending, alone, asks_race};
