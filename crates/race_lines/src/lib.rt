//! What the lines of a script ask for, and what they write, when the machine is elsewhere.
//!
//! A line's names are resolved by what is known of names, and by that alone; then the line asks the desk for an order, or a
//! pass for an access. What it writes is made of the answers. The layer above may rely on it that tasks, what is known after
//! a line and each line's text are those of the definitions of a race, whoever gives the answers.
#![tactic(auto)]

mod answered;
mod answers;
mod changes;
mod commands;
mod desk;
mod known;
mod laws;
mod lists;
mod passes;
mod said;
mod shown;
mod tasks;
mod watching;

pub use answered::Answered;
pub use answers::{add_answer, add_do_answer};
pub use changes::{call_of, ioevent};
pub use commands::task_of;
pub use known::{KnownNames, next_number};
pub use laws::{lines_are_kept, lines_go_by_answers};
pub use lists::{
    add_differs_line, add_notice_lines, add_range_lines, add_released_lines, add_told_lines,
    delivered_between, later,
};
pub use passes::{PassSaid, add_name_refused};
pub use said::LineSaid;
pub use shown::{add_found, add_shown, found_in, ranges_in};
pub use tasks::{LineTask, Naming, Refused, ResolvedTask};
