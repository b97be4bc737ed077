//! The lines of scripts and of their output, as bytes.
//!
//! A command is added to a script's text as one line. Each answer of a run is one line of output, made from the answer
//! and the names that the script gave, and added to a line that the caller keeps.
#![tactic(auto)]

mod accesses;
mod commands;
mod line;
mod lines;
mod listeners;
mod numbers;
mod refusals;
mod spots;

pub use accesses::{
    add_dirty_line, add_dma_line, add_do_line, add_enter_line, add_leave_line, add_notified_line,
    add_read_line, add_released_line, add_write_line,
};
pub use line::Line;
pub use lines::push_command;
pub use listeners::{add_notice_line, add_told_line};
pub use refusals::{add_bad_line, add_refused_line, add_taken_line, add_unknown_line};
pub use spots::{add_at_line, add_range_line, add_view_line};
