//! The text of a script: reading it, printing it, the names that it makes, and the lines that its run writes.
//!
//! A text is a script, or its first line at fault is named with the cause. What is printed of a script reads as the
//! same commands.
#![tactic(auto)]

mod changes;
mod desk;
mod faults;
mod forms;
mod lines;
mod passes;
mod printing;
mod read_lines;
mod regions;
mod scripts;
mod spellings;
mod stops;
mod tokens;
mod words;

pub use faults::ParseFault;
pub use printing::{pool_words, print};
pub use read_lines::{DESK_NUMBER, actor_number, pass_of_line};
pub use script_lines::{
    Line, add_at_line, add_bad_line, add_dirty_line, add_dma_line, add_do_line, add_enter_line,
    add_leave_line, add_notice_line, add_notified_line, add_range_line, add_read_line,
    add_refused_line, add_released_line, add_taken_line, add_told_line, add_unknown_line,
    add_view_line, add_write_line,
};
pub use script_names::{NameTable, Names};
pub use scripts::{MOST_TEXT, Script, parse};
pub use spellings::digits;
pub use tokens::Tokens;
