//! The commands of `mscope`, which answer questions about the map of a script.
//!
//! Each command is a call over the bytes of scripts, and answers a text; `mscope` reads the files that a request names, does the command,
//! and writes the answer. The layer above may rely on it that each text is the defined one for the map that the script leaves.
#![tactic(auto)]

mod answers;
mod differing;
mod drawing;
mod endings;
mod explaining;
mod faults;
mod files;
mod importing;
mod linting;
mod monitor_files;
mod slotting;
mod top;
mod views;
mod whys;

pub use answers::{Answer, Fault, Which, stopped};
pub use differing::{diff, difference_of, differs, is_kept, space_of};
pub use drawing::{draw, rows_in};
pub use endings::Ending;
pub use explaining::{explain, explain_topic};
pub use files::Files;
pub use importing::{MonitorStop, check, import};
pub use linting::lint;
pub use monitor_files::{answer_check, answer_import};
pub use scope_words::{Request, Style};
pub use script_lint::{idle_par, taken_along_by, unclosed};
pub use script_memory::{ToldHistory, ToldMap, follow_told, read_told};
pub use slotting::{edges_of, slot_number, slots, table_in};
pub use top::{address_of, mscope, name_of, refuse, region_of, say, text_in};
pub use views::{space_count, view_in};
pub use whys::{region_asked, why};
