//! The actors of a race's block: what each does line by line, and keeps.
//!
//! A pass has its lines with their tasks, which were resolved before the block, or with names that nobody changes in the block; and a clerk for its
//! orders to the desk. It reaches a gate before each line. Where its names are still to be resolved and none of its lines gives an order, it resolves
//! and does each line and adds what it wrote to its text before the next one, and keeps that text alone. Else it keeps the tasks of its lines and what
//! they got, and makes their text too where none gave an order, while it is still beside the others. The layer above may rely on it that the pass
//! did its lines in order, or the first of them where memory ran out; that its own entries in the shared history are those that the script's
//! definition has for these lines; that what it does after an order that published a generation stands after that in the history; and, where memory
//! lasted, that the text that it keeps is what the lines wrote.
//!
//! An actor asks whoever takes orders, and the layer above lets the actors run beside one another; what it may rely on then is here too: what an
//! actor is once its clerk was taken, its notes were heard, and its virtual CPU has met what the writer has seen.
#![tactic(auto)]

mod blocks;
mod clerks;
mod desks;
mod few;
mod laws;
mod passes;
mod plain;
mod resolving;
mod spaces;
mod tasks;
mod texts;

pub use blocks::{BlockActor, act};
pub use clerks::take_clerks;
pub use desk_orders::Clerk;
pub use desks::DeskActor;
pub use few::FewBytes;
pub use laws::passes_keep_lines;
pub use passes::PassActor;
pub use resolving::resolve_lines;
pub use tasks::{BlockLine, LineGot, OwnLine, PassLines, PassTask};
pub use texts::{add_answer, add_few, add_refusal, tasks_in};
