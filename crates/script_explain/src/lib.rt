//! What is wrong with a script, in words: of each refusal and each cause what it means, what to do, and an example.
#![tactic(auto)]

mod carets;
mod choices;
mod lines;
mod texts;
mod topics;

pub use texts::{add_bad, add_fault, add_refused, add_topic};
pub use topics::{Topic, topic_of};
