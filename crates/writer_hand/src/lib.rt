//! Who makes the shared steps of the writer's calls, and the rows of entries that these come to.
//!
//! A *hand* is a value with `WriterHand`: the pure machine, or the writer's seat of a cabinet. The layer above may rely on it that
//! each call of a hand makes just the entries that its clause names, in order, with the replies that they got.
#![tactic(auto)]

mod hands;

pub use hands::{Loads, Names, WriterHand, Writing};
