//! What is written down of the orders to the writer's desk, whoever keeps the desk.
//!
//! A `Receipt` is what who ordered is told, and a `Clerk` writes it down; `Orderly` is what takes orders. A `Draft` is an entry that lacks its
//! answer, made before the order so that nothing takes memory after it. The layer above may rely on it that an entry is that of the receipt,
//! and that `differs_in` tells where the clerks' lists are not what the entries have.
#![tactic(auto)]

mod clerks;
mod differing;
mod drafts;
mod laws;
mod orderly;
mod orders;
mod telling;

pub use clerks::Clerk;
pub use differing::differs_in;
pub use drafts::{Draft, pages_at, written};
pub use laws::{closes_one_way, first_is_empty, later_makes_turns, receipts_stay};
pub use orderly::Orderly;
pub use orders::Receipt;
pub use telling::{told_call, told_commit, told_harvest, told_plain, told_reap};
