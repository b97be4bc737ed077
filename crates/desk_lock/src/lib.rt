//! The writer's desk that several threads share, one order at a time.
//!
//! A `Record` is the desk with what was asked of it; a `DeskLock` puts it behind a lock, and each thread orders through that with a
//! `Clerk`, which writes down what it got. QEMU's core has its one big lock for this. The layer above may rely on it that the writer's
//! own entries in the one history, its part and the record's entries are those of the turns of the orders; that an answer which tells
//! the number of a generation comes with a note that has seen it published, and shown by it the call that was ordered; and that
//! `close` tells where a clerk's list is not what the record has.
#![tactic(auto)]

mod asking;
mod drafts;
mod laws;
mod locks;
mod orderly;
mod records;
mod settling;
mod turning;

pub use config_desk::{Config, Patience};
pub use desk_orders::{
    Clerk, Orderly, Receipt, closes_one_way, first_is_empty, later_makes_turns, receipts_stay,
};
pub use laws::records_grow;
pub use locks::{DeskLock, Naming};
pub use mem_base::{DeskAnswer as Answer, DeskEntry as Entry, DeskOrder as Order, Differs};
pub use orderly::Shared;
pub use records::Record;
