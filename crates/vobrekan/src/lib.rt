//! QEMU's guest memory model, proved: one crate to stand on.
//!
//! A program that lists this crate alone has all of the model. It begins with one of four types:
//!
//! - `Map`: regions, address spaces and what they show, with nothing that runs. For tools that build or check memory maps.
//! - `PureMachine`: a map with listeners, transactions that publish, memory with its bytes, devices and virtual CPUs, all on one
//!   thread. For emulators of one thread, and for tests.
//! - `Config` with its `Vcpu`s: the same, where up to sixteen virtual CPUs read and write on threads of their own while the
//!   `Config` changes the map. For monitors.
//! - `DeskLock`: a `Config` that several threads share, one order at a time.
//!
//! What each call does is said by its contract, in the words of the definitions of `mem_base`.
#![tactic(auto)]

/// Accesses over a bus of one's own: what implements `Answers` or `Takes`.
pub mod buses;
mod maps;
mod placing;
mod regions;
mod settings;
mod tables;
mod transactions;

pub use access_reach::{Answers, Board, Bus, Parts, Takes};
pub use config_desk::{Config, Patience};
pub use desk_lock::{Clerk, DeskLock, Receipt, Record};
pub use epoch_rule::{Cabinet, Note, Pass};
pub use generation::Generation;
pub use io_window::{
    Bounce, Closed, NoBounce, Window, copy, open, read_by_windows, write_by_windows,
};
pub use maps::Map;
pub use mem_base::{
    Access, Applied, Attrs, Call, Change, Changes, Client, DeskAnswer, DeskOrder, Device,
    DeviceKind, Entries, Entry, Events, FlatRange, Forest, Ioevent, Kind, ListenerEvent,
    ListenerId, Node, NotifierId, Ops, PassId, Path, Perm, RangeEvent, Refusal, RegionId, Size,
    SpaceId, Spot, TxResult, View,
};
pub use pure_machine::PureMachine;
pub use transactions::Transaction;
pub use vcpu_pass::{NotWhole, Vcpu};
