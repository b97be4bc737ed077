//! Where a program's bytes come from and where its text goes, with counts of what failed.
//!
//! `Source` and `Sink` say of a reader and a writer what they have left, what they took, and how often they
//! failed. A call that is generic over them can't raise the count by itself, so "this failure only where the
//! count rose in this call" means that something outside failed. The layers above rely on three facts: a
//! failure is answered only where the count rose, `read_all` answers all that the source had, and what
//! `write_all` wrote before a failure is a prefix of the piece.
//!
//! `MemSource` and `MemSink` are ends in memory that fail at the calls which a test lists; `CalmSource` and
//! `CalmSink` never fail; `StdSource` and `StdSink` adapt the standard library's readers and writers, and are
//! the trusted edge of a program. A `Gate` is a point that each actor of a race reaches before each of its
//! lines, so that a test can hold it there.
#![tactic(auto)]

mod calm;
mod faults;
mod gate;
mod memory;
mod remainder;
mod schedule;
mod sink;
mod source;
mod standard;

pub use calm::{CalmSink, CalmSource};
pub use gate::{Actor, Gate, OpenGate};
pub use memory::{MemSink, MemSource};
pub use sink::{Sink, write_all};
pub use source::{ReadStop, Source, read_all};
pub use standard::{StdSink, StdSource};

/// A read or a write that failed.
#[derive(Clone, Copy, Debug, PartialEq, Eq)]
pub struct Failed;
