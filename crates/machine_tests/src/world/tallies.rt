// How often each kind of composite was accepted, and how often not.
use crate::world::composites::{Composite, Outcome};
use mem_base::Call;

/// The kinds: 19 calls, and 12 others.
const KINDS: usize = 31;

/// The counts of one kind.
#[derive(Clone, Copy, Default)]
pub(crate) struct Tally {
    pub(crate) done: u32,
    pub(crate) not: u32,
}

/// The counts of all kinds.
#[derive(Drop)]
pub(crate) struct Tallies {
    each: [Tally; KINDS],
}

/// The number of a call's kind, from 0 on.
fn kind_of_call(call: &Call) -> usize {
    match call {
        Call::Region { .. } => 0,
        Call::Space { .. } => 1,
        Call::Add { .. } => 2,
        Call::Del { .. } => 3,
        Call::Move { .. } => 4,
        Call::Resize { .. } => 5,
        Call::Retarget { .. } => 6,
        Call::Enable { .. } => 7,
        Call::Readonly { .. } => 8,
        Call::Nonvolatile { .. } => 9,
        Call::Unmergeable { .. } => 10,
        Call::Romd { .. } => 11,
        Call::Log { .. } => 12,
        Call::Global { .. } => 13,
        Call::Map { .. } => 14,
        Call::Unmap { .. } => 15,
        Call::Event { .. } => 16,
        Call::Unevent { .. } => 17,
        Call::Drop { .. } => 18,
    }
}

/// The number of a kind, below 31.
fn kind_of(composite: &Composite) -> usize {
    match composite {
        Composite::Call(call) => kind_of_call(call),
        Composite::Begin => 19,
        Composite::Commit => 20,
        Composite::Listen(..) => 21,
        Composite::Unlisten(_) => 22,
        Composite::Reap => 23,
        Composite::Load(..) => 24,
        Composite::Harvest(..) => 25,
        Composite::Notified(_) => 26,
        Composite::Enter(_) => 27,
        Composite::Leave(_) => 28,
        Composite::Read(..) => 29,
        Composite::Write(..) => 30,
    }
}

impl Tallies {
    /// Nothing is counted yet.
    pub(crate) fn new() -> Tallies {
        Tallies {
            each: [Tally::default(); KINDS],
        }
    }

    /// Counts one more.
    pub(crate) fn count(&mut self, composite: &Composite, outcome: Outcome) {
        if let Some(tally) = self.each.get_mut(kind_of(composite)) {
            match outcome {
                Outcome::Not => tally.not = tally.not.saturating_add(1),
                _ => tally.done = tally.done.saturating_add(1),
            }
        }
    }

    /// The number of the first kind of which none was accepted, or none was not.
    pub(crate) fn first_idle(&self) -> Option<usize> {
        for (kind, tally) in self.each.iter().enumerate() {
            if tally.done == 0 || tally.not == 0 {
                return Some(kind);
            }
        }
        None
    }
}
