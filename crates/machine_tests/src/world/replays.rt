// What a listener has by its calls alone.
use mem_base::{FlatRange, ListenerEvent, ListenerId, Live, RangeEvent, SpaceId};
use std::alloc::{AllocError, Global};

/// A listener, and what it makes of the calls that it gets: a map of its space, and the ioeventfds that are live there.
///
/// QEMU's manual, "The memory API": this is all that KVM or vhost knows of the map.
#[derive(Drop)]
pub(crate) struct Replay {
    pub(crate) listener: ListenerId,
    pub(crate) space: SpaceId,
    /// By ascending start.
    ranges: Vec<FlatRange>,
    /// In the order in which they came.
    lives: Vec<Live>,
    /// Whether it is between a `Begin` and its `Commit`.
    begun: bool,
}

/// A range but for its logging mask.
fn unlogged(range: &FlatRange) -> FlatRange {
    let mut plain = *range;
    plain.attrs.log = 0;
    plain
}

/// Where the same range but for its logging mask stands, among ranges.
fn position(ranges: &[FlatRange], range: &FlatRange) -> Option<usize> {
    for (i, other) in ranges.iter().enumerate() {
        if unlogged(other) == unlogged(range) {
            return Some(i);
        }
    }
    None
}

/// Where a range that meets none of these belongs among them; `None` where it meets one.
fn gap_for(ranges: &[FlatRange], range: &FlatRange) -> Option<usize> {
    let mut at: usize = 0;
    for other in ranges {
        if other.last < range.start {
            at = at.saturating_add(1);
        } else if other.start <= range.last {
            return None;
        }
    }
    Some(at)
}

impl Replay {
    /// A listener that joins a space, and has heard nothing yet.
    pub(crate) fn new(alloc: Global, listener: ListenerId, space: SpaceId) -> Replay {
        Replay {
            listener,
            space,
            ranges: Vec::new(alloc),
            lives: Vec::new(alloc),
            begun: false,
        }
    }

    /// Whether it has these ranges, these ioeventfds, each once, and has heard the `Commit` of each `Begin`.
    pub(crate) fn has(&self, ranges: &[FlatRange], lives: &[Live]) -> bool {
        let mine = self.lives.as_slice();
        !self.begun
            && self.ranges.as_slice() == ranges
            && mine.len() == lives.len()
            && lives.iter().all(|live| mine.contains(live))
    }

    /// How many ranges and how many ioeventfds it has.
    pub(crate) fn sizes(&self) -> (usize, usize) {
        (self.ranges.len(), self.lives.len())
    }

    /// Takes a call; whether it fits to what the listener has.
    pub(crate) fn take(&mut self, event: &ListenerEvent) -> Result<bool, AllocError> {
        match *event {
            ListenerEvent::Begin => {
                let fits = !self.begun;
                self.begun = true;
                Ok(fits)
            }
            ListenerEvent::Commit => {
                let fits = self.begun;
                self.begun = false;
                Ok(fits)
            }
            ListenerEvent::Range(change) => Ok(self.take_range(&change)? && self.begun),
            ListenerEvent::EventAdd(live) => Ok(self.add_live(live)? && self.begun),
            ListenerEvent::EventDel(live) => Ok(self.del_live(&live) && self.begun),
        }
    }

    /// Takes what it is told of a range.
    fn take_range(&mut self, change: &RangeEvent) -> Result<bool, AllocError> {
        match *change {
            RangeEvent::Delete(range) => Ok(self.del_range(&range)),
            RangeEvent::Add(range) => self.add_range(range),
            RangeEvent::Keep(range) => Ok(position(self.ranges.as_slice(), &range).is_some()),
            RangeEvent::LogStart { range, from, to } => Ok(
                to & !from != 0 && self.set_log(&range, to),
            ),
            RangeEvent::LogStop { range, from, to } => Ok(
                from & !to != 0 && self.set_log(&range, to),
            ),
        }
    }

    /// Adds a range; whether it meets none that is there.
    fn add_range(&mut self, range: FlatRange) -> Result<bool, AllocError> {
        match gap_for(self.ranges.as_slice(), &range) {
            Some(at) if at <= self.ranges.len() => {
                self.ranges.insert(at, range)?;
                Ok(true)
            }
            _ => Ok(false),
        }
    }

    /// Takes a range out; whether it is there, with the same logging mask.
    fn del_range(&mut self, range: &FlatRange) -> bool {
        match position(self.ranges.as_slice(), range) {
            Some(at) if at < self.ranges.len() => self.ranges.remove(at) == *range,
            _ => false,
        }
    }

    /// Gives a range another logging mask; whether it is there.
    fn set_log(&mut self, range: &FlatRange, log: u8) -> bool {
        let Some(at) = position(self.ranges.as_slice(), range) else {
            return false;
        };
        match self.ranges.get_mut(at) {
            Some(mine) => {
                mine.attrs.log = log;
                true
            }
            None => false,
        }
    }

    /// Adds an ioeventfd; whether it is not there yet.
    fn add_live(&mut self, live: Live) -> Result<bool, AllocError> {
        let fits = !self.lives.as_slice().contains(&live);
        self.lives.push(live)?;
        Ok(fits)
    }

    /// Takes an ioeventfd out; whether it is there.
    fn del_live(&mut self, live: &Live) -> bool {
        let before = self.lives.len();
        self.lives.retain(|mine| *mine != *live);
        self.lives.len() != before
    }
}

/// Gives each listener its calls of these; whether each call has a listener and fits to what that has.
pub(crate) fn take_all(
    replays: &mut [Replay],
    calls: &[(ListenerId, ListenerEvent)],
) -> Result<bool, AllocError> {
    let mut fits = true;
    for (listener, event) in calls {
        match replays
            .iter_mut()
            .find(|replay| replay.listener == *listener)
        {
            Some(replay) => {
                if !replay.take(event)? {
                    fits = false;
                }
            }
            None => fits = false,
        }
    }
    Ok(fits)
}
