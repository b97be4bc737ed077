// What listeners are told.
ghost use Rattle.std.specs.Prelude.{◌≡◌};
ghost use Rattle.mem_base.specs.lists.Every.{Every};
ghost use Rattle.mem_base.specs.views.LiveEvents.{ShareNoLive};

use crate::{FlatRange, ListenerId, Live, Lives, SpaceId};
use std::marker::Model;

/// How one range differs between two views: QEMU's listener callbacks `region_del`, `region_add`,
/// `region_nop`, `log_start` and `log_stop`.
#[derive(Clone, Copy, Debug, PartialEq, Eq)]
pub enum RangeEvent {
    Delete(FlatRange),
    Add(FlatRange),
    /// In both views, but for the logging mask.
    Keep(FlatRange),
    /// The mask has bits that it had not.
    LogStart { range: FlatRange, from: u8, to: u8 },
    /// The mask has lost bits.
    LogStop { range: FlatRange, from: u8, to: u8 },
}

/// What one listener is told.
#[derive(Clone, Copy, Debug, PartialEq, Eq)]
pub enum ListenerEvent {
    Begin,
    Range(RangeEvent),
    EventAdd(Live),
    EventDel(Live),
    Commit,
}

/// The steps from one view to another: deletes, and then the rest.
#[derive(Debug, Drop)]
pub struct Walk {
    items: Vec<RangeEvent>,
}

impl Model for Walk {
    ghost use Rattle.std.specs.Prelude.{List};
    ghost use Rattle.mem_base.specs.declared.views.listening.RangeEvent.{RangeEvent};

    ghost Value = { List RangeEvent };

    ghost view = { λ w. w.items.items };
}

impl Walk {
    /// These steps.
    pub fn new(items: Vec<RangeEvent>) -> Self
        ensures { result ≡ items.items }
    {
        Walk { items }
    }

    /// All of them, in order.
    pub fn as_slice(&self) -> &[RangeEvent]
        ensures { result.now ≡ self.now }
    {
        self.items.as_slice()
    }

    /// All of them, in a vector. It takes no memory.
    pub fn into_vec(self) -> Vec<RangeEvent>
        ensures { result.items ≡ self }
    {
        self.items
    }
}

/// A listener with its address space. Of two listeners of one space, the one of lower priority is told first that a
/// range is added and last that one is deleted; of ioeventfds it is told first that one is deleted and last that one
/// is added.
#[derive(Clone, Copy, Debug, PartialEq, Eq)]
pub struct Listener {
    pub listener: ListenerId,
    pub space: SpaceId,
    pub priority: i32,
}

/// The ioeventfds of an address space that are live in the old one of two generations only, and those that are live in
/// the new one only.
#[derive(Debug, Drop)]
pub struct Differ {
    pub lost: Lives,
    pub gained: Lives,
}

/// How what one address space shows differs between two generations.
#[derive(Debug, Drop)]
pub struct Change {
    pub space: SpaceId,
    pub walk: Walk,
    /// The ioeventfds that are live no more.
    pub lost: Lives,
    /// The ioeventfds that are live now and were not.
    pub gained: Lives,
}

/// The changes of all address spaces, in order of making of the spaces. No ioeventfd of a space is both lost and
/// gained.
#[derive(Debug, Drop)]
pub struct Changes {
    items: Vec<Change>,
}

impl Model for Changes {
    ghost use Rattle.std.specs.Prelude.{List};
    ghost use Rattle.mem_base.specs.declared.views.listening.Change.{Change};
    ghost use Rattle.mem_base.specs.lists.Every.{Every};
    ghost use Rattle.mem_base.specs.views.LiveEvents.{ShareNoLive};

    ghost Value = { List Change };

    ghost view = { λ c. c.items.items };

    ghost invariant = { λ c. Every (λ x. ShareNoLive x.lost x.gained) c.items.items };
}

impl Changes {
    /// These changes. It takes no memory.
    pub fn new(items: Vec<Change>) -> Self
        requires apart { Every (λ x. ShareNoLive x.lost x.gained) items.items }
        ensures { result ≡ items.items }
    {
        Changes { items }
    }

    /// All of them, in order.
    pub fn as_slice(&self) -> &[Change]
        ensures value { result.now ≡ self.now }
        ensures apart { Every (λ x. ShareNoLive x.lost x.gained) self.now }
    {
        self.items.as_slice()
    }

    /// All of them, in a vector. It takes no memory.
    pub fn into_vec(self) -> Vec<Change>
        ensures value { result.items ≡ self }
        ensures apart { Every (λ x. ShareNoLive x.lost x.gained) self }
    {
        self.items
    }
}
