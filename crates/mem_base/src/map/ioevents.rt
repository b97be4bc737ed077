// The ioeventfds of a region, and those that a view shows.
ghost use Rattle.std.specs.Prelude.{◌≡◌, false, not, [], length, filter, IfOk, OnOk, OnErr};
ghost use Rattle.std.specs.List.{list_any};
ghost use Rattle.std.specs.List.Sorted.{IsSearchInRange};
ghost use Rattle.mem_base.specs.lists.Sorting.{put_by, place_of, IsRising};
ghost use Rattle.mem_base.specs.map.Events.{AreEvents, event_cmp};
ghost use Rattle.mem_base.specs.map.Events.{is_event};
ghost use Rattle.mem_base.specs.map.Events.{event_order};
ghost use Rattle.mem_base.specs.views.LiveEvents.{live_order};

use std::alloc::{AllocError, Global};
use std::cmp::Ordering;
use std::marker::Model;

/// A write that sets a notifier in place of reaching its device.
///
/// QEMU's manual, "The memory API", and `memory_region_add_eventfd` of QEMU's core.
#[derive(Clone, Copy, Debug, PartialEq, Eq)]
pub struct Ioevent {
    /// The offset in the region, in bytes.
    pub offset: u64,
    /// The size of the write, in bytes: 1, 2, 4 or 8.
    pub size: u8,
    /// Whether only a write of `value` counts.
    pub matched: bool,
    /// The value, in the device's byte order; 0 where it does not matter.
    pub value: u64,
    /// The notifier, 0 to 63.
    pub number: u32,
}

/// The ioeventfds of a region: by offset, size, matched (false first) and value, no two of which agree in all of these.
#[derive(Debug, Drop)]
pub struct Events {
    items: Vec<Ioevent>,
}

impl Model for Events {
    ghost use Rattle.std.specs.Prelude.{List};
    ghost use Rattle.mem_base.specs.declared.map.ioevents.Ioevent.{Ioevent};

    ghost Value = { List Ioevent };

    ghost use Rattle.mem_base.specs.map.Events.{AreEvents};

    ghost view = { λ e. e.items.items };

    ghost invariant = { λ e. AreEvents e.items.items };
}

impl Events {
    /// No ioeventfd.
    pub fn new(alloc: Global) -> Self
        ensures { result ≡ [] }
    {
        Events {
            items: Vec::new(alloc),
        }
    }

    /// These ioeventfds. It takes no memory.
    pub fn from_vec(items: Vec<Ioevent>) -> Self
        requires { AreEvents items.items }
        ensures { result ≡ items.items }
    {
        Events { items }
    }

    /// All of them, in order.
    pub fn as_slice(&self) -> &[Ioevent]
        ensures value { result.now ≡ self.now }
        ensures events { AreEvents self.now }
    {
        self.items.as_slice()
    }

    /// All of them, in a vector. It takes no memory.
    pub fn into_vec(self) -> Vec<Ioevent>
        ensures value { result.items ≡ self }
        ensures events { AreEvents self }
    {
        self.items
    }

    /// Whether there is one with this offset, size, matched and value, whatever its notifier.
    pub fn has(&self, offset: u64, size: u8, matched: bool, value: u64) -> bool
        ensures { result ≡ list_any (is_event offset size matched value) self.now }
    {
        place_of(self.as_slice(), offset, size, matched, value).is_ok()
    }

    /// Puts an ioeventfd to its place.
    ///
    /// There is none with its offset, size, matched and value, as `has` tells. Out of memory, nothing
    /// changes.
    pub fn put(&mut self, event: Ioevent) -> Result<(), AllocError>
        requires { list_any (is_event event.offset event.size event.matched event.value) self.old ≡ false }
        ensures ok { OnOk result (self.new ≡ put_by event_order event self.old) }
        ensures err { OnErr result (self.new ≡ self.old) }
    {
        let Ioevent {
            offset,
            size,
            matched,
            value,
            ..
        } = event;
        let (Ok(place) | Err(place)) = place_of(
            self.items.as_slice(),
            offset,
            size,
            matched,
            value,
        );
        self.items.insert(place, event)?;
        Ok(())
    }

    /// Takes out the one with this offset, size, matched and value, if there is one. It takes no memory.
    pub fn remove(&mut self, offset: u64, size: u8, matched: bool, value: u64)
        ensures { self.new ≡ filter (λ e. not (is_event offset size matched value e)) self.old }
    {
        if let Ok(place) = place_of(self.items.as_slice(), offset, size, matched, value) {
            self.items.remove(place);
        }
    }

    /// The same ioeventfds once more.
    pub fn try_copy(&self) -> Result<Events, AllocError>
        ensures { IfOk result (λ copy. copy ≡ self.now) }
    {
        let items = self.items.clone()?;
        Ok(Events { items })
    }
}

// Where the ioeventfd with this offset, size, matched and value stands, or where it would.
fn place_of(
    events: &[Ioevent],
    offset: u64,
    size: u8,
    matched: bool,
    value: u64,
) -> Result<usize, usize>
    requires { AreEvents events.now }
    ensures place { result ≡ place_of (event_cmp offset size matched value) events.now }
    ensures bound { IsSearchInRange result (length events.now) }
{
    events.binary_search_by(|event| compare(event, offset, size, matched, value))
}

// How an ioeventfd stands to this offset, size, matched and value.
fn compare(event: &Ioevent, offset: u64, size: u8, matched: bool, value: u64) -> Ordering
    ensures { result ≡ event_cmp offset size matched value event.now }
{
    event
        .offset
        .cmp(&offset)
        .then(event.size.cmp(&size))
        .then(event.matched.cmp(&matched))
        .then(event.value.cmp(&value))
}

/// An ioeventfd as a view shows it, by its address in the space.
///
/// The address is signed: where a view shows only the end of an event's bytes, the event may begin before
/// address 0.
#[derive(Clone, Copy, Debug, PartialEq, Eq)]
pub struct Live {
    pub addr: i128,
    pub size: u8,
    pub matched: bool,
    pub value: u64,
    pub number: u32,
}

impl Live {
    /// How two live ioeventfds stand in their order: by address, size, whether they are matched (false first), value and
    /// number.
    pub fn compare(&self, other: &Live) -> Ordering
        ensures { result ≡ live_order self.now other.now }
    {
        self.addr
            .cmp(&other.addr)
            .then(self.size.cmp(&other.size))
            .then(self.matched.cmp(&other.matched))
            .then(self.value.cmp(&other.value))
            .then(self.number.cmp(&other.number))
    }
}

/// Live ioeventfds: by addr, size, matched (false first), value and number, no two of which agree in all of these.
#[derive(Debug, Drop)]
pub struct Lives {
    items: Vec<Live>,
}

impl Model for Lives {
    ghost use Rattle.std.specs.Prelude.{List};
    ghost use Rattle.mem_base.specs.declared.map.ioevents.Live.{Live};

    ghost Value = { List Live };

    ghost use Rattle.mem_base.specs.lists.Sorting.{IsRising};
    ghost use Rattle.mem_base.specs.views.LiveEvents.{live_order};

    ghost view = { λ l. l.items.items };

    ghost invariant = { λ l. IsRising live_order l.items.items };
}

impl Lives {
    /// These ioeventfds. It takes no memory.
    pub fn new(items: Vec<Live>) -> Self
        requires { IsRising live_order items.items }
        ensures { result ≡ items.items }
    {
        Lives { items }
    }

    /// All of them, in order.
    pub fn as_slice(&self) -> &[Live]
        ensures value { result.now ≡ self.now }
        ensures rising { IsRising live_order self.now }
    {
        self.items.as_slice()
    }

    /// All of them, in a vector. It takes no memory.
    pub fn into_vec(self) -> Vec<Live>
        ensures value { result.items ≡ self }
        ensures rising { IsRising live_order self }
    {
        self.items
    }
}
