// What listeners were told, one call after another.
ghost use Rattle.std.specs.Prelude.{◌≡◌, slice_get};
ghost use Rattle.libvobrekan.specs.Deliveries.{ShowsDelivery, delivery, delivery_told, live_told, no_live, no_range};
ghost use Rattle.libvobrekan.specs.Shown.{put_where, range_told};

use crate::answers::{Answer, done, no_machine};
use crate::handle::Handle;
use crate::shown::{RangeNumbers, told};
use mem_base::{FlatRange, ListenerEvent, ListenerId, Live, RangeEvent};
use std::alloc::Global;

/// An ioeventfd as a view shows it. Its address is `distance` bytes from 0: below it where a view shows only the end of its bytes.
#[repr(C)]
#[derive(Clone, Copy, Debug, PartialEq, Eq)]
pub struct LiveNumbers {
    pub distance: u64,
    pub value: u64,
    /// The notifier.
    pub number: u32,
    /// The size of the write, in bytes.
    pub size: u8,
    /// Whether only a write of `value` counts.
    pub matched: bool,
    pub is_below: bool,
}

/// One call of a listener. `what` is 0 begin, 1 a range is gone, 2 it is there, 3 it stays, 4 logging starts, 5 logging stops, 6 an
/// ioeventfd is there, 7 it is gone, 8 commit.
#[repr(C)]
#[derive(Clone, Copy, Debug, PartialEq, Eq)]
pub struct DeliveryNumbers {
    pub what: u32,
    pub listener: u32,
    pub range: RangeNumbers,
    pub event: LiveNumbers,
    /// The logging mask before, where logging starts or stops.
    pub from: u8,
    /// The logging mask after it.
    pub to: u8,
}

// No range.
fn no_range() -> RangeNumbers
    ensures { result ≡ no_range }
{
    RangeNumbers {
        start: 0,
        last: 0,
        offset: 0,
        region: 0,
        log: 0,
        readonly: false,
        nonvolatile: false,
        romd: false,
        unmergeable: false,
    }
}

// No ioeventfd.
fn no_live() -> LiveNumbers
    ensures { result ≡ no_live }
{
    LiveNumbers {
        distance: 0,
        value: 0,
        number: 0,
        size: 0,
        matched: false,
        is_below: false,
    }
}

// An ioeventfd.
fn live_told(live: &Live) -> LiveNumbers
    ensures { result ≡ live_told live.now }
{
    LiveNumbers {
        distance: live.addr.unsigned_abs().min(u128::from(u64::MAX)) as u64,
        value: live.value,
        number: live.number,
        size: live.size,
        matched: live.matched,
        is_below: live.addr < 0,
    }
}

// A call that is about nothing.
fn plain(what: u32, listener: ListenerId) -> DeliveryNumbers
    ensures { result ≡ delivery what listener.0 no_range 0 0 no_live }
{
    DeliveryNumbers {
        what,
        listener: listener.0,
        range: no_range(),
        event: no_live(),
        from: 0,
        to: 0,
    }
}

// A call about a range.
fn about_range(
    what: u32,
    listener: ListenerId,
    range: &FlatRange,
    from: u8,
    to: u8,
) -> DeliveryNumbers
    ensures { result ≡ delivery what listener.0 (range_told range.now) from to no_live }
{
    DeliveryNumbers {
        what,
        listener: listener.0,
        range: told(range),
        event: no_live(),
        from,
        to,
    }
}

// A call about an ioeventfd.
fn about_live(what: u32, listener: ListenerId, live: &Live) -> DeliveryNumbers
    ensures { result ≡ delivery what listener.0 no_range 0 0 (live_told live.now) }
{
    DeliveryNumbers {
        what,
        listener: listener.0,
        range: no_range(),
        event: live_told(live),
        from: 0,
        to: 0,
    }
}

// One call of a listener.
fn delivery_told(listener: ListenerId, event: &ListenerEvent) -> DeliveryNumbers
    ensures { result ≡ delivery_told (listener, event.now) }
{
    match event {
        ListenerEvent::Begin => plain(0, listener),
        ListenerEvent::Range(RangeEvent::Delete(range)) => about_range(1, listener, range, 0, 0),
        ListenerEvent::Range(RangeEvent::Add(range)) => about_range(2, listener, range, 0, 0),
        ListenerEvent::Range(RangeEvent::Keep(range)) => about_range(3, listener, range, 0, 0),
        ListenerEvent::Range(RangeEvent::LogStart { range, from, to }) => {
            about_range(4, listener, range, *from, *to)
        }
        ListenerEvent::Range(RangeEvent::LogStop { range, from, to }) => {
            about_range(5, listener, range, *from, *to)
        }
        ListenerEvent::EventAdd(live) => about_live(6, listener, live),
        ListenerEvent::EventDel(live) => about_live(7, listener, live),
        ListenerEvent::Commit => plain(8, listener),
    }
}

/// The call at an index of the journal, where there is one.
pub(crate) fn put_delivery(
    journal: &[(ListenerId, ListenerEvent)],
    index: usize,
    out: &mut DeliveryNumbers,
)
    ensures { out.new ≡ put_where delivery_told (slice_get journal.now index) out.old }
{
    if let Some((listener, event)) = journal.get(index) {
        *out = delivery_told(*listener, event);
    }
}

/// What listeners were told: the call at an index, counted from the first that is not forgotten, where there is one. `value` of the
/// answer is how many there are, so that a caller that keeps its index polls: it reads on from there until it comes to `value`. Calls
/// are kept until `vb_forget` forgets them.
#[unsafe(no_mangle)]
pub extern "C" fn vb_delivery(
    alloc: Global,
    handle: &mut Handle,
    index: usize,
    out: &mut DeliveryNumbers,
) -> Answer
    ensures shows { ShowsDelivery handle.old.machine index out.old result out.new }
    ensures same { handle.new.machine ≡ handle.old.machine }
{
    let Some(machine) = handle.take(alloc) else {
        return no_machine();
    };
    put_delivery(machine.journal(), index, out);
    let answer = done(machine.journal().len() as u64, machine.current_number());
    handle.put(alloc, machine);
    answer
}
