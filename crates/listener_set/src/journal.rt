// The journal of all calls to listeners.
ghost use Rattle.std.specs.Prelude.{◌≡◌, ◌+◌, ◌-◌, ◌<◌, ◌≤◌, ◌++◌, [], ◌∷◌, IfOk, length, vec_len, vec_capacity};
ghost use Rattle.mem_base.specs.views.Listening.{deliveries_to, joining, leaving};

use mem_base::{FlatRange, ListenerEvent, ListenerId, Live, RangeEvent};
use std::alloc::{AllocError, Global};

/// A call with the listener that got it.
pub(crate) type Told = (ListenerId, ListenerEvent);

/// Appends one call. There is room for it.
pub(crate) fn tell(journal: &mut Vec<Told>, listener: ListenerId, event: ListenerEvent)
    requires { vec_len journal.old < vec_capacity journal.old }
    ensures items { journal.new.items ≡ journal.old.items ++ (listener, event) ∷ [] }
    ensures room { vec_capacity journal.old ≤ vec_capacity journal.new }
{
    let _ = journal.push((listener, event));
}

/// Appends these calls. There is room for them.
pub(crate) fn tell_all(journal: &mut Vec<Told>, calls: &[Told])
    requires { vec_len journal.old + length calls.now ≤ vec_capacity journal.old }
    ensures { journal.new.items ≡ journal.old.items ++ calls.now }
{
    let _ = journal.extend_from_slice(calls);
}

/// What a listener is told when it joins: Begin, what the space shows, Commit.
pub(crate) fn joining(
    alloc: Global,
    listener: ListenerId,
    ranges: &[FlatRange],
    lives: &[Live],
) -> Result<Vec<Told>, AllocError>
    ensures { IfOk result (λ calls. calls.items ≡ deliveries_to listener (joining ranges.now lives.now)) }
{
    let mut calls = Vec::new(alloc);
    calls.push((listener, ListenerEvent::Begin))?;
    for range in ranges {
        calls.push((listener, ListenerEvent::Range(RangeEvent::Add(*range))))?;
    }
    for live in lives {
        calls.push((listener, ListenerEvent::EventAdd(*live)))?;
    }
    calls.push((listener, ListenerEvent::Commit))?;
    Ok(calls)
}

/// What a listener is told when it leaves: Begin, its ioeventfds and then its ranges deleted, Commit.
pub(crate) fn leaving(
    alloc: Global,
    listener: ListenerId,
    ranges: &[FlatRange],
    lives: &[Live],
) -> Result<Vec<Told>, AllocError>
    ensures { IfOk result (λ calls. calls.items ≡ deliveries_to listener (leaving ranges.now lives.now)) }
{
    let mut calls = Vec::new(alloc);
    calls.push((listener, ListenerEvent::Begin))?;
    for live in lives {
        calls.push((listener, ListenerEvent::EventDel(*live)))?;
    }
    for range in ranges {
        calls.push((listener, ListenerEvent::Range(RangeEvent::Delete(*range))))?;
    }
    calls.push((listener, ListenerEvent::Commit))?;
    Ok(calls)
}
