// A call to each listener of a space, in the direction that the call has.
ghost use Rattle.std.specs.Prelude.{◌≡◌, ◌+◌, ◌≤◌, ◌++◌, filter, length, vec_len, vec_capacity};
ghost use Rattle.mem_base.specs.views.Listening.{deliver_each};
ghost use Rattle.listener_set.specs.Sets.{is_told, told_one, told_up, told_down};

use crate::journal::{Told, tell};
use crate::order::goes_down;
use mem_base::{Listener, ListenerEvent, SpaceId};

// Whether a listener is told what concerns a space, or everything.
fn is_told(listener: &Listener, space: Option<SpaceId>) -> bool
    ensures { result ≡ is_told space listener.now }
{
    match space {
        Some(space) => listener.space == space,
        None => true,
    }
}

// One call to one listener, where it is told.
fn tell_one(
    journal: &mut Vec<Told>,
    listener: &Listener,
    space: Option<SpaceId>,
    event: ListenerEvent,
)
    requires { vec_len journal.old + length (told_one space event listener.now) ≤ vec_capacity journal.old }
    ensures items { journal.new.items ≡ journal.old.items ++ told_one space event listener.now }
    ensures len { vec_len journal.new ≡ vec_len journal.old + length (told_one space event listener.now) }
    ensures room { vec_capacity journal.old ≤ vec_capacity journal.new }
{
    if is_told(listener, space) {
        tell(journal, listener.listener, event);
    }
}

// One call to each of these listeners that is told, from the first to the last.
fn tell_up(
    journal: &mut Vec<Told>,
    order: &[Listener],
    space: Option<SpaceId>,
    event: ListenerEvent,
)
    requires { vec_len journal.old + length (told_up space event order.now) ≤ vec_capacity journal.old }
    ensures items { journal.new.items ≡ journal.old.items ++ told_up space event order.now }
    ensures len { vec_len journal.new ≡ vec_len journal.old + length (told_up space event order.now) }
    ensures room { vec_capacity journal.old ≤ vec_capacity journal.new }
{
    for listener in order {
        tell_one(journal, listener, space, event);
    }
}

// One call to each of these listeners that is told, from the last to the first.
fn tell_down(
    journal: &mut Vec<Told>,
    order: &[Listener],
    space: Option<SpaceId>,
    event: ListenerEvent,
)
    requires { vec_len journal.old + length (told_down space event order.now) ≤ vec_capacity journal.old }
    ensures items { journal.new.items ≡ journal.old.items ++ told_down space event order.now }
    ensures len { vec_len journal.new ≡ vec_len journal.old + length (told_down space event order.now) }
    ensures room { vec_capacity journal.old ≤ vec_capacity journal.new }
{
    for i in (0..order.len()).rev() {
        tell_one(journal, &order[i], space, event);
    }
}

/// One call to each of these listeners that is told, which stand in ascending order: deletes, the ends of logging and new
/// ioeventfds go to them in descending order, all else in ascending order.
pub(crate) fn tell_each(
    journal: &mut Vec<Told>,
    order: &[Listener],
    space: Option<SpaceId>,
    event: ListenerEvent,
)
    requires { vec_len journal.old + length (deliver_each (filter (is_told space) order.now) event) ≤ vec_capacity journal.old }
    ensures items { journal.new.items ≡ journal.old.items ++ deliver_each (filter (is_told space) order.now) event }
    ensures len { vec_len journal.new ≡ vec_len journal.old + length (deliver_each (filter (is_told space) order.now) event) }
    ensures room { vec_capacity journal.old ≤ vec_capacity journal.new }
{
    if goes_down(&event) {
        tell_down(journal, order, space, event);
    } else {
        tell_up(journal, order, space, event);
    }
}
