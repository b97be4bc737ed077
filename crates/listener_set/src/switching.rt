// What the listeners are told of the changes of a publish.
ghost use Rattle.std.specs.Prelude.{◌≡◌, ◌+◌, ◌≤◌, ◌++◌, drop, flat_map, map, length, vec_len, vec_capacity};
ghost use Rattle.mem_base.specs.declared.views.listening.ListenerEvent.TheVariants.{Range};
ghost use Rattle.mem_base.specs.lists.Sorting.{IsRising};
ghost use Rattle.mem_base.specs.views.LiveEvents.{live_order};
ghost use Rattle.mem_base.specs.views.Listening.{deliveries_of, deliveries_of_changes, switched, switches};
ghost use Rattle.listener_set.specs.Switches.{first_live, next_of, told_all};

use crate::delivering::tell_each;
use crate::journal::Told;
use mem_base::{Change, Listener, ListenerEvent, Live, RangeEvent, SpaceId};
use std::cmp::Ordering;

/// An ioeventfd that is lost or gained.
#[derive(Clone, Copy, Debug, PartialEq, Eq)]
pub(crate) enum NextSwitch {
    Lost(Live),
    Gained(Live),
}

// The first of the ioeventfds from index `i` on.
fn live_at(lives: &[Live], i: usize) -> Option<Live>
    ensures { result ≡ first_live (drop i lives.now) }
{
    lives.get(i).copied()
}

// The lesser of the next ioeventfd that is lost and the next that is gained; of one and the same, that it is lost.
fn next_switch(lost: Option<Live>, gained: Option<Live>) -> Option<NextSwitch>
    ensures { result ≡ next_of lost gained }
{
    match (lost, gained) {
        (None, None) => None,
        (Some(lost), None) => Some(NextSwitch::Lost(lost)),
        (None, Some(gained)) => Some(NextSwitch::Gained(gained)),
        (Some(lost), Some(gained)) => match lost.compare(&gained) {
            Ordering::Less | Ordering::Equal => Some(NextSwitch::Lost(lost)),
            Ordering::Greater => Some(NextSwitch::Gained(gained)),
        },
    }
}

// The walk of a space, told to its listeners.
fn tell_walk(journal: &mut Vec<Told>, order: &[Listener], space: SpaceId, walk: &[RangeEvent])
    requires { vec_len journal.old + length (told_all space order.now (map (λ e. Range e) walk.now)) ≤ vec_capacity journal.old }
    ensures items { journal.new.items ≡ journal.old.items ++ told_all space order.now (map (λ e. Range e) walk.now) }
    ensures len { vec_len journal.new ≡ vec_len journal.old + length (told_all space order.now (map (λ e. Range e) walk.now)) }
    ensures room { vec_capacity journal.old ≤ vec_capacity journal.new }
{
    for event in walk {
        tell_each(journal, order, Some(space), ListenerEvent::Range(*event));
    }
}

// The ioeventfds of a space that are lost and those that are gained, in one order, told to its listeners.
fn tell_switches(
    journal: &mut Vec<Told>,
    order: &[Listener],
    space: SpaceId,
    lost: &[Live],
    gained: &[Live],
)
    requires lost { IsRising live_order lost.now }
    requires gained { IsRising live_order gained.now }
    requires room { vec_len journal.old + length (told_all space order.now (map switched (switches lost.now gained.now))) ≤ vec_capacity journal.old }
    ensures items { journal.new.items ≡ journal.old.items ++ told_all space order.now (map switched (switches lost.now gained.now)) }
    ensures len { vec_len journal.new ≡ vec_len journal.old + length (told_all space order.now (map switched (switches lost.now gained.now))) }
    ensures room { vec_capacity journal.old ≤ vec_capacity journal.new }
{
    let (mut i, mut j) = (0, 0);
    while let Some(next) = next_switch(live_at(lost, i), live_at(gained, j)) {
        match next {
            NextSwitch::Lost(live) => {
                tell_each(journal, order, Some(space), ListenerEvent::EventDel(live));
                i += 1;
            }
            NextSwitch::Gained(live) => {
                tell_each(journal, order, Some(space), ListenerEvent::EventAdd(live));
                j += 1;
            }
        }
    }
}

// One space's change, told to its listeners: the walk, and then the ioeventfds.
fn tell_change(journal: &mut Vec<Told>, order: &[Listener], change: &Change)
    requires { vec_len journal.old + length (deliveries_of order.now change.now) ≤ vec_capacity journal.old }
    ensures items { journal.new.items ≡ journal.old.items ++ deliveries_of order.now change.now }
    ensures len { vec_len journal.new ≡ vec_len journal.old + length (deliveries_of order.now change.now) }
    ensures room { vec_capacity journal.old ≤ vec_capacity journal.new }
{
    tell_walk(journal, order, change.space, change.walk.as_slice());
    tell_switches(
        journal,
        order,
        change.space,
        change.lost.as_slice(),
        change.gained.as_slice(),
    );
}

// The changes of all spaces, told to the listeners of each.
fn tell_changes(journal: &mut Vec<Told>, order: &[Listener], changes: &[Change])
    requires { vec_len journal.old + length (flat_map (deliveries_of order.now) changes.now) ≤ vec_capacity journal.old }
    ensures items { journal.new.items ≡ journal.old.items ++ flat_map (deliveries_of order.now) changes.now }
    ensures len { vec_len journal.new ≡ vec_len journal.old + length (flat_map (deliveries_of order.now) changes.now) }
    ensures room { vec_capacity journal.old ≤ vec_capacity journal.new }
{
    for change in changes {
        tell_change(journal, order, change);
    }
}

/// A publish, told to these listeners, which stand in ascending order: Begin to all, the changes of each space to its
/// listeners, and Commit to all.
pub(crate) fn tell_publish(journal: &mut Vec<Told>, order: &[Listener], changes: &[Change])
    requires { vec_len journal.old + length (deliveries_of_changes order.now changes.now) ≤ vec_capacity journal.old }
    ensures items { journal.new.items ≡ journal.old.items ++ deliveries_of_changes order.now changes.now }
    ensures len { vec_len journal.new ≡ vec_len journal.old + length (deliveries_of_changes order.now changes.now) }
    ensures room { vec_capacity journal.old ≤ vec_capacity journal.new }
{
    tell_each(journal, order, None, ListenerEvent::Begin);
    tell_changes(journal, order, changes);
    tell_each(journal, order, None, ListenerEvent::Commit);
}
