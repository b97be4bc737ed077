// How many calls a publish makes.
ghost use Rattle.std.specs.Prelude.{◌≡◌, ◌≤◌, filter, flat_map, length, IfSome};
ghost use Rattle.mem_base.specs.views.Listening.{hears, calls_of, deliveries_of, deliveries_of_changes};

use mem_base::{Change, Listener, SpaceId};

// How many of these listeners are told what concerns a space.
fn count_hearers(order: &[Listener], space: SpaceId) -> usize
    ensures value { result ≡ length (filter (hears space) order.now) }
    ensures bound { result ≤ length order.now }
{
    order
        .iter()
        .filter(|listener| listener.space == space)
        .count()
}

// How many calls each listener of a space gets for its change; `None` where no usize holds the number.
fn count_events(change: &Change) -> Option<usize>
    ensures { IfSome result (λ n. n ≡ length (calls_of change.now)) }
{
    let switches = change
        .lost
        .as_slice()
        .len()
        .checked_add(change.gained.as_slice().len())?;
    change.walk.as_slice().len().checked_add(switches)
}

// How many calls one space's change makes; `None` where no usize holds the number.
fn count_change(order: &[Listener], change: &Change) -> Option<usize>
    ensures { IfSome result (λ n. n ≡ length (deliveries_of order.now change.now)) }
{
    let events = count_events(change)?;
    count_hearers(order, change.space).checked_mul(events)
}

// How many calls the changes of all spaces make; `None` where no usize holds the number.
fn count_changes(order: &[Listener], changes: &[Change]) -> Option<usize>
    ensures { IfSome result (λ n. n ≡ length (flat_map (deliveries_of order.now) changes.now)) }
{
    let mut count: usize = 0;
    for change in changes {
        count = count.checked_add(count_change(order, change)?)?;
    }
    Some(count)
}

/// How many calls a publish of these changes makes; `None` where no usize holds the number.
pub(crate) fn count_publish(order: &[Listener], changes: &[Change]) -> Option<usize>
    ensures { IfSome result (λ n. n ≡ length (deliveries_of_changes order.now changes.now)) }
{
    let frame = order.len().checked_mul(2)?;
    count_changes(order, changes)?.checked_add(frame)
}
