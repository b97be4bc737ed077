// Which ioeventfd a write sets.
ghost use Rattle.std.specs.Prelude.{◌≡◌, ◌≤◌, true, false, length};
ghost use Rattle.std.specs.List.Sorted.{IsPartitionPoint};
ghost use Rattle.mem_base.specs.map.Events.{AreEvents};
ghost use Rattle.mem_base.specs.access.DeviceAccess.{fits, notifier_of};
ghost use Rattle.ioevents.specs.Matching.{is_before, is_after};

use mem_base::Ioevent;

// Whether an ioeventfd stands before all those of this offset and size.
fn is_before(event: &Ioevent, offset: u64, size: u8) -> bool
    ensures { result ≡ is_before offset size event.now }
{
    event.offset < offset || event.offset == offset && event.size < size
}

// Whether an ioeventfd stands after all those of this offset and size.
fn is_after(event: &Ioevent, offset: u64, size: u8) -> bool
    ensures { result ≡ is_after offset size event.now }
{
    event.offset > offset || event.offset == offset && event.size > size
}

// Whether a write of this value sets the notifier: one that is not matched takes any value.
fn fits(event: &Ioevent, offset: u64, size: u8, value: u64) -> bool
    ensures { result ≡ fits offset size value event.now }
{
    event.offset == offset && event.size == size && (!event.matched || event.value == value)
}

// How many ioeventfds stand before those of this offset and size.
fn first_at(events: &[Ioevent], offset: u64, size: u8) -> usize
    requires { AreEvents events.now }
    ensures bound { result ≤ length events.now }
    ensures passed { IsPartitionPoint (λ e. is_before offset size e ≡ true) (λ e. is_before offset size e ≡ false) events.now result }
{
    events.partition_point(|event| is_before(event, offset, size))
}

// The notifier of the first ioeventfd that fits, looked for until those of this offset and size are passed.
fn first_that_fits(events: &[Ioevent], offset: u64, size: u8, value: u64) -> Option<u32>
    requires { AreEvents events.now }
    ensures { result ≡ notifier_of events.now offset size value }
{
    for event in events {
        if fits(event, offset, size, value) {
            return Some(event.number);
        }
        if is_after(event, offset, size) {
            return None;
        }
    }
    None
}

/// The notifier that a write of `size` bytes of `value` at an offset in the region sets: that of the first ioeventfd, in
/// their order, that fits. `None` exactly where none fits.
///
/// The ioeventfds are those of one region, in order, as `Events::as_slice` gives them; the value is in the device's byte
/// order. They are found by their offset and size, not by trying all.
pub fn matches(events: &[Ioevent], offset: u64, size: u8, value: u64) -> Option<u32>
    requires { AreEvents events.now }
    ensures value { result ≡ notifier_of events.now offset size value }
{
    let first = first_at(events, offset, size);
    first_that_fits(events.split_at(first).1, offset, size, value)
}
