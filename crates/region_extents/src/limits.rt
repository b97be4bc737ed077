// Whether all regions stay within the limits with one more step: walks over all paths, which take no memory.

ghost use Rattle.std.specs.Prelude.{◌≡◌, map};
ghost use Rattle.mem_base.specs.map.Steps.{depth_by, greatest, longest, steps_of, total, weight_by};
ghost use Rattle.region_extents.specs.Extents.{steps_with};
ghost use Rattle.region_extents.specs.Room.{are_within, is_within, room_left};

use crate::extents::Join;
use mem_base::{MOST_DEPTH, MOST_WEIGHT, RegionId};
use region_slots::Slots;

/// The room for paths that is left after those of at most `most` regions from this region, with one more step: `None` where there
/// are more of them than that room has, or where one of them has more than `deepest` regions.
#[cycle(walk)]
fn room_after(
    slots: &Slots,
    join: Join,
    most: u32,
    deepest: u32,
    room: u64,
    region: RegionId,
) -> Option<u64>
    ensures { result ≡ room_left deepest room (depth_by (steps_with slots.now join) most region) (weight_by (steps_with slots.now join) most region) }
{
    if most == 0 {
        return Some(room);
    }
    if deepest == 0 || room == 0 {
        return None;
    }
    if region.0 == join.parent.0 {
        let left = room_after(slots, join, most - 1, deepest - 1, room - 1, join.child)?;
        return room_below(slots, join, most - 1, deepest - 1, left, region);
    }
    room_below(slots, join, most - 1, deepest - 1, room - 1, region)
}

/// The room that is left after those paths from all that a region's own steps lead to.
#[cycle(walk)]
fn room_below(
    slots: &Slots,
    join: Join,
    most: u32,
    deepest: u32,
    room: u64,
    region: RegionId,
) -> Option<u64>
    ensures { result ≡ room_left deepest room
        (greatest (map (depth_by (steps_with slots.now join) most) (steps_of slots.now region)))
        (total (map (weight_by (steps_with slots.now join) most) (steps_of slots.now region))) }
{
    let Some(node) = slots.get(region) else {
        return Some(room);
    };
    match node.kind.target() {
        Some(target) => room_over(slots, join, most, deepest, room, &[target]),
        None => room_over(slots, join, most, deepest, room, slots.child_ids(region)),
    }
}

/// The room that is left after those paths from each of some regions.
#[cycle(walk)]
fn room_over(
    slots: &Slots,
    join: Join,
    most: u32,
    deepest: u32,
    room: u64,
    regions: &[RegionId],
) -> Option<u64>
    ensures { result ≡ room_left deepest room (greatest (map (depth_by (steps_with slots.now join) most) regions.now))
        (total (map (weight_by (steps_with slots.now join) most) regions.now)) }
{
    let mut left = room;
    for id in regions {
        left = room_after(slots, join, most, deepest, left, *id)?;
    }
    Some(left)
}

/// Whether a region is within the greatest depth and weight, with one more step.
fn is_within(slots: &Slots, join: Join, region: RegionId) -> bool
    ensures { result ≡ is_within (depth_by (steps_with slots.now join) longest region) (weight_by (steps_with slots.now join) longest region) }
{
    room_after(slots, join, 2 * MOST_DEPTH, MOST_DEPTH, MOST_WEIGHT, region).is_some()
}

/// Whether each region is within the greatest depth and weight, with one more step.
///
/// It takes no memory, and looks at no extent that is kept: it walks over all paths from each region, at most as many as the greatest
/// weight, so it takes long where the weights are great.
pub fn stays_within(slots: &Slots, join: Join) -> bool
    ensures { result ≡ are_within slots.now join }
{
    for slot in slots.as_slice() {
        if !is_within(slots, join, slot.node.id) {
            return false;
        }
    }
    true
}
