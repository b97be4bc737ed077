// Walks over all paths from a region.

ghost use Rattle.std.specs.Prelude.{◌≡◌, ◌<◌, ◌≤◌, ◌^◌, ◌==◌, length, map};
ghost use Rattle.mem_base.specs.map.Region.{IsAscending};
ghost use Rattle.region_slots.specs.Slots.{nodes_of};
ghost use Rattle.std.specs.List.{list_any};
ghost use Rattle.mem_base.specs.map.Steps.{steps_of, reaches_by, greatest, total, depth_by, weight_by};
ghost use Rattle.region_extents.specs.Marks.{marked};

use mem_base::RegionId;
use region_slots::{Slot, Slots, place_of};

/// Whether a path of at most `most` regions leads from one region to another.
#[cycle(reach)]
pub fn reaches_within(slots: &Slots, most: u32, from: RegionId, to: RegionId) -> bool
    ensures { result ≡ reaches_by (steps_of slots.now) most from to }
{
    if most == 0 {
        return false;
    }
    if from.0 == to.0 {
        return true;
    }
    let Some(node) = slots.get(from) else {
        return false;
    };
    match node.kind.target() {
        Some(target) => reaches_any(slots, most - 1, &[target], to),
        None => reaches_any(slots, most - 1, slots.child_ids(from), to),
    }
}

/// Whether such a path leads from one of some regions to another.
#[cycle(reach)]
fn reaches_any(slots: &Slots, most: u32, from: &[RegionId], to: RegionId) -> bool
    ensures { result ≡ list_any (λ q. reaches_by (steps_of slots.now) most q to) from.now }
{
    for id in from {
        if reaches_within(slots, most, *id, to) {
            return true;
        }
    }
    false
}

/// The regions on the longest path from a region, among paths of at most `most` regions.
#[cycle(deepen)]
pub fn depth_within(slots: &Slots, most: u32, region: RegionId) -> u32
    ensures value { result ≡ depth_by (steps_of slots.now) most region }
    ensures within { result ≤ most }
{
    if most == 0 {
        return 0;
    }
    let Some(node) = slots.get(region) else {
        return 1;
    };
    match node.kind.target() {
        Some(target) => depth_over(slots, most - 1, &[target]) + 1,
        None => depth_over(slots, most - 1, slots.child_ids(region)) + 1,
    }
}

/// The greatest depth of some regions.
#[cycle(deepen)]
fn depth_over(slots: &Slots, most: u32, regions: &[RegionId]) -> u32
    ensures value { result ≡ greatest (map (depth_by (steps_of slots.now) most) regions.now) }
    ensures within { result ≤ most }
{
    let mut depth: u32 = 0;
    for id in regions {
        depth = depth.max(depth_within(slots, most, *id));
    }
    depth
}

/// How many paths of at most `most` regions begin at a region.
#[cycle(widen)]
pub fn weight_within(slots: &Slots, most: u32, region: RegionId) -> u64
    requires { weight_by (steps_of slots.now) most region < 2 ^ 63 }
    ensures { result ≡ weight_by (steps_of slots.now) most region }
{
    if most == 0 {
        return 0;
    }
    let Some(node) = slots.get(region) else {
        return 1;
    };
    match node.kind.target() {
        Some(target) => weight_over(slots, most - 1, &[target]) + 1,
        None => weight_over(slots, most - 1, slots.child_ids(region)) + 1,
    }
}

/// The weights of some regions together.
#[cycle(widen)]
fn weight_over(slots: &Slots, most: u32, regions: &[RegionId]) -> u64
    requires { total (map (weight_by (steps_of slots.now) most) regions.now) < 2 ^ 63 }
    ensures { result ≡ total (map (weight_by (steps_of slots.now) most) regions.now) }
{
    let mut weight: u64 = 0;
    for id in regions {
        weight += weight_within(slots, most, *id);
    }
    weight
}

/// Marks a region, if it is there.
fn mark(slots: &[Slot], region: RegionId, marks: &mut [bool])
    requires all { length marks.old ≡ length slots.now }
    requires ascending { IsAscending (nodes_of slots.now) }
    ensures all { length marks.new ≡ length marks.old }
    ensures marked { marks.new ≡ marked (nodes_of slots.now) (λ r. region.0 == r.0) marks.old }
{
    if let Some(at) = place_of(slots, region) {
        marks[at] = true;
    }
}

/// Marks each region that a path of at most `most` regions leads to from this one.
#[cycle(mark)]
pub fn mark_within(slots: &Slots, most: u32, region: RegionId, marks: &mut [bool])
    requires { length marks.old ≡ length slots.now }
    ensures all { length marks.new ≡ length marks.old }
    ensures marked { marks.new ≡ marked slots.now (λ r. reaches_by (steps_of slots.now) most region r) marks.old }
{
    if most == 0 {
        return;
    }
    let Some(node) = slots.get(region) else {
        return;
    };
    mark(slots.as_slice(), region, marks);
    match node.kind.target() {
        Some(target) => mark_all(slots, most - 1, &[target], marks),
        None => mark_all(slots, most - 1, slots.child_ids(region), marks),
    }
}

/// Marks each region that such a path leads to from one of some regions.
#[cycle(mark)]
fn mark_all(slots: &Slots, most: u32, regions: &[RegionId], marks: &mut [bool])
    requires { length marks.old ≡ length slots.now }
    ensures all { length marks.new ≡ length marks.old }
    ensures marked { marks.new ≡ marked slots.now (λ r. list_any (λ q. reaches_by (steps_of slots.now) most q r) regions.now) marks.old }
{
    for id in regions {
        mark_within(slots, most, *id, marks);
    }
}
