// How deep and how wide regions are, by paths of ever more regions.

ghost use Rattle.std.specs.Prelude.{◌≡◌, ◌+◌, ◌<◌, ◌≤◌, ◌^◌, ℕ, map, IfOk, IsSome};
ghost use Rattle.mem_base.specs.declared.map.ids.RegionId.{RegionId as Region};
ghost use Rattle.mem_base.specs.lists.Every.{Every};
ghost use Rattle.mem_base.specs.map.Region.{IsAscending};
ghost use Rattle.mem_base.specs.map.Region.{node_of};
ghost use Rattle.mem_base.specs.map.Steps.{greatest, total, longest, steps_of, depth_by, weight_by};
ghost use Rattle.region_slots.specs.Slots.{nodes_of};
ghost use Rattle.region_extents.specs.Extents.{steps_with, extent_by, extents_by, HasItsSteps};

use crate::extents::{Extent, Join};
use mem_base::{MOST_DEPTH, RegionId};
use region_slots::{Slot, place_of};
use std::alloc::{AllocError, Global};

/// The extent of one region, where those of the slots are known.
fn extent_at(slots: &[Slot], join: Join, round: u32, known: &[Extent], region: RegionId) -> Extent
    requires known { known.now ≡ extents_by (nodes_of slots.now) join round slots.now }
    requires round { 1 ≤ round }
    requires ascending { IsAscending (nodes_of slots.now) }
    requires parent { IsSome (node_of (nodes_of slots.now) join.parent) }
    ensures { result ≡ extent_by (nodes_of slots.now) join round region }
{
    match place_of(slots, region) {
        Some(i) => known[i],
        None => Extent {
            depth: 1,
            weight: 1,
        },
    }
}

#[tactic(auto, unfolding(crate::specs::Extents::extent_by))]
/// The greatest depth of some regions, and their weights together.
fn extent_over(slots: &[Slot], join: Join, round: u32, known: &[Extent], ids: &[RegionId]) -> Extent
    requires known { known.now ≡ extents_by (nodes_of slots.now) join round slots.now }
    requires round { 1 ≤ round }
    requires ascending { IsAscending (nodes_of slots.now) }
    requires parent { IsSome (node_of (nodes_of slots.now) join.parent) }
    requires few { total (map (weight_by (steps_with (nodes_of slots.now) join) round) ids.now) < 2 ^ 64 }
    ensures depth { result.depth ≡ greatest (map (depth_by (steps_with (nodes_of slots.now) join) round) ids.now) }
    ensures weight { result.weight ≡ total (map (weight_by (steps_with (nodes_of slots.now) join) round) ids.now) }
{
    let mut depth: u32 = 0;
    let mut weight: u64 = 0;
    for id in ids {
        let one = extent_at(slots, join, round, known, *id);
        depth = depth.max(one.depth);
        weight += one.weight;
    }
    Extent { depth, weight }
}

/// What one region's own steps lead to.
fn extent_below(slots: &[Slot], join: Join, round: u32, known: &[Extent], slot: &Slot) -> Extent
    requires known { known.now ≡ extents_by (nodes_of slots.now) join round slots.now }
    requires round { 1 ≤ round }
    requires ascending { IsAscending (nodes_of slots.now) }
    requires parent { IsSome (node_of (nodes_of slots.now) join.parent) }
    requires steps { HasItsSteps (nodes_of slots.now) slot.now }
    requires few { total (map (weight_by (steps_with (nodes_of slots.now) join) round) (steps_of (nodes_of slots.now) slot.now.node.id)) < 2 ^ 64 }
    ensures depth { result.depth ≡ greatest (map (depth_by (steps_with (nodes_of slots.now) join) round) (steps_of (nodes_of slots.now) slot.now.node.id)) }
    ensures weight { result.weight ≡ total (map (weight_by (steps_with (nodes_of slots.now) join) round) (steps_of (nodes_of slots.now) slot.now.node.id)) }
{
    match slot.node.kind.target() {
        Some(target) => extent_over(slots, join, round, known, &[target]),
        None => extent_over(slots, join, round, known, slot.children.ids()),
    }
}

/// One more round at one region.
fn extent_of(slots: &[Slot], join: Join, round: u32, known: &[Extent], slot: &Slot) -> Extent
    requires known { known.now ≡ extents_by (nodes_of slots.now) join round slots.now }
    requires round { 1 ≤ round }
    requires last { round < longest }
    requires ascending { IsAscending (nodes_of slots.now) }
    requires parent { IsSome (node_of (nodes_of slots.now) join.parent) }
    requires steps { HasItsSteps (nodes_of slots.now) slot.now }
    requires few { weight_by (steps_with (nodes_of slots.now) join) (round + 1) slot.now.node.id < 2 ^ 63 }
    ensures { result ≡ extent_by (nodes_of slots.now) join (round + 1) slot.now.node.id }
{
    let below = extent_below(slots, join, round, known, slot);
    if slot.node.id.0 == join.parent.0 {
        let joined = extent_at(slots, join, round, known, join.child);
        Extent {
            depth: joined.depth.max(below.depth) + 1,
            weight: joined.weight + below.weight + 1,
        }
    } else {
        Extent {
            depth: below.depth + 1,
            weight: below.weight + 1,
        }
    }
}

/// One more round.
fn lengthen(
    alloc: Global,
    slots: &[Slot],
    join: Join,
    round: u32,
    known: &[Extent],
) -> Result<Vec<Extent>, AllocError>
    requires known { known.now ≡ extents_by (nodes_of slots.now) join round slots.now }
    requires round { 1 ≤ round }
    requires last { round < longest }
    requires ascending { IsAscending (nodes_of slots.now) }
    requires parent { IsSome (node_of (nodes_of slots.now) join.parent) }
    requires steps { Every (HasItsSteps (nodes_of slots.now)) slots.now }
    requires few { (r : Region) → weight_by (steps_with (nodes_of slots.now) join) (round + 1) r < 2 ^ 63 }
    ensures { IfOk result (λ v. v.items ≡ extents_by (nodes_of slots.now) join (round + 1) slots.now) }
{
    let mut new = Vec::new(alloc);
    for slot in slots {
        new.push(extent_of(slots, join, round, known, slot))?;
    }
    Ok(new)
}

/// How deep and how wide each region is, with one more step: by paths of ever more regions, until one more round
/// changes nothing. It fails only where memory runs out.
pub fn lengthened(alloc: Global, slots: &[Slot], join: Join) -> Result<Vec<Extent>, AllocError>
    requires ascending { IsAscending (nodes_of slots.now) }
    requires parent { IsSome (node_of (nodes_of slots.now) join.parent) }
    requires steps { Every (HasItsSteps (nodes_of slots.now)) slots.now }
    requires few { (k : ℕ) (r : Region) → k ≤ longest → weight_by (steps_with (nodes_of slots.now) join) k r < 2 ^ 63 }
    ensures { IfOk result (λ v. v.items ≡ extents_by (nodes_of slots.now) join longest slots.now) }
{
    let mut known = vec![in alloc; Extent {
        depth: 1,
        weight: 1
    }; slots.len()]?;
    for round in 1..2 * MOST_DEPTH {
        let next = lengthen(alloc, slots, join, round, &known)?;
        if next == known {
            return Ok(known);
        }
        known = next;
    }
    Ok(known)
}
