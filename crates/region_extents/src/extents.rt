// How deep and how wide regions are, and what is told of it.

ghost use Rattle.std.specs.Prelude.{◌≡◌, ◌+◌, length, map, max, IfSome};
ghost use Rattle.mem_base.specs.map.Region.{IsAscending};
ghost use Rattle.mem_base.specs.map.Steps.{greatest, total, steps_of};
ghost use Rattle.region_slots.specs.Slots.{nodes_of};
ghost use Rattle.region_extents.specs.Extents.{steps_with, told_of, stepped, HasItsSteps};
ghost use Rattle.region_extents.specs.Kept.{steps_plus};

use mem_base::RegionId;
use region_slots::{Slot, place_of};

/// How deep a region is, by the regions on the longest path from it, and how wide: its weight is 1 plus the weights of all that
/// one step leads to. Both limits, 32 and 65,536, are this project's own.
#[derive(Clone, Copy, Debug, PartialEq, Eq)]
pub struct Extent {
    pub depth: u32,
    pub weight: u64,
}

/// One more step, from a parent to a child.
#[derive(Clone, Copy, Debug)]
pub struct Join {
    pub parent: RegionId,
    pub child: RegionId,
}

/// The greatest depth and the greatest weight; 0 of no extents.
pub fn widest(extents: &[Extent]) -> Extent
    ensures depth { result.depth ≡ greatest (map (λ e. e.depth) extents.now) }
    ensures weight { result.weight ≡ greatest (map (λ e. e.weight) extents.now) }
{
    let mut depth: u32 = 0;
    let mut weight: u64 = 0;
    for one in extents {
        depth = depth.max(one.depth);
        weight = weight.max(one.weight);
    }
    Extent { depth, weight }
}

/// The extent of a region, as the list has it; of a region that is not there, that of one that leads nowhere.
pub(crate) fn told(slots: &[Slot], known: &[Extent], region: RegionId) -> Extent
    requires ascending { IsAscending (nodes_of slots.now) }
    requires all { length known.now ≡ length slots.now }
    ensures { result ≡ told_of slots.now known.now region }
{
    match place_of(slots, region) {
        Some(i) => known[i],
        None => Extent {
            depth: 1,
            weight: 1,
        },
    }
}

/// The greatest depth that is told of some regions, and their weights together, or `None` where these are too
/// many.
fn told_over(slots: &[Slot], known: &[Extent], ids: &[RegionId]) -> Option<Extent>
    requires ascending { IsAscending (nodes_of slots.now) }
    requires all { length known.now ≡ length slots.now }
    ensures depth { IfSome result (λ e. e.depth ≡ greatest (map (λ q. (told_of slots.now known.now q).depth) ids.now)) }
    ensures weight { IfSome result (λ e. e.weight ≡ total (map (λ q. (told_of slots.now known.now q).weight) ids.now)) }
{
    let mut depth: u32 = 0;
    let mut weight: u64 = 0;
    for id in ids {
        let one = told(slots, known, *id);
        depth = depth.max(one.depth);
        weight = weight.checked_add(one.weight)?;
    }
    Some(Extent { depth, weight })
}

/// What is told of those that a region's own steps lead to.
fn told_below(slots: &[Slot], known: &[Extent], slot: &Slot) -> Option<Extent>
    requires ascending { IsAscending (nodes_of slots.now) }
    requires all { length known.now ≡ length slots.now }
    requires steps { HasItsSteps (nodes_of slots.now) slot.now }
    ensures depth { IfSome result (λ e. e.depth ≡ greatest (map
        (λ q. (told_of slots.now known.now q).depth) (steps_of (nodes_of slots.now) slot.now.node.id))) }
    ensures weight { IfSome result (λ e. e.weight ≡ total (map
        (λ q. (told_of slots.now known.now q).weight) (steps_of (nodes_of slots.now) slot.now.node.id))) }
{
    match slot.node.kind.target() {
        Some(target) => Some(told_over(slots, known, &[target])?),
        None => Some(told_over(slots, known, slot.children.ids())?),
    }
}

/// The extent of a region from what is told of those that it leads to, or `None` where it is too great.
fn stepped_at(slots: &[Slot], join: Join, known: &[Extent], slot: &Slot) -> Option<Extent>
    requires ascending { IsAscending (nodes_of slots.now) }
    requires all { length known.now ≡ length slots.now }
    requires steps { HasItsSteps (nodes_of slots.now) slot.now }
    ensures { IfSome result (λ e. e ≡ stepped (told_of slots.now known.now) (steps_with (nodes_of slots.now) join slot.now.node.id)) }
{
    let below = told_below(slots, known, slot)?;
    if slot.node.id.0 == join.parent.0 {
        let both = with_joined(told(slots, known, join.child), below)?;
        return Some(one_more(both)?);
    }
    Some(one_more(below)?)
}

/// The greater depth of two, and their weights together.
fn with_joined(one: Extent, other: Extent) -> Option<Extent>
    ensures { IfSome result (λ e. e ≡ record { depth = max one.depth other.depth; weight = one.weight + other.weight }) }
{
    Some(Extent {
        depth: one.depth.max(other.depth),
        weight: one.weight.checked_add(other.weight)?,
    })
}

/// One region more.
fn one_more(extent: Extent) -> Option<Extent>
    ensures { IfSome result (λ e. e ≡ record { depth = extent.depth + 1; weight = extent.weight + 1 }) }
{
    Some(Extent {
        depth: extent.depth.checked_add(1)?,
        weight: extent.weight.checked_add(1)?,
    })
}

/// The extent of a region from what is told of those that it leads to, with one more step or without, or `None`
/// where it is too great.
pub(crate) fn stepped_plus(
    slots: &[Slot],
    extra: Option<Join>,
    known: &[Extent],
    slot: &Slot,
) -> Option<Extent>
    requires ascending { IsAscending (nodes_of slots.now) }
    requires all { length known.now ≡ length slots.now }
    requires steps { HasItsSteps (nodes_of slots.now) slot.now }
    ensures { IfSome result (λ e. e ≡ stepped (told_of slots.now known.now) (steps_plus (nodes_of slots.now) extra slot.now.node.id)) }
{
    match extra {
        Some(join) => Some(stepped_at(slots, join, known, slot)?),
        None => Some(one_more(told_below(slots, known, slot)?)?),
    }
}
