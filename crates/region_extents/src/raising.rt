// Setting right what stands above a region whose steps changed.

ghost use Rattle.std.specs.Prelude.{◌≡◌, ◌≢◌, ◌≤◌, length, false, IfOk, IfSome, IsSome, IsTrue, OnOk};
ghost use Rattle.mem_base.specs.declared.map.ids.RegionId.{RegionId as Region};
ghost use Rattle.mem_base.specs.lists.Every.{Every};
ghost use Rattle.mem_base.specs.map.Region.{IsAscending};
ghost use Rattle.mem_base.specs.map.Region.{node_of};
ghost use Rattle.region_slots.specs.Slots.{nodes_of};
ghost use Rattle.region_extents.specs.Extents.{HasItsSteps};
ghost use Rattle.region_extents.specs.Kept.{listed, aliases_in, steps_plus, container_list, undone, IsSettledBy, IsShort};

use crate::extents::{Extent, Join, stepped_plus, told};
use crate::ids::Ids;
use crate::journal::{Before, replace};
use mem_base::RegionId;
use region_slots::{Slot, place_of};
use std::alloc::AllocError;

/// Sets the extent of a region to the one that those of its children, or of its target, make; answers whether it is another
/// than before, or `None` where it is above a limit.
fn reset(
    slots: &[Slot],
    extra: Option<Join>,
    known: &mut [Extent],
    journal: &mut Vec<Before>,
    region: RegionId,
) -> Result<Option<bool>, AllocError>
    requires ascending { IsAscending (nodes_of slots.now) }
    requires all { length known.old ≡ length slots.now }
    requires steps { Every (HasItsSteps (nodes_of slots.now)) slots.now }
    ensures there { IfOk result (λ o. IfSome o (λ changed. IsSome (node_of (nodes_of slots.now) region))) }
    ensures short { Every IsShort known.old → Every IsShort known.new }
    ensures undone { undone journal.new.items known.new ≡ undone journal.old.items known.old }
    ensures all { length known.new ≡ length known.old }
    ensures settled { IfOk result (λ o. IfSome o (λ changed. (v : Region)
        → (v.0 ≢ region.0 → IsSettledBy (steps_plus (nodes_of slots.now) extra) slots.now known.old v)
        → (IsTrue changed → listed region (steps_plus (nodes_of slots.now) extra v) ≡ false)
        → IsSettledBy (steps_plus (nodes_of slots.now) extra) slots.now known.new v)) }
{
    let Some(at) = place_of(slots, region) else {
        return Ok(None);
    };
    let Some(extent) = stepped_plus(slots, extra, known, &slots[at]) else {
        return Ok(None);
    };
    let changed = replace(journal, known, at, extent)?;
    Ok(changed)
}

/// Where a region is to wait: after those that are deeper, so that the least deep is looked at first.
fn rank_for(slots: &[Slot], known: &[Extent], waiting: &[RegionId], region: RegionId) -> usize
    requires ascending { IsAscending (nodes_of slots.now) }
    requires all { length known.now ≡ length slots.now }
    ensures { result ≤ length waiting.now }
{
    let depth = told(slots, known, region).depth;
    for k in (0..waiting.len()).rev() {
        if told(slots, known, waiting[k]).depth >= depth {
            return k + 1;
        }
    }
    0
}

/// Lets a region wait, if it does not stand at its place already.
fn await_one(
    slots: &[Slot],
    known: &[Extent],
    waiting: &mut Ids,
    region: RegionId,
) -> Result<(), AllocError>
    requires ascending { IsAscending (nodes_of slots.now) }
    requires all { length known.now ≡ length slots.now }
    ensures { OnOk result ((v : Region) → listed v waiting.new ≡ false → (listed v waiting.old ≡ false) × (region.0 ≢ v.0)) }
{
    let rank = rank_for(slots, known, waiting.as_slice(), region);
    if rank > 0 && waiting.as_slice()[rank - 1].0 == region.0 {
        return Ok(());
    }
    waiting.insert(rank, region)?;
    Ok(())
}

/// Lets some regions wait.
fn await_all(
    slots: &[Slot],
    known: &[Extent],
    waiting: &mut Ids,
    regions: &[RegionId],
) -> Result<(), AllocError>
    requires ascending { IsAscending (nodes_of slots.now) }
    requires all { length known.now ≡ length slots.now }
    ensures { OnOk result ((v : Region) → listed v waiting.new ≡ false → (listed v waiting.old ≡ false) × (listed v regions.now ≡ false)) }
{
    for region in regions {
        await_one(slots, known, waiting, *region)?;
    }
    Ok(())
}

/// Lets a container wait, if there is one.
fn await_container(
    slots: &[Slot],
    known: &[Extent],
    waiting: &mut Ids,
    container: Option<RegionId>,
) -> Result<(), AllocError>
    requires ascending { IsAscending (nodes_of slots.now) }
    requires all { length known.now ≡ length slots.now }
    ensures { OnOk result ((v : Region) → listed v waiting.new ≡ false → (listed v waiting.old ≡ false) × (listed v (container_list container) ≡ false)) }
{
    match container {
        Some(region) => Ok(await_one(slots, known, waiting, region)?),
        None => Ok(()),
    }
}

/// Whether a region is not the child of one more step.
fn is_apart(extra: Option<Join>, region: RegionId) -> bool
    ensures { IsTrue result → IfSome extra (λ join. region.0 ≢ join.child.0) }
{
    match extra {
        Some(join) => join.child.0 != region.0,
        None => true,
    }
}

/// Lets those wait whose steps lead to a region, where its extent changed: its container and its aliases.
pub(crate) fn await_users(
    slots: &[Slot],
    aliases: &[Ids],
    extra: Option<Join>,
    known: &[Extent],
    waiting: &mut Ids,
    region: RegionId,
    changed: bool,
) -> Result<(), AllocError>
    requires ascending { IsAscending (nodes_of slots.now) }
    requires all { length known.now ≡ length slots.now }
    requires aliases { aliases.now ≡ aliases_in (nodes_of slots.now) }
    requires there { IsSome (node_of (nodes_of slots.now) region) }
    requires apart { IfSome extra (λ join. region.0 ≢ join.child.0) }
    ensures { OnOk result ((v : Region) → listed v waiting.new ≡ false
        → (listed v waiting.old ≡ false) × (IsTrue changed → listed region (steps_plus (nodes_of slots.now) extra v) ≡ false)) }
{
    if !changed {
        return Ok(());
    }
    let Some(at) = place_of(slots, region) else {
        unreachable!()
    };
    await_container(slots, known, waiting, slots[at].node.parent)?;
    await_all(slots, known, waiting, aliases[at].as_slice())?;
    Ok(())
}

/// Gives each region that waits, and all that stands above one whose extent changes, what their steps give.
///
/// It says whether all regions are settled then. They may not be where an extent is above a limit, where the child of
/// one more step stands above its parent, which is a loop, or after too many turns.
pub(crate) fn raise(
    slots: &[Slot],
    aliases: &[Ids],
    extra: Option<Join>,
    known: &mut [Extent],
    journal: &mut Vec<Before>,
    waiting: &mut Ids,
) -> Result<bool, AllocError>
    requires ascending { IsAscending (nodes_of slots.now) }
    requires all { length known.old ≡ length slots.now }
    requires steps { Every (HasItsSteps (nodes_of slots.now)) slots.now }
    requires aliases { aliases.now ≡ aliases_in (nodes_of slots.now) }
    requires others { (v : Region) → listed v waiting.old ≡ false → IsSettledBy (steps_plus (nodes_of slots.now) extra) slots.now known.old v }
    ensures short { Every IsShort known.old → Every IsShort known.new }
    ensures undone { undone journal.new.items known.new ≡ undone journal.old.items known.old }
    ensures all { length known.new ≡ length known.old }
    ensures settled { IfOk result (λ done. IsTrue done → (v : Region) → IsSettledBy (steps_plus (nodes_of slots.now) extra) slots.now known.new v) }
{
    for _turn in 0..262_144_u32 {
        let Some(region) = waiting.pop() else {
            return Ok(true);
        };
        if !is_apart(extra, region) {
            return Ok(false);
        }
        let Some(changed) = reset(slots, extra, known, journal, region)? else {
            return Ok(false);
        };
        await_users(slots, aliases, extra, known, waiting, region, changed)?;
    }
    Ok(false)
}
