// What a tree keeps beside its regions.

ghost use Rattle.std.specs.Prelude.{◌≡◌, ◌≢◌, ◌<◌, ◌++◌, ◌∷◌, [], length, slice_index_or, false, true, IfOk, IfSome, IsSome};
ghost use Rattle.std.specs.Prelude.{IsTrue, OnOk, Some, None};
ghost use Rattle.std.specs.List.{remove};
ghost use Rattle.mem_base.specs.declared.map.ids.RegionId.{RegionId as Region};
ghost use Rattle.mem_base.specs.declared.map.forests.Forest.{Forest};
ghost use Rattle.mem_base.specs.lists.Every.{Every};
ghost use Rattle.mem_base.specs.map.Region.{IsAscending};
ghost use Rattle.mem_base.specs.map.Forest.{IsOrderedForest};
ghost use Rattle.mem_base.specs.map.Region.{node_of};
ghost use Rattle.mem_base.specs.map.Order.{ids_of};
ghost use Rattle.mem_base.specs.map.Refusals.{targets};
ghost use Rattle.region_slots.specs.Slots.{nodes_of};
ghost use Rattle.region_extents.specs.Extents.{HasItsSteps};
ghost use Rattle.region_extents.specs.Kept.{extent_in, aliases_of, aliases_in, made_extent, one_above, with_child, enlisted, delisted};
ghost use Rattle.region_extents.specs.Kept.{steps_plus, undone, IsBeside, IsSettledBy, IsShort};

use crate::extents::{Extent, Join, told};
use crate::ids::Ids;
use crate::journal::{Before, replace, undo};
use crate::raising::{await_users, raise};
use mem_base::{Kind, RegionId};
use region_slots::{Slot, place_of};
use std::alloc::{AllocError, Global};

/// How deep and how wide each region is, and its aliases by ascending id, one element for each slot; out of date where it is
/// not `fresh`, which may be after memory ran out. Its fields are public for contracts to speak of; only its calls change them.
#[derive(Debug, Drop)]
pub struct Kept {
    pub extents: Vec<Extent>,
    pub aliases: Vec<Ids>,
    pub fresh: bool,
}

/// Lists one more alias of the region at a place.
fn enlist_at(aliases: &mut [Ids], at: Option<usize>, id: RegionId) -> Result<(), AllocError>
    requires { IfSome at (λ i. i < length aliases.old) }
    ensures { OnOk result (aliases.new ≡ enlisted aliases.old at id) }
{
    match at {
        Some(i) => {
            aliases[i].push(id)?;
            Ok(())
        }
        None => Ok(()),
    }
}

/// Lists one alias of the region at a place no more.
fn delist_at(aliases: &mut [Ids], at: Option<usize>, id: RegionId)
    requires { IfSome at (λ i. i < length aliases.old) }
    ensures all { length aliases.new ≡ length aliases.old }
    ensures lists { aliases.new ≡ delisted aliases.old at id }
{
    if let Some(i) = at {
        aliases[i].remove(id);
    }
}

/// One region more above another.
fn above(extent: Extent) -> Extent
    ensures { result ≡ one_above extent }
{
    Extent {
        depth: extent.depth.saturating_add(1),
        weight: extent.weight.saturating_add(1),
    }
}

impl Kept {
    /// Beside no region.
    pub fn new(alloc: Global) -> Kept
        ensures { IsBeside result [] }
    {
        Kept {
            extents: Vec::new(alloc),
            aliases: Vec::new(alloc),
            fresh: true,
        }
    }

    /// The extent of a region that is made, by the place of its target, if it is an alias.
    pub fn extent_made(&self, at: Option<usize>) -> Extent
        requires { IfSome at (λ i. IsTrue self.now.fresh → i < length self.now.extents.items) }
        ensures { IsTrue self.now.fresh → result ≡ made_extent self.now.extents.items at }
    {
        match at {
            Some(i) => {
                if self.fresh {
                    above(self.extents[i])
                } else {
                    Extent {
                        depth: 1,
                        weight: 1,
                    }
                }
            }
            None => Extent {
                depth: 1,
                weight: 1,
            },
        }
    }

    /// The same once more.
    pub fn try_copy(&self, alloc: Global) -> Result<Kept, AllocError>
        ensures extents { IfOk result (λ copy. copy.extents.items ≡ self.now.extents.items) }
        ensures aliases { IfOk result (λ copy. copy.aliases.items ≡ self.now.aliases.items) }
        ensures fresh { IfOk result (λ copy. copy.fresh ≡ self.now.fresh) }
    {
        let mut aliases = Vec::new(alloc);
        for list in &self.aliases {
            aliases.push(list.try_copy()?)?;
        }
        Ok(Kept {
            extents: self.extents.clone()?,
            aliases,
            fresh: self.fresh,
        })
    }

    fn enlist_all(
        &mut self,
        alloc: Global,
        at: Option<usize>,
        extent: Extent,
        id: RegionId,
    ) -> Result<(), AllocError>
        requires { IfSome at (λ i. i < length self.old.aliases.items) }
        ensures extents { OnOk result (self.new.extents.items ≡ self.old.extents.items ++ extent ∷ []) }
        ensures aliases { OnOk result (self.new.aliases.items ≡ enlisted self.old.aliases.items at id ++ [] ∷ []) }
    {
        enlist_at(&mut self.aliases, at, id)?;
        self.aliases.push(Ids::new(alloc))?;
        self.extents.push(extent)?;
        Ok(())
    }

    /// Keeps one region more, which has no aliases and is one more alias of the region at a place, if any.
    pub fn enlist(&mut self, alloc: Global, at: Option<usize>, extent: Extent, id: RegionId)
        requires { IfSome at (λ i. IsTrue self.old.fresh → i < length self.old.aliases.items) }
        ensures fresh { IsTrue self.new.fresh → IsTrue self.old.fresh }
        ensures extents { IsTrue self.new.fresh → self.new.extents.items ≡ self.old.extents.items ++ extent ∷ [] }
        ensures aliases { IsTrue self.new.fresh → self.new.aliases.items ≡ enlisted self.old.aliases.items at id ++ [] ∷ [] }
    {
        if !self.fresh {
            return;
        }
        match self.enlist_all(alloc, at, extent, id) {
            Ok(()) => self.fresh = true,
            Err(_) => self.fresh = false,
        }
    }

    /// Forgets the region at a place, which nothing leads to, and which is an alias of the region at another place, if any.
    pub fn forget(&mut self, at: usize, target: Option<usize>, id: RegionId)
        requires extents { IsTrue self.old.fresh → at < length self.old.extents.items }
        requires aliases { IsTrue self.old.fresh → at < length self.old.aliases.items }
        requires target { IfSome target (λ i. IsTrue self.old.fresh → i < length self.old.aliases.items) }
        ensures fresh { self.new.fresh ≡ self.old.fresh }
        ensures extents { IsTrue self.old.fresh → self.new.extents.items ≡ remove self.old.extents.items at }
        ensures aliases { IsTrue self.old.fresh → self.new.aliases.items ≡ remove (delisted self.old.aliases.items target id) at }
    {
        if !self.fresh {
            return;
        }
        delist_at(&mut self.aliases, target, id);
        let _ = self.aliases.remove(at);
        let _ = self.extents.remove(at);
    }

    /// Keeps the extents after one more step, and answers `true`, where that makes no loop and all stay within the limits. Where it
    /// answers `false`, what is kept is still right for the regions as they are, or known to be out of date.
    pub fn join(&mut self, alloc: Global, slots: &[Slot], join: Join) -> bool
        requires ascending { IsAscending (nodes_of slots.now) }
        requires steps { Every (HasItsSteps (nodes_of slots.now)) slots.now }
        requires forest { (f : Forest) × IsOrderedForest f × (f.nodes ≡ nodes_of slots.now) }
        requires kept { IsBeside self.old (nodes_of slots.now) }
        ensures stays { result ≡ false → IsBeside self.new (nodes_of slots.now) }
        ensures fresh { IsTrue result → IsTrue self.new.fresh }
        ensures aliases { IsTrue result → self.new.aliases.items ≡ aliases_in (nodes_of slots.now) }
        ensures settled { IsTrue result → (v : Region) → IsSettledBy (steps_plus (nodes_of slots.now) (Some join)) slots.now self.new.extents.items v }
        ensures short { IsTrue result → Every IsShort self.new.extents.items }
        ensures all { IsTrue result → length self.new.extents.items ≡ length slots.now }
    {
        if !self.fresh {
            return false;
        }
        let mut journal = Vec::new(alloc);
        match joined(
            alloc,
            slots,
            self.aliases.as_slice(),
            &mut self.extents,
            &mut journal,
            join,
        ) {
            Ok(true) => true,
            _ => {
                undo(journal.as_slice(), &mut self.extents);
                false
            }
        }
    }

    /// Finds all of it anew. What is kept is out of date after that where memory ran out.
    pub fn renew(&mut self, alloc: Global, slots: &[Slot])
        requires ascending { IsAscending (nodes_of slots.now) }
        requires steps { Every (HasItsSteps (nodes_of slots.now)) slots.now }
        ensures { IsBeside self.new (nodes_of slots.now) }
    {
        match found_anew(alloc, slots) {
            Ok(Some(kept)) => *self = kept,
            _ => self.fresh = false,
        }
    }

    /// Settles what stands above a region that leads to fewer regions than before. What is kept is out of date after
    /// that where memory ran out.
    pub fn resettle(&mut self, alloc: Global, slots: &[Slot], region: RegionId)
        requires ascending { IsAscending (nodes_of slots.now) }
        requires steps { Every (HasItsSteps (nodes_of slots.now)) slots.now }
        requires all { IsTrue self.old.fresh → length self.old.extents.items ≡ length slots.now }
        requires aliases { IsTrue self.old.fresh → self.old.aliases.items ≡ aliases_in (nodes_of slots.now) }
        requires others { IsTrue self.old.fresh → (v : Region) → v.0 ≢ region.0
            → IsSettledBy (steps_plus (nodes_of slots.now) None) slots.now self.old.extents.items v }
        requires short { IsTrue self.old.fresh → Every IsShort self.old.extents.items }
        ensures aliases { IsTrue self.new.fresh → self.new.aliases.items ≡ aliases_in (nodes_of slots.now) }
        ensures all { IsTrue self.new.fresh → length self.new.extents.items ≡ length slots.now }
        ensures settled { IsTrue self.new.fresh → (v : Region) → IsSettledBy (steps_plus (nodes_of slots.now) None) slots.now self.new.extents.items v }
        ensures short { IsTrue self.new.fresh → Every IsShort self.new.extents.items }
    {
        if !self.fresh {
            return;
        }
        match settled_above(
            alloc,
            slots,
            self.aliases.as_slice(),
            &mut self.extents,
            region,
        ) {
            Ok(true) => self.fresh = true,
            _ => self.fresh = false,
        }
    }
}

/// The aliases of a region, by ascending id.
fn aliases_of(alloc: Global, slots: &[Slot], region: RegionId) -> Result<Ids, AllocError>
    ensures { IfOk result (λ list. list ≡ aliases_of (nodes_of slots.now) region) }
{
    let mut list = Ids::new(alloc);
    for slot in slots {
        if is_alias_of(slot, region) {
            list.push(slot.node.id)?;
        }
    }
    Ok(list)
}

/// Whether a region is an alias of another.
pub fn is_alias_of(slot: &Slot, region: RegionId) -> bool
    ensures { result ≡ targets region slot.now.node.kind }
{
    match slot.node.kind {
        Kind::Alias { target, .. } => target.0 == region.0,
        _ => false,
    }
}

/// The aliases of each region.
fn all_aliases(alloc: Global, slots: &[Slot]) -> Result<Vec<Ids>, AllocError>
    ensures { IfOk result (λ lists. lists.items ≡ aliases_in (nodes_of slots.now)) }
{
    let mut lists = Vec::new(alloc);
    for slot in slots {
        lists.push(aliases_of(alloc, slots, slot.node.id)?)?;
    }
    Ok(lists)
}

/// All regions.
fn all_ids(alloc: Global, slots: &[Slot]) -> Result<Ids, AllocError>
    ensures { IfOk result (λ list. list ≡ ids_of (nodes_of slots.now)) }
{
    let mut list = Ids::new(alloc);
    for slot in slots {
        list.push(slot.node.id)?;
    }
    Ok(list)
}

/// What is kept beside these regions, or `None` after too many turns.
fn found_anew(alloc: Global, slots: &[Slot]) -> Result<Option<Kept>, AllocError>
    requires ascending { IsAscending (nodes_of slots.now) }
    requires steps { Every (HasItsSteps (nodes_of slots.now)) slots.now }
    ensures { IfOk result (λ o. IfSome o (λ kept. IsBeside kept (nodes_of slots.now))) }
{
    let aliases = all_aliases(alloc, slots)?;
    let mut extents = vec![in alloc; Extent {
        depth: 1,
        weight: 1
    }; slots.len()]?;
    let mut waiting = all_ids(alloc, slots)?;
    let mut journal = Vec::new(alloc);
    let done = raise(
        slots,
        aliases.as_slice(),
        None,
        &mut extents,
        &mut journal,
        &mut waiting,
    )?;
    if !done {
        return Ok(None);
    }
    Ok(Some(Kept {
        extents,
        aliases,
        fresh: true,
    }))
}

/// Settles what stands above a region, and says whether all regions are settled then.
fn settled_above(
    alloc: Global,
    slots: &[Slot],
    aliases: &[Ids],
    known: &mut [Extent],
    region: RegionId,
) -> Result<bool, AllocError>
    requires ascending { IsAscending (nodes_of slots.now) }
    requires all { length known.old ≡ length slots.now }
    requires steps { Every (HasItsSteps (nodes_of slots.now)) slots.now }
    requires aliases { aliases.now ≡ aliases_in (nodes_of slots.now) }
    requires others { (v : Region) → v.0 ≢ region.0 → IsSettledBy (steps_plus (nodes_of slots.now) None) slots.now known.old v }
    ensures short { Every IsShort known.old → Every IsShort known.new }
    ensures all { length known.new ≡ length known.old }
    ensures settled { IfOk result (λ done. IsTrue done → (v : Region) → IsSettledBy (steps_plus (nodes_of slots.now) None) slots.now known.new v) }
{
    let mut journal = Vec::new(alloc);
    let mut waiting = Ids::new(alloc);
    waiting.push(region)?;
    let done = raise(slots, aliases, None, known, &mut journal, &mut waiting)?;
    Ok(done)
}

/// What the parent of one more step has then: the greater depth, and the weights together.
fn joined_extent(parent: Extent, child: Extent) -> Option<Extent>
    ensures { IfSome result (λ e. e ≡ with_child parent child) }
{
    Some(Extent {
        depth: parent.depth.max(child.depth.checked_add(1)?),
        weight: parent.weight.checked_add(child.weight)?,
    })
}

/// Settles what stands above the parent of one more step, and says whether all regions are settled then.
fn joined(
    alloc: Global,
    slots: &[Slot],
    aliases: &[Ids],
    known: &mut [Extent],
    journal: &mut Vec<Before>,
    join: Join,
) -> Result<bool, AllocError>
    requires ascending { IsAscending (nodes_of slots.now) }
    requires all { length known.old ≡ length slots.now }
    requires steps { Every (HasItsSteps (nodes_of slots.now)) slots.now }
    requires aliases { aliases.now ≡ aliases_in (nodes_of slots.now) }
    requires settled { (v : Region) → IsSettledBy (steps_plus (nodes_of slots.now) None) slots.now known.old v }
    ensures short { Every IsShort known.old → Every IsShort known.new }
    ensures undone { undone journal.new.items known.new ≡ undone journal.old.items known.old }
    ensures all { length known.new ≡ length known.old }
    ensures settled { IfOk result (λ done. IsTrue done → (v : Region) → IsSettledBy (steps_plus (nodes_of slots.now) (Some join)) slots.now known.new v) }
{
    let Some(at) = place_of(slots, join.parent) else {
        return Ok(false);
    };
    if join.parent.0 == join.child.0 {
        return Ok(false);
    }
    let Some(extent) = joined_extent(known[at], told(slots, known, join.child)) else {
        return Ok(false);
    };
    let Some(changed) = replace(journal, known, at, extent)? else {
        return Ok(false);
    };
    let mut waiting = Ids::new(alloc);
    await_users(
        slots,
        aliases,
        Some(join),
        known,
        &mut waiting,
        join.parent,
        changed,
    )?;
    let done = raise(slots, aliases, Some(join), known, journal, &mut waiting)?;
    Ok(done)
}

/// The place of the target of a region that is made, if it is an alias.
pub fn place_of_target(slots: &[Slot], target: Option<RegionId>) -> Option<usize>
    requires { IsAscending (nodes_of slots.now) }
    ensures within { IfSome result (λ i. i < length slots.now) }
    ensures none { target ≡ None → result ≡ None }
    ensures some { (t : Region) → target ≡ Some t → IsSome (node_of (nodes_of slots.now) t) → IsSome result }
    ensures there { (t : Region) → target ≡ Some t → IfSome result (λ i. (d : _) → node_of (nodes_of slots.now) t ≡ Some (slice_index_or slots.now i d).node) }
{
    match target {
        Some(t) => place_of(slots, t),
        None => None,
    }
}

/// How deep and how wide a region is; `None` where what is kept is out of date.
pub fn kept_extent(slots: &[Slot], kept: &Kept, region: RegionId) -> Option<Extent>
    requires ascending { IsAscending (nodes_of slots.now) }
    requires kept { IsBeside kept.now (nodes_of slots.now) }
    ensures { IfSome result (λ e. e ≡ extent_in (nodes_of slots.now) region) }
{
    if !kept.fresh {
        return None;
    }
    Some(told(slots, kept.extents.as_slice(), region))
}
