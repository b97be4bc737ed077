// Why a call is refused: for each call the conditions of the definition, in its order.

ghost use Rattle.std.specs.Prelude.{◌≡◌, ◌∷◌, [], ℕ, ℤ, false, is_none, IsSome, IfOk};
ghost use Rattle.mem_base.specs.map.Region.{node_of};
ghost use Rattle.mem_base.specs.map.Changes.{changed};
ghost use Rattle.mem_base.specs.map.Calls.{refusal_of};
ghost use Rattle.mem_base.specs.map.Refusals.{alias_parent, has_container, unknown_region, first_refusal};
ghost use Rattle.mem_base.specs.map.TableRefusals.{no_more_calls};
ghost use Rattle.mem_base.specs.map.Steps.{reaches, greatest_depth, greatest_weight};
ghost use Rattle.region_extents.specs.Room.{is_within};
ghost use Rattle.region_tree.specs.Calls.{IsAdd};

use crate::conditions::{
    alias_too_long, bad_device, bad_event, bad_page, bad_size, event_taken, has_container, in_use,
    makes_loop, no_memory, no_more_calls, no_more_entries, no_more_events, no_more_regions,
    no_more_spaces, no_place, not_alias, not_child_of, not_in_container, not_iommu, not_rom_device,
    page_overlap, refuse_if, resizes_memory, taken_space, takes_no_events, too_long, unknown_entry,
    unknown_event, unknown_region, unknown_space, unknown_target,
};
use crate::tree::Tree;
use mem_base::{Call, Client, Ioevent, Kind, Perm, Refusal, RegionId, Size, SpaceId};
use region_extents::{Extent, Join, lengthened, stays_within, widest};
use std::alloc::AllocError;

impl Tree {
    /// Why a call is refused, or `None` where it is accepted: the first reason that stands, in the order that
    /// is this project's own. It changes nothing.
    ///
    /// It fails only out of memory.
    pub fn refusal_of(&self, call: &Call) -> Result<Option<Refusal>, AllocError>
        ensures { IfOk result (λ o. o ≡ refusal_of self.now call.now) }
    {
        match *call {
            Call::Add {
                parent,
                offset,
                child,
                priority,
            } => self.refusal_of_add(parent, offset, child, priority),
            _ => Ok(self.refusal_of_other(call)),
        }
    }

    /// Whether a call is accepted. It changes nothing, and takes no memory.
    ///
    /// For an `Add` it walks over all paths from every region, at most 65,536 steps a region; `apply` and `refusal_of` do not.
    pub fn accepts(&self, call: &Call) -> bool
        ensures { result ≡ is_none (refusal_of self.now call.now) }
    {
        match *call {
            Call::Add { parent, child, .. } => self.accepts_add(parent, child),
            _ => self.refusal_of_other(call).is_none(),
        }
    }

    /// Why a call other than an `Add` is refused, where it is.
    fn refusal_of_other(&self, call: &Call) -> Option<Refusal>
        requires other { IsAdd call.now → ⊥ }
        ensures { result ≡ refusal_of self.now call.now }
    {
        match *call {
            Call::Add { .. } => None,
            Call::Region { kind, size } => self.refusal_of_region(kind, size),
            Call::Space { space, root } => self.refusal_of_space(space, root),
            Call::Del { parent, child } => self.refusal_of_del(parent, child),
            Call::Move { child, offset } => self.refusal_of_move(child, offset),
            Call::Resize { region, size } => self.refusal_of_resize(region, size),
            Call::Retarget { alias, offset } => self.refusal_of_retarget(alias, offset),
            Call::Enable { region, .. } => self.refusal_of_flag(region),
            Call::Readonly { region, .. } => self.refusal_of_flag(region),
            Call::Nonvolatile { region, .. } => self.refusal_of_flag(region),
            Call::Unmergeable { region, .. } => self.refusal_of_flag(region),
            Call::Romd { region, on } => self.refusal_of_romd(region, on),
            Call::Log { region, client, on } => self.refusal_of_log(region, client, on),
            Call::Global { on: _ } => no_more_calls(self),
            Call::Map {
                region,
                iova,
                size,
                space,
                translated,
                perm,
            } => self.refusal_of_map(region, iova, size, space, translated, perm),
            Call::Unmap { region, iova } => self.refusal_of_unmap(region, iova),
            Call::Event { region, event } => self.refusal_of_event(region, event),
            Call::Unevent {
                region,
                offset,
                size,
                matched,
                value,
            } => self.refusal_of_unevent(region, offset, size, matched, value),
            Call::Drop { region } => self.refusal_of_drop(region),
        }
    }

    /// Why a `Region` is refused, where it is.
    fn refusal_of_region(&self, kind: Kind, size: Size) -> Option<Refusal>
        ensures { result ≡ refusal_of self.now (Call.Region kind size) }
    {
        let early = unknown_target(self, kind)
            .or(bad_size(kind, size))
            .or(bad_device(kind));
        if early.is_some() {
            return early;
        }
        alias_too_long(self, kind)
            .or(no_more_regions(self))
            .or(no_more_calls(self))
    }

    /// The greatest depth and weight after a region is placed in a container.
    fn stretch(&self, parent: RegionId, child: RegionId) -> Result<Extent, AllocError>
        requires parent { IsSome (node_of self.now.nodes parent) }
        requires child { IsSome (node_of self.now.nodes child) }
        requires no_alias { alias_parent self.now parent ≡ None }
        requires free { has_container self.now child ≡ None }
        requires no_loop { reaches self.now.nodes child parent ≡ false }
        ensures depth { IfOk result (λ most. (offset : ℕ) (priority : ℤ)
            → most.depth ≡ greatest_depth (changed self.now (Call.Add parent offset child priority)).nodes) }
        ensures weight { IfOk result (λ most. (offset : ℕ) (priority : ℤ)
            → most.weight ≡ greatest_weight (changed self.now (Call.Add parent offset child priority)).nodes) }
    {
        let found = lengthened(self.alloc, self.slots.as_slice(), Join { parent, child })?;
        Ok(widest(found.as_slice()))
    }

    /// Whether no path is too long after a region is placed in a container.
    fn stays_within(&self, parent: RegionId, child: RegionId) -> bool
        requires parent { IsSome (node_of self.now.nodes parent) }
        requires child { IsSome (node_of self.now.nodes child) }
        requires no_alias { alias_parent self.now parent ≡ None }
        requires free { has_container self.now child ≡ None }
        ensures { (offset : ℕ) (priority : ℤ) → let nodes = (changed self.now (Call.Add parent offset child priority)).nodes in
            result ≡ is_within (greatest_depth nodes) (greatest_weight nodes) }
    {
        stays_within(&self.slots, Join { parent, child })
    }

    /// Whether an `Add` is accepted: at which offset and with what priority does not matter.
    fn accepts_add(&self, parent: RegionId, child: RegionId) -> bool
        ensures { (offset : ℕ) (priority : ℤ) → result ≡ is_none (refusal_of self.now (Call.Add parent offset child priority)) }
    {
        let early = no_place(self, parent, child).or(makes_loop(self, parent, child));
        if early.is_some() {
            return false;
        }
        let short = self.stays_within(parent, child);
        short && no_more_calls(self).is_none()
    }

    /// Why an `Add` is refused, where it is.
    pub(crate) fn refusal_of_add(
        &self,
        parent: RegionId,
        offset: u64,
        child: RegionId,
        priority: i32,
    ) -> Result<Option<Refusal>, AllocError>
        ensures { IfOk result (λ o. o ≡ refusal_of self.now (Call.Add parent offset child priority)) }
    {
        let early = no_place(self, parent, child).or(makes_loop(self, parent, child));
        if early.is_some() {
            return Ok(early);
        }
        let most = self.stretch(parent, child)?;
        Ok(too_long(most).or(no_more_calls(self)))
    }

    /// Why a `Space` is refused, where it is.
    fn refusal_of_space(&self, space: SpaceId, root: RegionId) -> Option<Refusal>
        ensures { result ≡ refusal_of self.now (Call.Space space root) }
    {
        unknown_region(self, root)
            .or(taken_space(self, space))
            .or(no_more_spaces(self))
            .or(no_more_calls(self))
    }

    /// Why a `Del` is refused, where it is.
    fn refusal_of_del(&self, parent: RegionId, child: RegionId) -> Option<Refusal>
        ensures { result ≡ refusal_of self.now (Call.Del parent child) }
    {
        unknown_region(self, parent)
            .or(unknown_region(self, child))
            .or(not_child_of(self, parent, child))
            .or(no_more_calls(self))
    }

    /// Why a `Move` is refused, where it is.
    fn refusal_of_move(&self, child: RegionId, offset: u64) -> Option<Refusal>
        ensures { result ≡ refusal_of self.now (Call.Move child offset) }
    {
        unknown_region(self, child)
            .or(not_in_container(self, child))
            .or(no_more_calls(self))
    }

    /// Why a `Resize` is refused, where it is.
    fn refusal_of_resize(&self, region: RegionId, size: Size) -> Option<Refusal>
        ensures { result ≡ refusal_of self.now (Call.Resize region size) }
    {
        unknown_region(self, region)
            .or(resizes_memory(self, region))
            .or(refuse_if(size.get() == 0, Refusal::BadSize))
            .or(no_more_calls(self))
    }

    /// Why a `Retarget` is refused, where it is.
    fn refusal_of_retarget(&self, alias: RegionId, offset: u64) -> Option<Refusal>
        ensures { result ≡ refusal_of self.now (Call.Retarget alias offset) }
    {
        unknown_region(self, alias)
            .or(not_alias(self, alias))
            .or(no_more_calls(self))
    }

    /// Why a call is refused that a region allows as soon as it is there.
    fn refusal_of_flag(&self, region: RegionId) -> Option<Refusal>
        ensures { result ≡ first_refusal (unknown_region self.now region ∷ no_more_calls self.now ∷ []) }
    {
        unknown_region(self, region).or(no_more_calls(self))
    }

    /// Why a `Romd` is refused, where it is.
    fn refusal_of_romd(&self, region: RegionId, on: bool) -> Option<Refusal>
        ensures { result ≡ refusal_of self.now (Call.Romd region on) }
    {
        unknown_region(self, region)
            .or(not_rom_device(self, region))
            .or(no_more_calls(self))
    }

    /// Why a `Log` is refused, where it is.
    fn refusal_of_log(&self, region: RegionId, client: Client, on: bool) -> Option<Refusal>
        ensures { result ≡ refusal_of self.now (Call.Log region client on) }
    {
        unknown_region(self, region)
            .or(no_memory(self, region))
            .or(no_more_calls(self))
    }

    /// Why a `Drop` is refused, where it is.
    fn refusal_of_drop(&self, region: RegionId) -> Option<Refusal>
        ensures { result ≡ refusal_of self.now (Call.Drop region) }
    {
        unknown_region(self, region)
            .or(has_container(self, region))
            .or(in_use(self, region))
            .or(no_more_calls(self))
    }

    /// Why an `Unmap` is refused, where it is.
    fn refusal_of_unmap(&self, region: RegionId, iova: u64) -> Option<Refusal>
        ensures { result ≡ refusal_of self.now (Call.Unmap region iova) }
    {
        unknown_region(self, region)
            .or(unknown_entry(self, region, iova))
            .or(no_more_calls(self))
    }

    /// Why a `Map` is refused, where it is.
    fn refusal_of_map(
        &self,
        region: RegionId,
        iova: u64,
        size: Size,
        space: SpaceId,
        translated: u64,
        perm: Perm,
    ) -> Option<Refusal>
        ensures { result ≡ refusal_of self.now (Call.Map region iova size space translated perm) }
    {
        unknown_region(self, region)
            .or(unknown_space(self, space))
            .or(not_iommu(self, region))
            .or(bad_page(iova, size))
            .or(page_overlap(self, region, iova, size))
            .or(no_more_entries(self, region))
            .or(no_more_calls(self))
    }

    /// Why an `Event` is refused, where it is.
    fn refusal_of_event(&self, region: RegionId, event: Ioevent) -> Option<Refusal>
        ensures { result ≡ refusal_of self.now (Call.Event region event) }
    {
        unknown_region(self, region)
            .or(takes_no_events(self, region))
            .or(bad_event(&event))
            .or(event_taken(self, region, &event))
            .or(no_more_events(self, region))
            .or(no_more_calls(self))
    }

    /// Why an `Unevent` is refused, where it is.
    fn refusal_of_unevent(
        &self,
        region: RegionId,
        offset: u64,
        size: u8,
        matched: bool,
        value: u64,
    ) -> Option<Refusal>
        ensures { result ≡ refusal_of self.now (Call.Unevent region offset size matched value) }
    {
        unknown_region(self, region)
            .or(unknown_event(self, region, offset, size, matched, value))
            .or(no_more_calls(self))
    }
}
