// Why a call is refused, each condition by itself.

ghost use Rattle.std.specs.Prelude.{◌≡◌, ◌∷◌, [], ℕ, ◌+◌, nat_lt, nat_le, not, find, filter, option_map, Option, Some, IsSome};
ghost use Rattle.std.specs.Option.{option_or};
ghost use Rattle.mem_base.specs.declared.map.refusals.Refusal.TheVariants.{InUse};
ghost use Rattle.mem_base.specs.declared.map.refusals.User.TheVariants as users;
ghost use Rattle.mem_base.specs.map.Refusals as conditions;
ghost use Rattle.mem_base.specs.map.TableRefusals as tables;
ghost use Rattle.mem_base.specs.map.Devices as devices;
ghost use Rattle.mem_base.specs.map.Calls.{alias_too_long};
ghost use Rattle.mem_base.specs.map.Forest.{IsOrderedForest};
ghost use Rattle.mem_base.specs.map.Limits.{most_depth, most_weight};
ghost use Rattle.mem_base.specs.map.Steps.{depth_of, weight_of};
ghost use Rattle.mem_base.specs.map.Kinds as kinds;
ghost use Rattle.mem_base.specs.map.Region.{is_in, is_child_of, node_of};
ghost use Rattle.region_slots.specs.Slots.{nodes_of};
ghost use Rattle.region_tree.specs.Spaces.{lesser_of};

use crate::tree::Tree;
use mem_base::{
    Device, Ioevent, Kind, MOST_BYTES, MOST_CALLS, MOST_DEPTH, MOST_ENTRIES, MOST_EVENTS,
    MOST_MADE, MOST_REGIONS, MOST_REGISTERS, MOST_SPACES, MOST_WEIGHT, NOTIFIER_COUNT, PAGE_SIZE,
    Refusal, RegionId, Size, SpaceId, User, What, Which,
};
use region_extents::{Extent, is_alias_of, reaches_within};
use region_slots::Slot;

/// A refusal where a test holds.
pub(crate) fn refuse_if(test: bool, why: Refusal) -> Option<Refusal>
    ensures { result ≡ conditions.refuse_if test why }
{
    if test { Some(why) } else { None }
}

/// A count that stands at its limit.
fn at_limit(which: Which, most: u64, count: u64) -> Option<Refusal>
    ensures { result ≡ tables.at_limit which most count }
{
    refuse_if(count >= most, Refusal::LimitReached(which, most))
}

/// A region that is not there.
pub(crate) fn unknown_region(tree: &Tree, region: RegionId) -> Option<Refusal>
    ensures { result ≡ conditions.unknown_region tree.now region }
{
    match tree.node(region) {
        Some(_) => None,
        None => Some(Refusal::Unknown(What::Region(region))),
    }
}

/// A space that is there already.
pub(crate) fn taken_space(tree: &Tree, space: SpaceId) -> Option<Refusal>
    ensures { result ≡ conditions.taken_space tree.now space }
{
    match tree.root(space) {
        Some(_) => Some(Refusal::NameTaken(What::Space(space))),
        None => None,
    }
}

/// An alias of a region that is not there.
pub(crate) fn unknown_target(tree: &Tree, kind: Kind) -> Option<Refusal>
    ensures { result ≡ conditions.unknown_target tree.now kind }
{
    match kind {
        Kind::Alias { target, .. } => unknown_region(tree, target),
        _ => None,
    }
}

/// A size that a region of this kind cannot have.
pub(crate) fn bad_size(kind: Kind, size: Size) -> Option<Refusal>
    ensures { result ≡ conditions.bad_size kind size }
{
    let bytes = size.get();
    refuse_if(
        bytes == 0
            || kind.is_memory() && !(bytes % u128::from(PAGE_SIZE) == 0)
            || kind.has_bytes() && bytes > u128::from(MOST_BYTES),
        Refusal::BadSize,
    )
}

fn is_access_size(n: u8) -> bool
    ensures { result ≡ devices.is_access_size n }
{
    n == 1 || n == 2 || n == 4 || n == 8
}

fn is_good_device(device: &Device) -> bool
    ensures { result ≡ devices.is_good_device device.now }
{
    is_access_size(device.ops.valid_min)
        && is_access_size(device.ops.valid_max)
        && is_access_size(device.ops.impl_min)
        && is_access_size(device.ops.impl_max)
        && device.ops.valid_min <= device.ops.valid_max
        && device.ops.impl_min <= device.ops.impl_max
        && 1 <= device.regs
        && device.regs <= MOST_REGISTERS
}

/// A device whose access sizes or registers are out of bounds.
pub(crate) fn bad_device(kind: Kind) -> Option<Refusal>
    ensures { result ≡ tables.bad_device (kinds.device_of kind) }
{
    match kind {
        Kind::RomDevice(device) | Kind::Io(device) => {
            refuse_if(!is_good_device(&device), Refusal::BadOps)
        }
        _ => None,
    }
}

/// A region that has a container.
pub(crate) fn has_container(tree: &Tree, region: RegionId) -> Option<Refusal>
    ensures { result ≡ conditions.has_container tree.now region }
{
    match tree.node(region) {
        Some(node) => match node.parent {
            Some(container) => Some(Refusal::HasContainer(container)),
            None => None,
        },
        None => None,
    }
}

/// An alias, which cannot be a container.
pub(crate) fn alias_parent(tree: &Tree, parent: RegionId) -> Option<Refusal>
    ensures { result ≡ conditions.alias_parent tree.now parent }
{
    match tree.node(parent) {
        Some(node) => { refuse_if(node.kind.is_alias(), Refusal::AliasParent(parent)) }
        None => None,
    }
}

/// A step that would make a loop.
pub(crate) fn makes_loop(tree: &Tree, parent: RegionId, child: RegionId) -> Option<Refusal>
    ensures { result ≡ conditions.makes_loop tree.now parent child }
{
    refuse_if(
        reaches_within(tree.slots(), 2 * MOST_DEPTH, child, parent),
        Refusal::Loop(parent),
    )
}

/// No more calls.
pub(crate) fn no_more_calls(tree: &Tree) -> Option<Refusal>
    ensures { result ≡ tables.no_more_calls tree.now }
{
    at_limit(Which::Calls, MOST_CALLS, tree.calls())
}

/// Why an Add is refused before anything is asked of loops, depths and weights: a region is unknown, the child has a container,
/// or the parent is an alias.
pub(crate) fn no_place(tree: &Tree, parent: RegionId, child: RegionId) -> Option<Refusal>
    ensures { result ≡ conditions.first_refusal (conditions.unknown_region tree.now parent ∷ conditions.unknown_region tree.now child
        ∷ conditions.has_container tree.now child ∷ conditions.alias_parent tree.now parent ∷ []) }
{
    unknown_region(tree, parent)
        .or(unknown_region(tree, child))
        .or(has_container(tree, child))
        .or(alias_parent(tree, parent))
}

/// A depth or a weight above its limit.
pub(crate) fn too_long(most: Extent) -> Option<Refusal>
    ensures { result ≡ conditions.first_refusal (conditions.refuse_if (nat_lt most_depth most.depth) (Refusal.TooDeep most.depth)
        ∷ conditions.refuse_if (nat_lt most_weight most.weight) (Refusal.TooWide most.weight) ∷ []) }
{
    if most.depth > MOST_DEPTH {
        Some(Refusal::TooDeep(most.depth))
    } else if most.weight > MOST_WEIGHT {
        Some(Refusal::TooWide(most.weight))
    } else {
        None
    }
}

/// An alias that would make a path too long.
pub(crate) fn alias_too_long(tree: &Tree, kind: Kind) -> Option<Refusal>
    requires { conditions.unknown_target tree.now kind ≡ None }
    ensures { (size : ℕ) → result ≡ alias_too_long tree.now kind size }
{
    match kind {
        Kind::Alias { target, .. } => longer_than(tree, target),
        _ => None,
    }
}

/// Paths through one more region before this one that are too long.
fn longer_than(tree: &Tree, target: RegionId) -> Option<Refusal>
    requires { IsSome (node_of tree.now.nodes target) }
    ensures refused { result ≡ option_or (conditions.refuse_if (nat_le most_depth (depth_of tree.now.nodes target))
        (Refusal.TooDeep (depth_of tree.now.nodes target + 1)))
        (conditions.refuse_if (nat_le most_weight (weight_of tree.now.nodes target)) (Refusal.TooWide (weight_of tree.now.nodes target + 1))) }
    ensures forest { IsOrderedForest tree.now }
{
    let _ = tree.node(target);
    let depth = tree.depth(target);
    let weight = tree.weight(target);
    refuse_if(depth >= MOST_DEPTH, Refusal::TooDeep(depth + 1)).or(refuse_if(
        weight >= MOST_WEIGHT,
        Refusal::TooWide(weight + 1),
    ))
}

/// A region that is no child of the container.
pub(crate) fn not_child_of(tree: &Tree, parent: RegionId, child: RegionId) -> Option<Refusal>
    ensures { result ≡ conditions.not_child_of tree.now parent child }
{
    match tree.node(child) {
        Some(node) => match node.parent {
            Some(container) => refuse_if(container.0 != parent.0, Refusal::NotChild(child)),
            None => Some(Refusal::NotChild(child)),
        },
        None => None,
    }
}

/// A region without a container.
pub(crate) fn not_in_container(tree: &Tree, child: RegionId) -> Option<Refusal>
    ensures { result ≡ conditions.not_in_container tree.now child }
{
    match tree.node(child) {
        Some(node) => match node.parent {
            Some(_) => None,
            None => Some(Refusal::NotChild(child)),
        },
        None => None,
    }
}

/// A region that is no memory, where the call is for memory.
pub(crate) fn no_memory(tree: &Tree, region: RegionId) -> Option<Refusal>
    ensures { result ≡ conditions.wrong_kind kinds.is_memory tree.now region }
{
    match tree.node(region) {
        Some(node) => refuse_if(!node.kind.is_memory(), Refusal::WrongKind(region)),
        None => None,
    }
}

/// Memory, which keeps its size.
pub(crate) fn resizes_memory(tree: &Tree, region: RegionId) -> Option<Refusal>
    ensures { result ≡ conditions.wrong_kind (λ k. not (kinds.is_memory k)) tree.now region }
{
    match tree.node(region) {
        Some(node) => refuse_if(node.kind.is_memory(), Refusal::WrongKind(region)),
        None => None,
    }
}

/// A region that is no alias.
pub(crate) fn not_alias(tree: &Tree, region: RegionId) -> Option<Refusal>
    ensures { result ≡ conditions.wrong_kind kinds.is_alias tree.now region }
{
    match tree.node(region) {
        Some(node) => refuse_if(!node.kind.is_alias(), Refusal::WrongKind(region)),
        None => None,
    }
}

/// A region that is no ROM device.
pub(crate) fn not_rom_device(tree: &Tree, region: RegionId) -> Option<Refusal>
    ensures { result ≡ conditions.wrong_kind kinds.is_rom_device tree.now region }
{
    match tree.node(region) {
        Some(node) => refuse_if(!node.kind.is_rom_device(), Refusal::WrongKind(region)),
        None => None,
    }
}

fn is_in(region: RegionId, parent: Option<RegionId>) -> bool
    ensures { result ≡ is_in region parent }
{
    match parent {
        Some(container) => container.0 == region.0,
        None => false,
    }
}

/// The child of least id.
fn first_child(slots: &[Slot], region: RegionId) -> Option<RegionId>
    ensures { result ≡ option_map (λ n. n.id) (find (is_child_of region) (nodes_of slots.now)) }
{
    for slot in slots {
        if is_in(region, slot.node.parent) {
            return Some(slot.node.id);
        }
    }
    None
}

/// The alias of a region that has the least id.
fn first_alias(slots: &[Slot], region: RegionId) -> Option<RegionId>
    ensures { result ≡ option_map (λ n. n.id) (find (λ n. conditions.targets region n.kind) (nodes_of slots.now)) }
{
    for slot in slots {
        if is_alias_of(slot, region) {
            return Some(slot.node.id);
        }
    }
    None
}

/// The lesser of two spaces, where there was one before.
fn lesser(before: Option<SpaceId>, space: SpaceId) -> SpaceId
    ensures { Some result ≡ lesser_of before (Some space) }
{
    match before {
        Some(least) if least.0 <= space.0 => least,
        _ => space,
    }
}

/// The space of least id with this root.
fn first_space(spaces: &[(SpaceId, RegionId)], region: RegionId) -> Option<SpaceId>
    ensures { result ≡ conditions.least_space (filter (conditions.has_root region) spaces.now) }
{
    let mut least = None;
    for (space, root) in spaces {
        if root.0 == region.0 {
            least = Some(lesser(least, *space));
        }
    }
    least
}

fn used_by_region(user: Option<RegionId>) -> Option<Refusal>
    ensures { result ≡ option_map (λ q. InUse (users.Region q)) user }
{
    match user {
        Some(region) => Some(Refusal::InUse(User::Region(region))),
        None => None,
    }
}

fn used_by_space(user: Option<SpaceId>) -> Option<Refusal>
    ensures { result ≡ option_map (λ s. InUse (users.Space s)) user }
{
    match user {
        Some(space) => Some(Refusal::InUse(User::Space(space))),
        None => None,
    }
}

/// A region with children, with aliases of it, or that is the root of a space.
pub(crate) fn in_use(tree: &Tree, region: RegionId) -> Option<Refusal>
    ensures { result ≡ conditions.in_use tree.now region }
{
    used_by_region(first_child(tree.slots().as_slice(), region))
        .or(used_by_region(first_alias(tree.slots().as_slice(), region)))
        .or(used_by_space(first_space(tree.spaces(), region)))
}

/// A space that is not there.
pub(crate) fn unknown_space(tree: &Tree, space: SpaceId) -> Option<Refusal>
    ensures { result ≡ conditions.unknown_space tree.now space }
{
    match tree.root(space) {
        Some(_) => None,
        None => Some(Refusal::Unknown(What::Space(space))),
    }
}

/// A region that does not translate.
pub(crate) fn not_iommu(tree: &Tree, region: RegionId) -> Option<Refusal>
    ensures { result ≡ conditions.wrong_kind kinds.is_iommu tree.now region }
{
    match tree.node(region) {
        Some(node) => refuse_if(!node.kind.is_iommu(), Refusal::WrongKind(region)),
        None => None,
    }
}

/// A region whose writes set no notifier.
pub(crate) fn takes_no_events(tree: &Tree, region: RegionId) -> Option<Refusal>
    ensures { result ≡ conditions.wrong_kind kinds.takes_events tree.now region }
{
    match tree.node(region) {
        Some(node) => refuse_if(!node.kind.takes_events(), Refusal::WrongKind(region)),
        None => None,
    }
}

/// A page whose size is no power of two, or that begins at no multiple of it.
pub(crate) fn bad_page(iova: u64, size: Size) -> Option<Refusal>
    ensures { result ≡ tables.bad_page iova size }
{
    let bytes = size.get();
    if bytes == 0 {
        return Some(Refusal::BadPage);
    }
    refuse_if(
        !(bytes.count_ones() == 1) || !(u128::from(iova) % bytes == 0),
        Refusal::BadPage,
    )
}

/// A page that meets a translation.
pub(crate) fn page_overlap(tree: &Tree, region: RegionId, iova: u64, size: Size) -> Option<Refusal>
    ensures { result ≡ tables.page_overlap tree.now region iova size }
{
    match tree.node(region)?.entries.least_met(iova, size) {
        Some(met) => Some(Refusal::PageOverlap(met)),
        None => None,
    }
}

/// A translation that is not there.
pub(crate) fn unknown_entry(tree: &Tree, region: RegionId, iova: u64) -> Option<Refusal>
    ensures { result ≡ tables.unknown_entry tree.now region iova }
{
    match tree.node(region) {
        Some(node) => refuse_if(!node.entries.has(iova), Refusal::Unknown(What::Entry(iova))),
        None => None,
    }
}

/// An ioeventfd that no device has.
pub(crate) fn bad_event(event: &Ioevent) -> Option<Refusal>
    ensures { result ≡ tables.bad_event event.now }
{
    refuse_if(
        !(is_access_size(event.size)
            && event.number < NOTIFIER_COUNT as u32
            && (event.matched || event.value == 0)),
        Refusal::BadOps,
    )
}

/// An ioeventfd that the region has, whatever its notifier.
pub(crate) fn event_taken(tree: &Tree, region: RegionId, event: &Ioevent) -> Option<Refusal>
    ensures { result ≡ tables.event_taken tree.now region event.now }
{
    match tree.node(region) {
        Some(node) => refuse_if(
            node.events
                .has(event.offset, event.size, event.matched, event.value),
            Refusal::EventTaken,
        ),
        None => None,
    }
}

/// An ioeventfd that the region does not have.
pub(crate) fn unknown_event(
    tree: &Tree,
    region: RegionId,
    offset: u64,
    size: u8,
    matched: bool,
    value: u64,
) -> Option<Refusal>
    ensures { result ≡ tables.unknown_event tree.now region offset size matched value }
{
    match tree.node(region) {
        Some(node) => refuse_if(
            !node.events.has(offset, size, matched, value),
            Refusal::Unknown(What::Event(offset)),
        ),
        None => None,
    }
}

/// No more translations in a region.
pub(crate) fn no_more_entries(tree: &Tree, region: RegionId) -> Option<Refusal>
    ensures { result ≡ tables.no_more_entries tree.now region }
{
    match tree.node(region) {
        Some(node) => at_limit(
            Which::Entries,
            MOST_ENTRIES as u64,
            node.entries.as_slice().len() as u64,
        ),
        None => None,
    }
}

/// No more ioeventfds in a region.
pub(crate) fn no_more_events(tree: &Tree, region: RegionId) -> Option<Refusal>
    ensures { result ≡ tables.no_more_events tree.now region }
{
    match tree.node(region) {
        Some(node) => at_limit(
            Which::Events,
            MOST_EVENTS as u64,
            node.events.as_slice().len() as u64,
        ),
        None => None,
    }
}

/// No more regions: too many were made, or too many are there.
pub(crate) fn no_more_regions(tree: &Tree) -> Option<Refusal>
    ensures { result ≡ tables.no_more_regions tree.now }
{
    at_limit(Which::Made, u64::from(MOST_MADE), u64::from(tree.made())).or(at_limit(
        Which::Regions,
        MOST_REGIONS as u64,
        tree.slots().len() as u64,
    ))
}

/// No more spaces.
pub(crate) fn no_more_spaces(tree: &Tree) -> Option<Refusal>
    ensures { result ≡ tables.no_more_spaces tree.now }
{
    at_limit(
        Which::Spaces,
        MOST_SPACES as u64,
        tree.spaces().len() as u64,
    )
}
