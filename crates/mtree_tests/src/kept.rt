// What a tree keeps of depth, weight and children, call by call, and the regions that a space reaches.
use crate::cases::Case;
use crate::draws::{building, draw, shifting};
use crate::generated::{has_text, text};
use crate::maps::{add, alias, del, latch, region, resize, space};
use crate::paths::are_judged;
use crate::trees::run;
use mem_base::{Call, Kind, Refusal, RegionId, SpaceId};
use rand_pcg::Lcg64Xsh32;
use region_tree::Tree;
use std::alloc::{AllocError, Global};

/// Whether these are the regions that the plain walk reaches from the root of space 0, by ascending id.
fn are_reached(case: &Case, reach: &[RegionId]) -> bool {
    let Some(root) = case.tree.root(SpaceId(0)) else {
        return reach.is_empty();
    };
    let mut at: usize = 0;
    for number in 0..case.plain.made() {
        let id = RegionId(number);
        if case.tree.node(id).is_some() && case.plain.reaches(root, id) {
            if reach.get(at) != Some(&id) {
                return false;
            }
            at = at.saturating_add(1);
        }
    }
    at == reach.len()
}

/// Whether the regions that space 0 reaches are those.
fn is_reach(case: &Case) -> Result<bool, AllocError> {
    let reach = case.tree.reach(SpaceId(0))?;
    Ok(are_reached(case, reach.as_slice()))
}

/// Whether a call is one after which less may stand above a region, or other regions.
fn takes_away(call: &Call) -> bool {
    matches!(
        call,
        Call::Del { .. } | Call::Move { .. } | Call::Drop { .. } | Call::Retarget { .. }
    )
}

/// The next call: in two of three draws one that builds, else one that shifts or drops.
fn next_call(rng: &mut Lcg64Xsh32, made: u32) -> Call {
    if draw(rng, 3) == 0 {
        shifting(rng, made)
    } else {
        building(rng, made)
    }
}

/// Does the next call; it is counted where it is accepted and takes away.
fn goes_on(case: &mut Case) -> Result<(), Refusal> {
    let call = next_call(&mut case.rng, case.plain.made());
    let refused = case.refused;
    case.call(&call)?;
    if case.refused == refused && takes_away(&call) {
        case.count(0, 1);
    }
    Ok(())
}

/// Whether depth and weight of all regions are those of the plain walk after each drawn call, and the regions that space 0 reaches in
/// the end.
pub(crate) fn are_kept(case: &mut Case) -> Result<bool, Refusal> {
    for _ in 0..100_u32 {
        goes_on(case)?;
        if !are_judged(case) {
            return Ok(false);
        }
    }
    Ok(is_reach(case)?)
}

const MEGABYTES: u128 = 0x10_0000;

const WHOLE: u128 = 0x1_0000_0000_0000_0000;

/// The regions of a PC, in order: system memory, the PCI bus, memory, the memory below 4G, a frame buffer, the window on it, the
/// firmware, and the window on it below 1M.
fn pc_regions() -> [Call; 8] {
    [
        region(Kind::Container, WHOLE),
        region(Kind::Container, WHOLE),
        region(Kind::Ram, 128 * MEGABYTES),
        alias(128 * MEGABYTES, 2, 0),
        region(latch(), 0x2_0000),
        alias(0x2_0000, 1, 0xa_0000),
        region(Kind::Rom, 0x4_0000),
        alias(0x2_0000, 6, 0x2_0000),
    ]
}

/// Where each stands.
fn pc_places() -> [Call; 7] {
    [
        space(0, 0),
        add(0, 0, 1, -1),
        add(0, 0, 3, 0),
        add(1, 0xa_0000, 4, 0),
        add(0, 0xa_0000, 5, 1),
        add(1, 0xfffc_0000, 6, 0),
        add(0, 0xe_0000, 7, 1),
    ]
}

/// Makes the worked PC of QEMU's manual, "The memory API".
fn build_pc(tree: &mut Tree) -> Result<(), Refusal> {
    run(tree, &pc_regions())?;
    run(tree, &pc_places())
}

/// Whether the root of space 0 has depth 4 and this weight.
fn is_judged(tree: &Tree, weight: u64) -> bool {
    let root = RegionId(0);
    tree.node(root).is_some() && tree.depth(root) == 4 && tree.weight(root) == weight
}

/// Whether the children of region 0, in the order of search, are these: id, offset, last address in the child, priority.
fn are_placed(tree: &Tree, wanted: &[(u32, u64, u64, i32)]) -> bool {
    if tree.node(RegionId(0)).is_none() {
        return false;
    }
    let ids = tree.children(RegionId(0));
    let placed = tree.placed_children(RegionId(0));
    for (i, want) in wanted.iter().enumerate() {
        let (Some(id), Some(child)) = (ids.get(i), placed.get(i)) else {
            return false;
        };
        if *id != child.id || (child.id.0, child.offset, child.last, child.priority) != *want {
            return false;
        }
    }
    ids.len() == wanted.len() && placed.len() == wanted.len()
}

/// Takes the firmware's window out of system memory, makes a second space, and logs all memory.
fn change(tree: &mut Tree) -> Result<(), Refusal> {
    run(tree, &[del(7), space(1, 1), Call::Global { on: true }])
}

/// Whether the worked PC is as it was made.
fn is_before(tree: &Tree) -> bool {
    is_judged(tree, 12) && tree.root(SpaceId(1)).is_none() && !tree.is_global()
}

/// Whether it is as it was changed.
fn is_after(tree: &Tree) -> bool {
    is_judged(tree, 10) && tree.root(SpaceId(1)) == Some(RegionId(1)) && tree.is_global()
}

/// Changes a tree, and says whether its copy has this text, before the change and after it.
fn keeps_text(alloc: Global, tree: &mut Tree, copy: &Tree, text: &str) -> Result<bool, Refusal> {
    let copied = has_text(alloc, copy, text)?;
    change(tree)?;
    let kept = has_text(alloc, copy, text)?;
    Ok(copied && kept && is_before(copy) && is_after(tree))
}

/// Changes a tree, and says whether its copy is as the tree was, before the change and after it.
fn keeps(alloc: Global, tree: &mut Tree, copy: &Tree) -> Result<bool, Refusal> {
    let before = text(alloc, tree)?;
    let is_so = keeps_text(alloc, tree, copy, before.as_str());
    is_so
}

/// Whether a copy of the worked PC is as the tree was, and stays so when the tree changes.
pub(crate) fn is_copied(alloc: Global, tree: &mut Tree) -> Result<bool, Refusal> {
    build_pc(tree)?;
    let copy = tree.try_copy()?;
    let is_so = keeps(alloc, tree, &copy);
    is_so
}

static CHILDREN: [(u32, u64, u64, i32); 4] = [
    (7, 0xe_0000, 0x1_ffff, 1),
    (5, 0xa_0000, 0x1_ffff, 1),
    (3, 0, 0x7ff_ffff, 0),
    (1, 0, u64::MAX, -1),
];

/// The same, with the firmware's window resized.
static RESIZED: [(u32, u64, u64, i32); 4] = [
    (7, 0xe_0000, 0xffff, 1),
    (5, 0xa_0000, 0x1_ffff, 1),
    (3, 0, 0x7ff_ffff, 0),
    (1, 0, u64::MAX, -1),
];

/// How many regions a space reaches.
fn reached(tree: &Tree, space: u32) -> Result<usize, AllocError> {
    let reach = tree.reach(SpaceId(space))?;
    Ok(reach.len())
}

/// Whether the children of system memory are as they should be, before and after a resize of one of them, and all regions are
/// reached from there.
pub(crate) fn are_children(tree: &mut Tree) -> Result<bool, Refusal> {
    build_pc(tree)?;
    let before = are_placed(tree, &CHILDREN);
    let (all, nothing) = (reached(tree, 0)?, reached(tree, 1)?);
    tree.apply(&resize(7, 0x1_0000))?;
    let after = are_placed(tree, &RESIZED);
    Ok(before && all == 8 && nothing == 0 && after)
}
