// The regions of a tree in chunks, those of which that did not change taken over from a forest.
ghost use Rattle.std.specs.Prelude.{◌≡◌, ◌++◌, ◌<◌, ◌≤◌, ◌+◌, ◌/◌, true, false, IfOk, OnOk, nat_lt, length, take, drop, flat_map, unwrap_or};
ghost use Rattle.std.specs.Arc.{arc_value};
ghost use Rattle.mem_base.specs.lists.Every.{Every};
ghost use Rattle.mem_base.specs.map.Region.{IsAscending};
ghost use Rattle.region_slots.specs.Slots.{nodes_of};
ghost use Rattle.node_chunks.specs.Near.{OthersAre, AreLeft, IsBound, is_below, is_touched};

use mem_base::{Chunk, Nodes, RegionId};
use region_slots::{Slot, copied};
use std::alloc::{AllocError, Global};
use std::sync::Arc;

// A chunk with copies of the regions of these slots.
fn chunk_of(alloc: Global, slots: &[Slot]) -> Result<Arc<Chunk, Global>, AllocError>
    requires some { 0 < length slots.now }
    requires few { length slots.now ≤ 64 }
    ensures { IfOk result (λ c. arc_value c ≡ nodes_of slots.now) }
{
    let mut list = Vec::with_capacity(alloc, slots.len())?;
    for slot in slots {
        list.push(copied(&slot.node)?)?;
    }
    Ok(Arc::new(alloc, Chunk::new(list))?)
}

// Puts copies of the regions of these slots behind the chunks that are there, in chunks that are full but for the last one.
fn push_copies(
    alloc: Global,
    chunks: &mut Vec<Arc<Chunk, Global>>,
    slots: &[Slot],
) -> Result<(), AllocError>
    requires { Every (λ c. 0 < length (arc_value c)) chunks.old.items }
    ensures value { OnOk result (flat_map arc_value chunks.new.items ≡ flat_map arc_value chunks.old.items ++ nodes_of slots.now) }
    ensures filled { OnOk result (Every (λ c. 0 < length (arc_value c)) chunks.new.items) }
{
    let mut rest = slots;
    while !rest.is_empty() {
        let (part, left) = rest.split_at(rest.len().min(Chunk::MOST));
        chunks.push(chunk_of(alloc, part)?)?;
        rest = left;
    }
    Ok(())
}

// Whether the number of a region is below a bound, if there is one.
fn is_below(bound: Option<RegionId>, region: RegionId) -> bool
    ensures { result ≡ is_below bound region.0 }
{
    match bound {
        None => true,
        Some(bound) => region.0 < bound.0,
    }
}

// Whether one of these regions has a number from one on and below a bound.
fn is_touched(from: RegionId, bound: Option<RegionId>, regions: &[RegionId]) -> bool
    ensures { result ≡ is_touched from.0 bound regions.now }
{
    for region in regions {
        if from.0 <= region.0 && is_below(bound, *region) {
            return true;
        }
    }
    false
}

// How many of the first of these slots have regions below a bound.
fn count_below(bound: Option<RegionId>, slots: &[Slot]) -> usize
    requires { IsAscending (nodes_of slots.now) }
    ensures count { result ≤ length slots.now }
    ensures below { Every (λ n. is_below bound n.id.0 ≡ true) (nodes_of (take result slots.now)) }
    ensures above { Every (λ n. is_below bound n.id.0 ≡ false) (nodes_of (drop result slots.now)) }
{
    for i in 0..slots.len() {
        if !is_below(bound, slots[i].node.id) {
            return i;
        }
    }
    slots.len()
}

// The id of the first region of the chunk at this index, if there is one.
fn first_at(chunks: &[Arc<Chunk, Global>], index: usize) -> Option<RegionId>
    requires { Every (λ c. 0 < length (arc_value c)) chunks.now }
    ensures { IsBound result (flat_map arc_value (drop index chunks.now)) }
{
    if index >= chunks.len() {
        return None;
    }
    Some(chunks[index].first())
}

// Puts behind the chunks that are there what the first of the old chunks that are left becomes: itself where no region in its place
// changed, and else copies. `rest` has what is left of the tree's regions; answers how many of these were put.
//
// In the chunk's place stand the regions from `from` on and below `bound`, the id that the chunk after it begins with.
fn push_next(
    alloc: Global,
    chunks: &mut Vec<Arc<Chunk, Global>>,
    old: &[Arc<Chunk, Global>],
    from: RegionId,
    bound: Option<RegionId>,
    changed: &[RegionId],
    rest: &[Slot],
) -> Result<usize, AllocError>
    requires some { 0 < length old.now }
    requires bound { IsBound bound (flat_map arc_value (drop 1 old.now)) }
    requires left { AreLeft from.0 (flat_map arc_value old.now) (nodes_of rest.now) changed.now }
    requires old_filled { Every (λ c. 0 < length (arc_value c)) old.now }
    requires filled { Every (λ c. 0 < length (arc_value c)) chunks.old.items }
    ensures count { IfOk result (λ n. n ≤ length rest.now) }
    ensures value { IfOk result (λ n. flat_map arc_value chunks.new.items ≡ flat_map arc_value chunks.old.items ++ nodes_of (take n rest.now)) }
    ensures left { IfOk result (λ n.
        AreLeft (unwrap_or bound from).0 (flat_map arc_value (drop 1 old.now)) (nodes_of (drop n rest.now)) changed.now) }
    ensures filled { OnOk result (Every (λ c. 0 < length (arc_value c)) chunks.new.items) }
{
    if is_touched(from, bound, changed) {
        let count = count_below(bound, rest);
        push_copies(alloc, chunks, rest.split_at(count).0)?;
        return Ok(count);
    }
    let first = &old[0];
    chunks.push(Arc::try_clone(first)?)?;
    Ok(first.as_slice().len())
}

/// The regions of these slots in chunks, from regions that differ from them in some alone: chunks with no such region are shared.
pub fn nodes_near(
    alloc: Global,
    old: &Nodes,
    changed: &[RegionId],
    slots: &[Slot],
) -> Result<Nodes, AllocError>
    requires ascending { IsAscending (nodes_of slots.now) }
    requires others { OthersAre old.now (nodes_of slots.now) changed.now }
    ensures { IfOk result (λ nodes. nodes ≡ nodes_of slots.now) }
{
    let old = old.chunks();
    let mut chunks = Vec::with_capacity(alloc, old.len() + 1)?;
    let mut rest = slots;
    let mut from = RegionId(0);
    for i in 0..old.len() {
        let bound = first_at(old, i + 1);
        let left = old.split_at(i).1;
        let count = push_next(alloc, &mut chunks, left, from, bound, changed, rest)?;
        rest = rest.split_at(count).1;
        from = bound.unwrap_or(from);
    }
    push_copies(alloc, &mut chunks, rest)?;
    Ok(Nodes::new(chunks))
}

/// The regions of these slots in chunks of their own, full but for the last one.
pub fn nodes_anew(alloc: Global, slots: &[Slot]) -> Result<Nodes, AllocError>
    requires { IsAscending (nodes_of slots.now) }
    ensures { IfOk result (λ nodes. nodes ≡ nodes_of slots.now) }
{
    let mut chunks = Vec::with_capacity(alloc, slots.len() / Chunk::MOST + 1)?;
    push_copies(alloc, &mut chunks, slots)?;
    Ok(Nodes::new(chunks))
}

/// Whether these are too many chunks for this number of regions: fewer than 32 regions a chunk. Regions that are dropped leave their chunks
/// shorter; by then more were dropped than are left, so making all chunks anew copies less than one region for each that was dropped.
pub fn is_sparse(chunks: usize, regions: usize) -> bool
    ensures { result ≡ nat_lt (regions / 32 + 4) chunks }
{
    regions / (Chunk::MOST / 2) + 4 < chunks
}
