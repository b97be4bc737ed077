// Tables of slots.
ghost use Rattle.std.specs.Prelude.{◌≡◌, ◌==◌, ◌+◌, ◌-◌, ◌^◌, ◌<◌, ◌≤◌, ℕ, Some, IfOk, OnOk};
ghost use Rattle.std.specs.List.{list_any};
ghost use Rattle.mem_base.specs.lists.Every.{Every};
ghost use Rattle.mem_base.specs.views.Replay.{ranges_after_all};
ghost use Rattle.mem_base.specs.views.View.{shown};
ghost use Rattle.mem_base.specs.views.Walk.{walk};
ghost use Rattle.script_names.specs.Tables.{printed_names};
ghost use Rattle.view_slots.specs.Edges.{HasEnds};
ghost use Rattle.view_slots.specs.Slots.{Adds, AlikeKeep, IsPiece, is_slot, is_slot_kind, memory_alone};

use crate::edges::Edges;
use crate::pieces::cut;
use mem_base::{FlatRange, Kind, RegionId, View, Walk};
use script_names::Names;
use std::alloc::{AllocError, Global};
use view_laws::a_walk_replays;

fn is_slot_kind(kind: Option<Kind>, romd: bool) -> bool
    ensures { result ≡ is_slot_kind kind romd }
{
    match kind {
        Some(Kind::Ram | Kind::Rom | Kind::Host) => true,
        Some(Kind::RomDevice(_)) => romd,
        _ => false,
    }
}

fn is_among(leaf: RegionId, others: &[RegionId]) -> bool
    ensures { result ≡ list_any (λ r. r.0 == leaf.0) others.now }
{
    others.iter().any(|region| region.0 == leaf.0)
}

// Whether a guest reaches the range as memory.
fn is_slot(names: &Names, others: &[RegionId], range: FlatRange) -> bool
    ensures { result ≡ is_slot (printed_names names.now) others.now range.leaf range.attrs }
{
    is_slot_kind(names.kind_of(range.leaf), range.attrs.romd) || is_among(range.leaf, others)
}

// Adds the slots of a range, where it is memory.
fn add_slots(
    edges: &[u64],
    range: FlatRange,
    names: &Names,
    others: &[RegionId],
    slots: &mut Vec<FlatRange>,
) -> Result<(), AllocError>
    requires order { range.start ≤ range.last }
    requires fits { range.offset + (range.last - range.start) < 2 ^ 64 }
    ensures { OnOk result (Adds (is_slot (printed_names names.now) others.now range.leaf range.attrs) edges.now range slots.old.items slots.new.items) }
{
    if is_slot(names, others, range) {
        cut(edges, range, slots)?;
        Ok(())
    } else {
        Ok(())
    }
}

/// The slots of a view: its memory, cut at the edges. `others` are regions that count as memory besides RAM, ROM, ROM devices
/// in their mode and host memory.
pub fn table(
    alloc: Global,
    edges: &Edges,
    view: &View,
    names: &Names,
    others: &[RegionId],
) -> Result<View, AllocError>
    requires { Every (HasEnds edges.now) view.now }
    ensures shows { IfOk result (λ t. (a : ℕ) → shown t a ≡ memory_alone (printed_names names.now) others.now (shown view.now a)) }
    ensures pieces { IfOk result (λ t. Every (IsPiece edges.now) t) }
{
    let ranges = view.as_slice();
    let edges = edges.as_slice();
    let mut slots = Vec::new(alloc);
    for range in ranges {
        add_slots(edges, *range, names, others, &mut slots)?;
    }
    Ok(View::new(slots))
}

/// The steps from one table to the next: the slots that go, and then those that stay and those that come. Replayed on the
/// one they give the other, and no slot meets another at any step.
pub fn steps(alloc: Global, old: &View, new: &View) -> Result<Walk, AllocError>
    ensures value { IfOk result (λ w. w ≡ walk old.now new.now) }
    ensures replays { IfOk result (λ w. ranges_after_all (Some old.now) w ≡ Some new.now) }
{
    // The ranges of both ascend, and the law says that what the walk does is what it should.
    let _olds = old.as_slice();
    let _news = new.as_slice();
    a_walk_replays();
    let walk = view_walk::walk(alloc, old, new)?;
    Ok(walk)
}

/// Two slots that are cut at the same edges and show an address alike are the same slot.
pub fn alike_pages_keep_their_slot()
    ensures { AlikeKeep }
{}
