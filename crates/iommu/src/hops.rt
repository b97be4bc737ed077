// One hop of a route: one search, and what the region that is found does with the address.
ghost use Rattle.std.specs.Prelude.{◌≡◌, ◌+◌, ◌≤◌, ◌^◌, ◌<◌, ℕ, suc, Bool, None, IfSome, []};
ghost use Rattle.mem_base.specs.map.Entries.{AreEntries};
ghost use Rattle.mem_base.specs.map.Search.{found_at, look};
ghost use Rattle.mem_base.specs.access.Translations.{translation_at, if_permitted};
ghost use Rattle.iommu.specs.Pages.{ArePages};
ghost use Rattle.iommu.specs.Probes.{IsBoundOfAll};
ghost use Rattle.iommu.specs.Ways.{IsStretch, way, way_within};
ghost use Rattle.iommu.specs.Hops.{FitsLeaf, IsShutFor, IsThrough, way_of, Narrows};

use crate::tables;
use generation::Generation;
use mem_base::{Entry, SpaceId, Spot, Target};
use std::sync::ledger::Ledger;
use step_counter::Steps;

/// One hop of a route of some addresses.
#[derive(Clone, Copy, Debug)]
pub(crate) enum Hop {
    /// The route ends here, for this many of them.
    End { target: Target, len: u64 },
    /// A translation is used, and this many of them go on from an address of its space.
    On { entry: Entry, addr: u64, len: u64 },
}

// What is found at an address of a space, and how many addresses, from there on and at most `limit`, find the same thing,
// byte after byte.
#[inline(always)]
fn search<L: Ledger>(
    g: &Generation,
    space: SpaceId,
    addr: u64,
    limit: u64,
    steps: &mut Steps<L>,
) -> (Option<Spot>, u64)
    requires some { 0 < limit }
    requires within { addr + limit ≤ 2 ^ 64 }
    ensures spot { result.0 ≡ look g.now.forest space addr }
    ensures stretch { IsStretch (found_at g.now.forest space) addr result.1 limit }
    ensures offsets { IfSome result.0 (λ spot. spot.offset + result.1 ≤ 2 ^ 64) }
    ensures probes { (k : ℕ) → IsBoundOfAll g.now.forest k → steps.new ≤ steps.old + k }
{
    // The views of such a forest show what a search finds.
    g.knows_forest();
    let Some(atlas) = g.atlas(space) else {
        return (None, limit);
    };
    let (spot, end) = atlas.run_at(addr, steps);
    (spot, (limit - 1).min(end - addr) + 1)
}

// At how many offsets, from this one on and at most `run`, no translation is used.
fn shut_for(entries: &[Entry], offset: u64, run: u64, write: bool) -> u64
    requires sorted { AreEntries entries.now }
    requires pages { ArePages entries.now }
    requires some { 0 < run }
    requires shut { if_permitted write (translation_at entries.now offset) ≡ None }
    ensures { IsShutFor entries.now write offset run result }
{
    match tables::next(entries, offset, write) {
        Some(entry) => run.min(entry.iova - offset),
        None => run,
    }
}

// The hop at an offset of an IOMMU region, for `run` offsets from there on. Inlined, so that the answer of a hop need not be
// written to memory and read back.
#[inline(always)]
fn through(entries: &[Entry], offset: u64, run: u64, write: bool) -> Hop
    requires sorted { AreEntries entries.now }
    requires pages { ArePages entries.now }
    requires some { 0 < run }
    ensures { IsThrough entries.now write offset run result }
{
    match tables::used(entries, offset, write) {
        Some(entry) => Hop::On {
            entry,
            addr: tables::translated(&entry, offset),
            len: (run - 1).min(entry.mask - (offset - entry.iova)) + 1,
        },
        None => Hop::End {
            target: Target::Unassigned,
            len: shut_for(entries, offset, run, write),
        },
    }
}

/// One hop of a route on which a translation may still be used.
#[inline(always)]
pub(crate) fn hop_from<L: Ledger>(
    g: &Generation,
    space: SpaceId,
    addr: u64,
    len: u64,
    write: bool,
    steps: &mut Steps<L>,
) -> Hop
    requires some { 0 < len }
    requires within { addr + len ≤ 2 ^ 64 }
    ensures route { (left : ℕ) → way_within g.now.forest write (suc left) space addr len ≡ way_of g.now.forest write left result }
    ensures narrows { Narrows len result }
    ensures probes { (k : ℕ) → IsBoundOfAll g.now.forest k → steps.new ≤ steps.old + k }
{
    let (found, run) = search(g, space, addr, len, steps);
    let Some(spot) = found else {
        return Hop::End {
            target: Target::Unassigned,
            len: run,
        };
    };
    match g.table(spot.leaf) {
        Some(entries) => through(entries, spot.offset, run, write),
        None => Hop::End {
            target: Target::Leaf(spot),
            len: run,
        },
    }
}

/// The end of a route on which no more translation may be used, and how many addresses share it.
#[inline(never)]
pub(crate) fn last<L: Ledger>(
    g: &Generation,
    space: SpaceId,
    addr: u64,
    len: u64,
    steps: &mut Steps<L>,
) -> (Target, u64)
    requires some { 0 < len }
    requires within { addr + len ≤ 2 ^ 64 }
    ensures route { (write : Bool) → way_within g.now.forest write 0 space addr len ≡ way result.0 result.1 [] }
    ensures some { 0 < result.1 }
    ensures within { result.1 ≤ len }
    ensures offsets { FitsLeaf result.0 result.1 }
    ensures probes { (k : ℕ) → IsBoundOfAll g.now.forest k → steps.new ≤ steps.old + k }
{
    let (found, run) = search(g, space, addr, len, steps);
    let Some(spot) = found else {
        return (Target::Unassigned, run);
    };
    match g.table(spot.leaf) {
        Some(_) => (Target::Unassigned, run),
        None => (Target::Leaf(spot), run),
    }
}
