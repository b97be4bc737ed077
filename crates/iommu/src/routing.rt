// Routes, hop by hop: each hop narrows the number of addresses that go along, and hands it on.
ghost use Rattle.std.specs.Prelude.{◌≡◌, ◌+◌, ◌*◌, ◌≤◌, ◌^◌, ◌<◌, ℕ};
ghost use Rattle.mem_base.specs.access.Trails.{route_of};
ghost use Rattle.mem_base.specs.map.Limits.{most_translations};
ghost use Rattle.iommu.specs.Probes.{IsBoundOfAll};
ghost use Rattle.iommu.specs.Hops.{FitsLeaf};

use crate::hops::{Hop, hop_from, last};
use crate::routes::{Route, Used};
use generation::Generation;
use mem_base::{MOST_TRANSLATIONS, SpaceId};
use std::sync::ledger::Ledger;
use step_counter::Steps;

/// The route of an access to `len` addresses of a space, from `addr` on: a write, or a read.
///
/// It tells where the first address leads, through at most eight translations; how many addresses from there on share the
/// route, so that each search on the way of one finds the byte after the other's, with the same attributes, by the same
/// translations and, where what is found is unmergeable, on the same path; and the translations that are used. An address is
/// unassigned where nothing is found, where no translation covers it or lets it through, and where a ninth one would be used.
///
/// It takes no memory. Where a look-up in each view takes at most k probes, it takes at most
/// (`MOST_TRANSLATIONS` + 1) * k: one look-up for each translation, and one more.
pub fn route<L: Ledger>(
    g: &Generation,
    space: SpaceId,
    addr: u64,
    len: u64,
    write: bool,
    steps: &mut Steps<L>,
) -> Route
    requires some { 0 < len }
    requires within { addr + len ≤ 2 ^ 64 }
    ensures target { result.target ≡ (route_of g.now.forest write space addr len).target }
    ensures len { result.len ≡ (route_of g.now.forest write space addr len).length }
    ensures used { result.used ≡ (route_of g.now.forest write space addr len).used }
    ensures some { 0 < result.len }
    ensures within { result.len ≤ len }
    ensures offsets { FitsLeaf result.target result.len }
    ensures probes { (k : ℕ) → IsBoundOfAll g.now.forest k → steps.new ≤ steps.old + (most_translations + 1) * k }
{
    let mut used = Used::new();
    let (mut here, mut from, mut count) = (space, addr, len);
    for _ in 0..MOST_TRANSLATIONS {
        match hop_from(g, here, from, count, write, steps) {
            Hop::End { target, len } => return Route { target, len, used },
            Hop::On { entry, addr, len } => {
                used.push(entry);
                (here, from, count) = (entry.space, addr, len);
            }
        }
    }
    let (target, len) = last(g, here, from, count, steps);
    Route { target, len, used }
}
