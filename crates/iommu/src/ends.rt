// Where routes end, without the translations that are used.
ghost use Rattle.std.specs.Prelude.{◌≡◌, ◌+◌, ◌*◌, ◌≤◌, ◌^◌, ◌<◌, ℕ};
ghost use Rattle.mem_base.specs.access.Trails.{route_of};
ghost use Rattle.mem_base.specs.map.Limits.{most_translations};
ghost use Rattle.iommu.specs.Probes.{IsBoundOfAll};
ghost use Rattle.iommu.specs.Hops.{FitsLeaf};

use crate::hops::{Hop, hop_from, last};
use generation::Generation;
use mem_base::{MOST_TRANSLATIONS, SpaceId, Target};
use std::sync::ledger::Ledger;
use step_counter::Steps;

/// Where the route of an access to `len` addresses of a space ends (`route`): the target of the first address, and how many
/// addresses from there on share the route. An access asks for these two alone, so the translations on the way are not kept.
///
/// It takes no memory, and as many look-ups as `route`.
#[inline(always)]
pub fn end_of_route<L: Ledger>(
    g: &Generation,
    space: SpaceId,
    addr: u64,
    len: u64,
    write: bool,
    steps: &mut Steps<L>,
) -> (Target, u64)
    requires some { 0 < len }
    requires within { addr + len ≤ 2 ^ 64 }
    ensures target { result.0 ≡ (route_of g.now.forest write space addr len).target }
    ensures len { result.1 ≡ (route_of g.now.forest write space addr len).length }
    ensures some { 0 < result.1 }
    ensures within { result.1 ≤ len }
    ensures offsets { FitsLeaf result.0 result.1 }
    ensures probes { (k : ℕ) → IsBoundOfAll g.now.forest k → steps.new ≤ steps.old + (most_translations + 1) * k }
{
    let (mut here, mut from, mut count) = (space, addr, len);
    for _ in 0..MOST_TRANSLATIONS {
        match hop_from(g, here, from, count, write, steps) {
            Hop::End { target, len } => return (target, len),
            Hop::On { entry, addr, len } => {
                (here, from, count) = (entry.space, addr, len);
            }
        }
    }
    last(g, here, from, count, steps)
}
