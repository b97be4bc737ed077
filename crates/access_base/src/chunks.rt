// The chunks of an access.
ghost use Rattle.std.specs.Prelude.{◌≡◌, ◌≤◌, ◌<◌, ◌+◌, ◌^◌};
ghost use Rattle.mem_base.specs.access.Trails.{chunks, first_length, trail_of};
ghost use Rattle.access_base.specs.Leaves.{IsTargetRun};

use generation::Generation;
use iommu::end_of_route;
use mem_base::{SpaceId, Target};
use std::marker::Brand;
use std::sync::ledger::{Blank, Ledger};
use step_counter::Steps;

// The end of the route, with a counter of its own.
#[inline(always)]
fn counted<L: Ledger>(
    g: &Generation,
    space: SpaceId,
    addr: u64,
    len: u64,
    write: bool,
    blank: Blank,
) -> (Target, u64)
    requires name { blank.name ≡ L.name }
    requires parts { blank.parts ≡ L.parts }
    requires counts { 0 < L.parts }
    requires some { 0 < len }
    requires within { addr + len ≤ 2 ^ 64 }
    ensures target { result.0 ≡ (trail_of g.now.forest write space addr).target }
    ensures len { result.1 ≡ first_length (chunks g.now.forest write space addr len) }
    ensures some { 0 < result.1 }
    ensures most { result.1 ≤ len }
{
    let mut steps = Steps::<L>::new(blank);
    end_of_route(g, space, addr, len, write, &mut steps)
}

/// The first chunk of the `len` addresses of a space from `addr` on: where it leads, and how many addresses it has.
#[inline(always)]
pub fn first_chunk(
    g: &Generation,
    space: SpaceId,
    addr: u64,
    len: usize,
    write: bool,
) -> (Target, usize)
    requires some { 0 < len }
    requires within { addr + len ≤ 2 ^ 64 }
    ensures target { result.0 ≡ (trail_of g.now.forest write space addr).target }
    ensures len { result.1 ≡ first_length (chunks g.now.forest write space addr len) }
    ensures some { 0 < result.1 }
    ensures most { result.1 ≤ len }
    ensures run { IsTargetRun g.now.forest result.0 result.1 }
{
    g.knows_forest();
    let (target, count) = counted::<Brand>(g, space, addr, len as u64, write, Blank::new(1));
    (target, count as usize)
}

/// How many of `len` addresses from `addr` on are below 2^64.
pub fn reach(addr: u64, len: usize) -> usize
    ensures most { result ≤ len }
    ensures within { addr + result ≤ 2 ^ 64 }
    ensures all { addr + len ≤ 2 ^ 64 → result ≡ len }
    ensures past { 2 ^ 64 < addr + len → addr + result ≡ 2 ^ 64 }
{
    let last = u64::MAX - addr;
    if len as u64 <= last {
        len
    } else {
        len.min(last as usize + 1)
    }
}
