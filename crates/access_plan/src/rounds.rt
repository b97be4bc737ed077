// What an access reaches by QEMU's core, round by round.
ghost use Rattle.std.specs.Prelude.{◌≡◌, ◌≤◌, ◌<◌, ◌+◌, ◌^◌, IfOk, IfSome, MatchOption, length, true};
ghost use Rattle.mem_base.specs.access.Pieces.{piece_at};
ghost use Rattle.mem_base.specs.access.CorePlans.{own_target};
ghost use Rattle.mem_base.specs.access.Trails.{chunks, first_length, trail_of};
ghost use Rattle.access_cut.specs.Conditions.{AreGood, IsCut};
ghost use Rattle.access_base.specs.Leaves.{IsTargetRun};
ghost use Rattle.access_base.specs.Sizes.{IsSize};
ghost use Rattle.access_plan.specs.HostPlans.{IsNearEnd};
ghost use Rattle.access_plan.specs.Lists.{moved};
ghost use Rattle.access_plan.specs.Rounds.{AddsRound, AddsRounds, IsDeviceAt, TakesRound};

use crate::answerers::{Answerer, answerer_of, own_spot};
use crate::devices::piece;
use crate::leaves::target;
use crate::lists::Reach;
use crate::pages::in_pages;
use access_base::first_chunk;
use access_cut::cut;
use generation::Generation;
use mem_base::{Ops, Piece, RegionId, SpaceId, Spot, Target};
use std::alloc::AllocError;

/// What one round of QEMU's core takes.
#[derive(Clone, Copy, Debug, PartialEq, Eq)]
pub enum Round {
    /// So many bytes, to where what shares their route ends: there is no device.
    Route {
        leads: Target,
        count: usize,
    },
    /// A piece of a region's device, of these access sizes.
    Piece {
        region: RegionId,
        ops: Ops,
        piece: Piece,
    },
}

// The first piece of the bytes of a device from an offset on. None where it may end past the last offset that there is.
fn first_piece(ops: &Ops, offset: u64, left: u64) -> Option<Piece>
    requires good { AreGood ops.now }
    requires some { 1 ≤ left }
    ensures value { MatchOption result (2 ^ 64 < offset + 8) (λ p. p ≡ piece_at ops.now offset left) }
    ensures cut { IfSome result (λ p. IsCut ops.now p) }
    ensures size { IfSome result (λ p. IsSize p.size) }
    ensures most { IfSome result (λ p. p.size ≤ left) }
{
    let few = left.min(8);
    if offset > u64::MAX - (few - 1) {
        return None;
    }
    cut(ops, offset, few).next()
}

// The device at which a route ends, from a spot on, if it ends at one.
fn device_at(g: &Generation, leads: &Target, write: bool) -> Option<(Spot, Ops)>
    ensures { IsDeviceAt g.now.forest write leads.now result }
{
    match leads {
        Target::Leaf(spot) => match answerer_of(g, spot, write) {
            Answerer::Device(ops) => Some((*spot, ops)),
            _ => None,
        },
        Target::Unassigned => None,
    }
}

// Where a route ends, with the flag of the region itself that it takes no writes, whatever a window on the way says.
fn own_target(g: &Generation, leads: &Target) -> Target
    ensures { result ≡ own_target g.now.forest leads.now }
{
    match leads {
        Target::Leaf(spot) => Target::Leaf(own_spot(g, spot)),
        Target::Unassigned => Target::Unassigned,
    }
}

// Where the first of some bytes leads in QEMU's core, and how many of them share its route.
fn own_chunk(g: &Generation, space: SpaceId, addr: u64, len: usize, write: bool) -> (Target, usize)
    requires some { 0 < len }
    requires within { addr + len ≤ 2 ^ 64 }
    ensures target { result.0 ≡ own_target g.now.forest (trail_of g.now.forest write space addr).target }
    ensures near { IsNearEnd result.0 → IsNearEnd (trail_of g.now.forest write space addr).target }
    ensures len { result.1 ≡ first_length (chunks g.now.forest write space addr len) }
    ensures some { 0 < result.1 }
    ensures most { result.1 ≤ len }
    ensures run { IsTargetRun g.now.forest result.0 result.1 }
{
    let (route, count) = first_chunk(g, space, addr, len, write);
    (own_target(g, &route), count)
}

/// The next round of QEMU's core at an address, `left` bytes from the end of an access: how many bytes it takes, and who has them.
///
/// `None` where it meets one of the last offsets of a device of 2^64 bytes, where a piece may end past them. QEMU's core, the body of the
/// loop of `flatview_write_continue`. It takes no memory.
pub fn next_round(
    g: &Generation,
    space: SpaceId,
    addr: u64,
    left: usize,
    write: bool,
) -> Option<Round>
    requires some { 1 ≤ left }
    requires addresses { addr + left ≤ 2 ^ 64 }
    ensures { TakesRound g.now.forest write space addr left result }
{
    let (leads, count) = own_chunk(g, space, addr, left, write);
    let Some((spot, ops)) = device_at(g, &leads, write) else {
        return Some(Round::Route { leads, count });
    };
    let reach = in_pages(g, space, addr, write, left as u64);
    let Some(first) = first_piece(&ops, spot.offset, reach) else {
        return None;
    };
    Some(Round::Piece {
        region: spot.leaf,
        ops,
        piece: first,
    })
}

// What one round reaches, and how many bytes it takes. None where it meets the last offsets of a device.
fn add_round(
    list: &mut Vec<Reach>,
    g: &Generation,
    space: SpaceId,
    addr: u64,
    write: bool,
    bytes: &[u8],
    at: usize,
    left: usize,
) -> Result<Option<usize>, AllocError>
    requires some { 1 ≤ left }
    requires addresses { addr + left ≤ 2 ^ 64 }
    requires within { write ≡ true → at + left ≤ length bytes.now }
    requires bound { at + left < 2 ^ 64 }
    ensures { IfOk result (AddsRound g.now.forest write space addr left (moved write bytes.now) list.old.items list.new.items at) }
{
    match next_round(g, space, addr, left, write) {
        None => Ok(None),
        Some(Round::Route { leads, count }) => {
            target(list, g, &leads, write, bytes, at, count)?;
            Ok(Some(count))
        }
        Some(
            Round::Piece {
                region,
                ops,
                piece: first,
            },
        ) => {
            piece(list, g, region, &ops, &first, write, bytes, at)?;
            Ok(Some(first.size as usize))
        }
    }
}

/// What the rounds of an access reach. False where one meets the last offsets of a device.
pub(crate) fn rounds(
    list: &mut Vec<Reach>,
    g: &Generation,
    space: SpaceId,
    addr: u64,
    write: bool,
    bytes: &[u8],
    len: usize,
) -> Result<bool, AllocError>
    requires addresses { addr + len ≤ 2 ^ 64 }
    requires within { write ≡ true → len ≤ length bytes.now }
    ensures { IfOk result (AddsRounds g.now.forest write space addr len (moved write bytes.now) list.old.items list.new.items) }
{
    let mut done = 0;
    while done < len {
        match add_round(
            list,
            g,
            space,
            addr + done as u64,
            write,
            bytes,
            done,
            len - done,
        )? {
            Some(count) => done += count,
            None => return Ok(false),
        }
    }
    Ok(true)
}
