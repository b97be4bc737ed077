// What an access reaches of a device, piece by piece.
ghost use Rattle.std.specs.Prelude.{◌≡◌, ◌≤◌, ◌<◌, ◌+◌, ◌^◌, IfOk, length, map, true};
ghost use Rattle.mem_base.specs.views.LiveEvents.{events_of};
ghost use Rattle.mem_base.specs.access.AccessSteps.{part};
ghost use Rattle.mem_base.specs.access.Pieces.{callbacks};
ghost use Rattle.mem_base.specs.access.Plans.{in_callback, in_device, in_piece, notifier_for};
ghost use Rattle.access_cut.specs.Conditions.{AreGood, IsCut};
ghost use Rattle.access_base.specs.Sizes.{IsSize};
ghost use Rattle.access_plan.specs.Lists.{Adds, moved};

use crate::lists::Reach;
use crate::notifiers::notifier;
use crate::requests::request_at;
use access_cut::{accesses, cut, number_of};
use generation::Generation;
use mem_base::{Ops, Piece, RegionId};
use std::alloc::AllocError;

// What a valid piece reaches: its callbacks.
fn callbacks(
    list: &mut Vec<Reach>,
    region: RegionId,
    ops: &Ops,
    piece: &Piece,
    write: bool,
    bytes: &[u8],
    at: usize,
) -> Result<(), AllocError>
    requires good { AreGood ops.now }
    requires cut { IsCut ops.now piece.now }
    requires size { IsSize piece.now.size }
    requires within { write ≡ true → at + piece.now.size ≤ length bytes.now }
    requires bound { at + piece.now.size < 2 ^ 64 }
    ensures { IfOk result (λ _. Adds (moved write bytes.now) list.old.items list.new.items
        (map (in_callback region ops.now (part at piece.now.size (moved write bytes.now))) (callbacks ops.now piece.now)) at (at + piece.now.size)) }
{
    let mut places = accesses(ops, piece);
    while let Some((offset, size)) = places.next() {
        let skipped = at + (offset - piece.offset) as usize;
        let count = size.min(piece.size);
        list.push(Reach::Callback {
            region,
            offset,
            size,
            request: request_at(write, bytes, skipped, count, size, ops.big),
            at: skipped,
            len: count as usize,
        })?;
    }
    Ok(())
}

// The notifier that takes a piece of a write in place of the device, if any.
fn notifier_for(
    g: &Generation,
    region: RegionId,
    ops: &Ops,
    piece: &Piece,
    write: bool,
    bytes: &[u8],
    at: usize,
) -> Option<u32>
    requires size { IsSize piece.now.size }
    requires within { write ≡ true → at + piece.now.size ≤ length bytes.now }
    ensures { result ≡ notifier_for ops.now (events_of g.now.forest region) piece.now (part at piece.now.size (moved write bytes.now)) }
{
    if !write {
        return None;
    }
    let mine = &bytes[at..at + piece.size as usize];
    notifier(g, region, piece, number_of(mine, ops.big))
}

/// What a piece reaches: a notifier that it sets takes it in place of the device, and one that the device does not take reaches nothing.
pub(crate) fn piece(
    list: &mut Vec<Reach>,
    g: &Generation,
    region: RegionId,
    ops: &Ops,
    piece: &Piece,
    write: bool,
    bytes: &[u8],
    at: usize,
) -> Result<(), AllocError>
    requires good { AreGood ops.now }
    requires cut { IsCut ops.now piece.now }
    requires size { IsSize piece.now.size }
    requires within { write ≡ true → at + piece.now.size ≤ length bytes.now }
    requires bound { at + piece.now.size < 2 ^ 64 }
    ensures { IfOk result (λ _. Adds (moved write bytes.now) list.old.items list.new.items
        (in_piece region ops.now (events_of g.now.forest region) piece.now (part at piece.now.size (moved write bytes.now))) at (at + piece.now.size)) }
{
    let len = piece.size as usize;
    if !piece.valid {
        list.push(Reach::Nothing { at, len })?;
        return Ok(());
    }
    match notifier_for(g, region, ops, piece, write, bytes, at) {
        Some(number) => {
            list.push(Reach::Notifier { number, at, len })?;
            Ok(())
        }
        None => callbacks(list, region, ops, piece, write, bytes, at),
    }
}

/// What some bytes of a region's device reach, from an offset on.
pub(crate) fn device(
    list: &mut Vec<Reach>,
    g: &Generation,
    region: RegionId,
    ops: &Ops,
    offset: u64,
    write: bool,
    bytes: &[u8],
    at: usize,
    len: usize,
) -> Result<(), AllocError>
    requires good { AreGood ops.now }
    requires offsets { offset + len ≤ 2 ^ 64 }
    requires within { write ≡ true → at + len ≤ length bytes.now }
    requires bound { at + len < 2 ^ 64 }
    ensures { IfOk result (λ _. Adds (moved write bytes.now) list.old.items list.new.items
        (in_device region offset ops.now (events_of g.now.forest region) (part at len (moved write bytes.now))) at (at + len)) }
{
    let mut done = 0;
    let mut pieces = cut(ops, offset, len as u64);
    while let Some(next) = pieces.next() {
        piece(list, g, region, ops, &next, write, bytes, at + done)?;
        done += next.size as usize;
    }
    Ok(())
}
