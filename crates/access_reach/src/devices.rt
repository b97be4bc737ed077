// Accesses to devices, piece by piece.
ghost use Rattle.std.specs.Prelude.{◌≡◌, ◌≤◌, ◌<◌, ◌+◌, ◌^◌, [], ◌∷◌, length, map};
ghost use Rattle.mem_base.specs.views.LiveEvents.{events_of};
ghost use Rattle.mem_base.specs.access.AccessSteps.{reading, writing};
ghost use Rattle.mem_base.specs.access.Pieces.{callbacks};
ghost use Rattle.access_cut.specs.Conditions.{AreGood, IsCut};
ghost use Rattle.access_base.specs.Sizes.{IsSize};
ghost use Rattle.mem_base.specs.access.Plans.{answers, callback, in_callback, in_device, in_piece, request};
ghost use Rattle.access_reach.specs.DevicePieces.{piece_read};
ghost use Rattle.access_reach.specs.Asking.{outcome};
ghost use Rattle.access_plan.specs.Answering.{IsDeviceRegion};
ghost use Rattle.access_reach.specs.Reaching.{AllTaken, HasReached};

use crate::buses::{Answering, Taking};
use access_base::{DONE, UNANSWERED, joined, padded, put};
use access_cut::{accesses, cut, number_of};
use access_plan::notifier;
use mem_base::{Ops, Piece, RegionId, TxResult};

// A read by one callback; the first of its bytes are shown.
fn read_callback<B: Answering>(
    bus: &mut B,
    region: RegionId,
    big: bool,
    offset: u64,
    size: u8,
    out: &mut [u8],
) -> TxResult
    requires device { IsDeviceRegion (B.shows bus.old).forest region }
    requires size { size ≤ 8 }
    requires fits { length out.old ≤ size }
    ensures { HasReached B.asks bus.old (callback region offset size (answers (length out.old) big) ∷ []) (outcome out.new result) bus.new }
{
    let (number, result) = bus.read_device(region, offset, size);
    put(number, size, big, out);
    result
}

// Reads a valid piece, by its callbacks.
fn read_callbacks<B: Answering>(
    bus: &mut B,
    region: RegionId,
    ops: &Ops,
    piece: &Piece,
    out: &mut [u8],
) -> TxResult
    requires device { IsDeviceRegion (B.shows bus.old).forest region }
    requires good { AreGood ops.now }
    requires cut { IsCut ops.now piece.now }
    requires size { IsSize piece.now.size }
    requires all { length out.old ≡ piece.now.size }
    ensures { HasReached B.asks bus.old (map (in_callback region ops.now (reading piece.now.size)) (callbacks ops.now piece.now))
        (outcome out.new result) bus.new }
{
    let mut result = DONE;
    let mut places = accesses(ops, piece);
    while let Some((offset, size)) = places.next() {
        let skipped = (offset - piece.offset) as usize;
        let count = size.min(piece.size) as usize;
        let mine = &mut out[skipped..skipped + count];
        result = joined(
            result,
            read_callback(bus, region, ops.big, offset, size, mine),
        );
    }
    result
}

/// Reads a piece of a region's device.
pub(crate) fn read_piece<B: Answering>(
    bus: &mut B,
    region: RegionId,
    ops: &Ops,
    piece: &Piece,
    out: &mut [u8],
) -> TxResult
    requires device { IsDeviceRegion (B.shows bus.old).forest region }
    requires good { AreGood ops.now }
    requires cut { IsCut ops.now piece.now }
    requires size { IsSize piece.now.size }
    requires all { length out.old ≡ piece.now.size }
    ensures { HasReached B.asks bus.old (piece_read region ops.now piece.now) (outcome out.new result) bus.new }
{
    if piece.valid {
        read_callbacks(bus, region, ops, piece, out)
    } else {
        out.fill(0);
        UNANSWERED
    }
}

/// Reads bytes of a region's device, those from an offset on.
pub(crate) fn read<B: Answering>(
    bus: &mut B,
    region: RegionId,
    ops: &Ops,
    offset: u64,
    out: &mut [u8],
) -> TxResult
    requires device { IsDeviceRegion (B.shows bus.old).forest region }
    requires good { AreGood ops.now }
    requires within { offset + length out.old ≤ 2 ^ 64 }
    ensures { HasReached B.asks bus.old (in_device region offset ops.now [] (reading (length out.old))) (outcome out.new result) bus.new }
{
    let mut result = DONE;
    let mut done = 0;
    let mut pieces = cut(ops, offset, out.len() as u64);
    while let Some(piece) = pieces.next() {
        let count = piece.size as usize;
        let mine = &mut out[done..done + count];
        result = joined(result, read_piece(bus, region, ops, &piece, mine));
        done += count;
    }
    result
}

// A write by one callback: these bytes, and zero bytes after them.
fn write_callback<B: Taking>(
    bus: &mut B,
    region: RegionId,
    big: bool,
    offset: u64,
    size: u8,
    bytes: &[u8],
) -> TxResult
    requires device { IsDeviceRegion (B.shows bus.old).forest region }
    requires size { size ≤ 8 }
    requires some { 0 < length bytes.now }
    requires fits { length bytes.now ≤ size }
    requires takes { AllTaken B.takes bus.old (callback region offset size (request big size (writing bytes.now)) ∷ []) }
    ensures { HasReached B.asks bus.old (callback region offset size (request big size (writing bytes.now)) ∷ []) (outcome [] result) bus.new }
{
    let value = padded(bytes, size, big);
    bus.write_device(region, offset, size, value)
}

// Writes a valid piece, by its callbacks.
fn write_callbacks<B: Taking>(
    bus: &mut B,
    region: RegionId,
    ops: &Ops,
    piece: &Piece,
    bytes: &[u8],
) -> TxResult
    requires device { IsDeviceRegion (B.shows bus.old).forest region }
    requires good { AreGood ops.now }
    requires cut { IsCut ops.now piece.now }
    requires size { IsSize piece.now.size }
    requires all { length bytes.now ≡ piece.now.size }
    requires takes { AllTaken B.takes bus.old (map (in_callback region ops.now (writing bytes.now)) (callbacks ops.now piece.now)) }
    ensures { HasReached B.asks bus.old (map (in_callback region ops.now (writing bytes.now)) (callbacks ops.now piece.now))
        (outcome [] result) bus.new }
{
    let mut result = DONE;
    let mut places = accesses(ops, piece);
    while let Some((offset, size)) = places.next() {
        let skipped = (offset - piece.offset) as usize;
        let count = size.min(piece.size) as usize;
        let mine = &bytes[skipped..skipped + count];
        result = joined(
            result,
            write_callback(bus, region, ops.big, offset, size, mine),
        );
    }
    result
}

/// Writes a piece of a region's device: a notifier that it sets takes it in place of the callbacks.
pub(crate) fn write_piece<B: Taking>(
    bus: &mut B,
    region: RegionId,
    ops: &Ops,
    piece: &Piece,
    bytes: &[u8],
) -> TxResult
    requires device { IsDeviceRegion (B.shows bus.old).forest region }
    requires good { AreGood ops.now }
    requires cut { IsCut ops.now piece.now }
    requires size { IsSize piece.now.size }
    requires all { length bytes.now ≡ piece.now.size }
    requires takes { AllTaken B.takes bus.old (in_piece region ops.now (events_of (B.shows bus.old).forest region) piece.now (writing bytes.now)) }
    ensures { HasReached B.asks bus.old
        (in_piece region ops.now (events_of (B.shows bus.old).forest region) piece.now (writing bytes.now)) (outcome [] result) bus.new }
{
    if !piece.valid {
        return UNANSWERED;
    }
    let value = number_of(bytes, ops.big);
    match notifier(bus.generation(), region, piece, value) {
        Some(number) => {
            bus.notify(number);
            DONE
        }
        None => write_callbacks(bus, region, ops, piece, bytes),
    }
}

/// Writes bytes of a region's device, from an offset on.
pub(crate) fn write<B: Taking>(
    bus: &mut B,
    region: RegionId,
    ops: &Ops,
    offset: u64,
    bytes: &[u8],
) -> TxResult
    requires device { IsDeviceRegion (B.shows bus.old).forest region }
    requires good { AreGood ops.now }
    requires within { offset + length bytes.now ≤ 2 ^ 64 }
    requires takes { AllTaken B.takes bus.old (in_device region offset ops.now (events_of (B.shows bus.old).forest region) (writing bytes.now)) }
    ensures { HasReached B.asks bus.old
        (in_device region offset ops.now (events_of (B.shows bus.old).forest region) (writing bytes.now)) (outcome [] result) bus.new }
{
    let mut result = DONE;
    let mut done = 0;
    let mut pieces = cut(ops, offset, bytes.len() as u64);
    while let Some(piece) = pieces.next() {
        let count = piece.size as usize;
        let mine = &bytes[done..done + count];
        result = joined(result, write_piece(bus, region, ops, &piece, mine));
        done += count;
    }
    result
}
