// Loads by the writer's seat of the running machine.
ghost use Rattle.std.specs.Prelude.{◌≡◌};
ghost use Rattle.mem_base.specs.machine.Answers.{plain_answer};
ghost use Rattle.mem_base.specs.machine.Orders.{load};
ghost use Rattle.epoch_rule.specs.Calls.{generations_in_seen};
ghost use Rattle.writer_run.specs.Parts.{AreParts, part_of};
ghost use Rattle.writer_run.specs.Turns.{IsTurn};
ghost use Rattle.seat_run.specs.Written.{HasWritten};

use epoch_rule::{Cabinet, WriterSeat};
use generation::Generation;
use mem_base::{Refusal, RegionId};
use seat_run::{LoadingSeat, SeatHand};
use std::sync::Wait;
use writer_desk::IdleDesk;
use writer_run::load_bytes;

// Loads bytes by a seat: the turn of that.
fn load_by<R: Wait>(
    rt: &R,
    cabinet: &Cabinet<Generation>,
    seat: &mut WriterSeat<Generation>,
    desk: &IdleDesk,
    region: RegionId,
    offset: u64,
    bytes: &[u8],
) -> Result<(), Refusal>
    requires own { seat.old.cabinet ≡ cabinet.now.id }
    requires parts { AreParts desk.now (generations_in_seen seat.old.sizes seat.old.seen) seat.old.sizes.words }
    ensures turn { IsTurn (part_of desk.now (generations_in_seen seat.old.sizes seat.old.seen)) (load region offset bytes.now)
        (λ xs. HasWritten seat.old xs seat.new) (plain_answer result) (part_of desk.now (generations_in_seen seat.new.sizes seat.new.seen)) }
    ensures parts { AreParts desk.now (generations_in_seen seat.new.sizes seat.new.seen) seat.new.sizes.words }
{
    let mut hand = LoadingSeat { rt, cabinet, seat };
    load_bytes(desk, &mut hand, region, offset, bytes)
}

/// Loads bytes into a region by the writer's seat, from an offset in it on: the turn of that. It may wait where it replaces a part of a word.
pub(crate) fn load_with<R: Wait>(
    rt: &R,
    hand: &mut SeatHand,
    desk: &IdleDesk,
    region: RegionId,
    offset: u64,
    bytes: &[u8],
) -> Result<(), Refusal>
    requires parts { AreParts desk.now (generations_in_seen hand.old.seat.sizes hand.old.seat.seen) hand.old.seat.sizes.words }
    ensures turn { IsTurn (part_of desk.now (generations_in_seen hand.old.seat.sizes hand.old.seat.seen)) (load region offset bytes.now)
        (λ xs. HasWritten hand.old.seat xs hand.new.seat) (plain_answer result)
        (part_of desk.now (generations_in_seen hand.new.seat.sizes hand.new.seat.seen)) }
    ensures parts { AreParts desk.now (generations_in_seen hand.new.seat.sizes hand.new.seat.seen) hand.new.seat.sizes.words }
{
    load_by(
        rt,
        &hand.cabinet,
        &mut hand.seat,
        desk,
        region,
        offset,
        bytes,
    )
}
