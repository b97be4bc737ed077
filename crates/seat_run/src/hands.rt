// The writer's seat as a hand.
ghost use Rattle.std.specs.Prelude.{◌≡◌};
ghost use Rattle.std.proofs.Common.{refl, ap, ◌∙◌};
ghost use Rattle.std.specs.Arc.{arc_value};
ghost use Rattle.epoch_rule.specs.Calls.{generations_in_seen};
ghost use Rattle.seat_run.specs.Written.{HasWritten};
ghost use Rattle.seat_run.specs.WrittenLaws.{written_none, written_then, generations_go};

use crate::recent::Recent;
use crate::steps::{
    current_of, fill_place, publish_batch, store_bytes, sweep_seat, take_marks, take_word,
};
use epoch_rule::{Batch, Cabinet, WriterSeat};
use generation::Generation;
use mem_base::{Client, Place, Refusal, RegionId};
use std::alloc::{AllocError, Global};
use std::sync::{Arc, Wait};
use writer_hand::{Loads, Names, WriterHand, Writing};

/// The writer's seat with its cabinet, and the generations that are kept.
#[derive(Drop)]
pub struct SeatHand {
    pub cabinet: Arc<Cabinet<Generation>, Global>,
    pub seat: WriterSeat<Generation>,
    pub kept: Recent,
    pub alloc: Global,
    /// How many passes the cabinet has.
    pub passes: u32,
    pub ghost own: { seat.cabinet ≡ (arc_value cabinet).id },
    pub ghost counts: { passes ≡ seat.sizes.passes },
    pub ghost keeps: { kept ≡ (generations_in_seen seat.sizes seat.seen).kept },
}

/// A batch of copies of a generation, and that generation once more, to be kept.
#[derive(Drop)]
pub struct SeatBatch {
    pub copies: Batch<Generation>,
    pub next: Arc<Generation, Global>,
    pub ghost same: { arc_value next ≡ copies.edition },
}

impl Writing for SeatHand {
    ghost generations = { λ h. generations_in_seen h.seat.sizes h.seat.seen };

    ghost words = { λ h. h.seat.sizes.words };

    ghost makes = { λ h es k. HasWritten h.seat es k.seat };

    fn current(&self) -> u64 {
        current_of(&self.seat)
    }

    ghost begins = { λ x. written_none x.seat };

    ghost goes_on = { λ x y z es fs h k. written_then x.seat y.seat z.seat es fs h k };

    ghost leaves = { λ x y es h. (generations_go x.seat y.seat es h, ap (λ s. s.words) h.sizes) };
}

impl WriterHand for SeatHand {
    type Batch = SeatBatch;

    ghost offers = { λ b. b.copies.edition };

    ghost fits = { λ h b. b.copies.copies ≡ h.seat.sizes.passes };

    fn batch(&self, next: &Arc<Generation, Global>) -> Result<SeatBatch, AllocError> {
        let copies = Batch::new(self.alloc, next, self.passes)?;
        let next = Arc::try_clone(next)?;
        Ok(SeatBatch { copies, next })
    }

    fn publish(&mut self, next: SeatBatch) -> Result<u64, Refusal> {
        let SeatBatch { copies, next } = next;
        let number = publish_batch(&self.cabinet, &mut self.seat, copies)?;
        self.kept.push(next);
        Ok(number)
    }

    fn fill(&mut self, place: &Place) {
        fill_place(&self.cabinet, &mut self.seat, place);
    }

    fn take(&mut self, place: &Place, word: usize) -> u64 {
        take_word(&self.cabinet, &mut self.seat, place, word)
    }

    fn sweep(&mut self) -> u64 {
        sweep_seat(&self.cabinet, &mut self.seat)
    }

    fn take_marks(&mut self, place: &Place, client: Client, index: usize) -> u64 {
        take_marks(&self.cabinet, &mut self.seat, place, client, index)
    }
}

impl Names for SeatHand {
    fn is_named(&self, region: RegionId, lowest: u64) -> bool {
        self.kept.is_named(current_of(&self.seat), lowest, region)
    }
}

/// The same for loads, which may wait.
#[derive(Drop)]
pub struct LoadingSeat<'a, R: Wait> {
    pub rt: &'a R,
    pub cabinet: &'a Cabinet<Generation>,
    pub seat: &'a mut WriterSeat<Generation>,
    pub ghost own: { seat.now.cabinet ≡ cabinet.now.id },
}

impl<R: Wait> Writing for LoadingSeat<'_, R> {
    ghost generations = { λ h. generations_in_seen h.seat.now.sizes h.seat.now.seen };

    ghost words = { λ h. h.seat.now.sizes.words };

    ghost makes = { λ h es k. (k.seat.ghost_name ≡ h.seat.ghost_name) × HasWritten h.seat.now es k.seat.now };

    fn current(&self) -> u64 {
        current_of(self.seat)
    }

    ghost begins = { λ x. (refl, written_none x.seat.now) };

    ghost goes_on = { λ x y z es fs h k. (k.0 ∙ h.0, written_then x.seat.now y.seat.now z.seat.now es fs h.1 k.1) };

    ghost leaves = { λ x y es h. (generations_go x.seat.now y.seat.now es h.1, ap (λ s. s.words) h.1.sizes) };
}

impl<R: Wait> Loads for LoadingSeat<'_, R> {
    fn store(&mut self, place: &Place, word: usize, first: u32, bytes: &[u8]) {
        store_bytes(self.rt, self.cabinet, self.seat, place, word, first, bytes);
    }
}
