// A hand, asked as a bus over the words of its places: memory by words, and the four devices by steps on their registers.
ghost use Rattle.std.specs.Prelude.{◌≡◌, ◌<◌, ◌+◌, false, true};
ghost use Rattle.std.proofs.Common.{refl, ◌∙◌};
ghost use Rattle.mem_base.specs.access.Places.{data_words, is_data_or_register};
ghost use Rattle.access_run.specs.WordReplies.{AsksWords, TakesAsked};
ghost use Rattle.access_run.specs.WordsGoOn.{asked_lasts, words_begin, words_stay, words_then};

use crate::hands::{Entered, Reads, Writes};
use crate::memory;
use crate::places::{memory_of, notifiers_of, registers_of};
use access_base::{DONE, FAULT};
use access_cut::{reply_of, step_of};
use access_reach::{Answering, Bus, Taking};
use generation::Generation;
use mem_base::{Client, DeviceStep, Place, RegionId, TxResult, WORD_SIZE, WordStep};

/// A hand, asked as a bus.
#[derive(Drop)]
pub(crate) struct Words<'h, H> {
    /// Who makes the steps.
    pub(crate) hand: &'h mut H,
}

impl<H: Entered> Bus for Words<'_, H> {
    ghost shows = { λ w. H.shows w.hand.now };

    ghost asks = { λ x es rs y. (y.hand.ghost_name ≡ x.hand.ghost_name)
        × AsksWords H.makes (H.pass x.hand.now) (H.shows x.hand.now).forest x.hand.now es rs y.hand.now };

    #[inline(always)]
    fn generation(&self) -> &Generation {
        self.hand.generation()
    }

    ghost begins = { λ x. (refl, words_begin H.makes (H.pass x.hand.now) (H.shows x.hand.now).forest x.hand.now (H.begins x.hand.now)) };

    ghost goes_on = { λ x y z es fs rs qs l m n. (
      n.0 ∙ m.0,
      words_then H.makes H.pass H.shows H.goes_on H.stays x.hand.now y.hand.now z.hand.now es fs rs qs m.1 n.1,
    ) };

    ghost stays = { λ x y es rs m. words_stay H.makes H.pass H.shows H.stays x.hand.now y.hand.now es rs m.1 };
}

// Register `reg` as a word of the place: registers come after the data.
fn register_word(place: &Place, reg: u32) -> usize
    requires { reg < place.now.regs }
    ensures word { result ≡ data_words place.now.bytes + reg }
    ensures reached { is_data_or_register place.now result ≡ true }
{
    (place.bytes / WORD_SIZE + u64::from(reg)) as usize
}

impl<H: Reads> Answering for Words<'_, H> {
    ghost host = { false };

    fn has_host() -> bool {
        false
    }

    #[inline(always)]
    fn read_memory(&mut self, region: RegionId, offset: u64, out: &mut [u8]) {
        let place = memory_of(self.hand.generation(), region);
        memory::read(self.hand, &place, offset, out);
    }

    #[inline(always)]
    fn read_device(&mut self, region: RegionId, offset: u64, size: u8) -> (u64, TxResult) {
        let (place, device) = registers_of(self.hand.generation(), region);
        match step_of(&device, offset, size, None) {
            DeviceStep::Step { reg, step } => {
                let old = self
                    .hand
                    .read_word(&place, register_word(&place, reg), step);
                (reply_of(&device, offset, size, old), DONE)
            }
            DeviceStep::Error => (0, FAULT),
        }
    }
}

impl<H: Writes> Taking for Words<'_, H> {
    ghost host = { false };

    ghost takes = { λ w e. TakesAsked (H.takes w.hand.now) (H.shows w.hand.now).forest e };

    fn has_host() -> bool {
        false
    }

    #[inline(always)]
    fn write_memory(&mut self, region: RegionId, offset: u64, bytes: &[u8]) {
        let place = memory_of(self.hand.generation(), region);
        memory::write(self.hand, &place, offset, bytes);
    }

    #[inline(always)]
    fn write_device(&mut self, region: RegionId, offset: u64, size: u8, value: u64) -> TxResult {
        let (place, device) = registers_of(self.hand.generation(), region);
        match step_of(&device, offset, size, Some(value)) {
            DeviceStep::Step { reg, step } => {
                self.hand
                    .write_word(&place, register_word(&place, reg), step);
                DONE
            }
            DeviceStep::Error => FAULT,
        }
    }

    #[inline(always)]
    fn notify(&mut self, number: u32) {
        let place = notifiers_of(self.hand.generation());
        self.hand
            .write_word(&place, number as usize, WordStep::Or { bits: 1 });
    }

    #[inline(always)]
    fn mark_page(&mut self, region: RegionId, client: Client, page: u64) {
        let place = memory_of(self.hand.generation(), region);
        self.hand.mark_page(&place, client, page);
    }

    ghost lasts = { λ x y es rs m e t.
        asked_lasts H.makes H.pass H.shows H.stays H.takes H.lasts x.hand.now y.hand.now es rs m.1 e t };
}
