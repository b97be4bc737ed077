// Who makes the steps of the accesses of a pass: the pass itself, in the generation that it is entered in.
ghost use Rattle.std.specs.Prelude.{◌≡◌, is_some, true};
ghost use Rattle.std.proofs.Common.{refl, ap, ◌∙◌};
ghost use Rattle.mem_base.specs.machine.Passes.{pass_id};
ghost use Rattle.vcpu_pass.specs.Steps.{HasMade, IsNotPart, generation_in, generation_shown};
ghost use Rattle.vcpu_pass.specs.StepLaws.{made_none, made_then};

use crate::steps::{mark_step, read_step, write_part, write_whole};
use access_run::{Entered, Reads, Writes};
use epoch_rule::{Cabinet, Pass};
use generation::Generation;
use mem_base::{Client, Place, WORD_SIZE, WordStep};
use std::sync::Wait;

/// A pass that is entered, with its cabinet. It never waits, and so takes no step that replaces a part of a word.
#[derive(Drop)]
pub(crate) struct EnteredPass<'a> {
    pub(crate) cabinet: &'a Cabinet<Generation>,
    pub(crate) pass: &'a mut Pass<Generation>,
    ghost own: { pass.now.cabinet ≡ cabinet.now.id },
    ghost entered: { is_some pass.now.edition ≡ true },
}

impl Entered for EnteredPass<'_> {
    ghost pass = { λ p. pass_id p.pass.now.number };

    ghost shows = { λ p. generation_in p.pass.now };

    ghost makes = { λ p events replies q. (q.pass.ghost_name ≡ p.pass.ghost_name) × HasMade p.pass.now events replies q.pass.now };

    fn generation(&self) -> &Generation {
        self.cabinet.generation(self.pass)
    }

    ghost begins = { λ x. (refl, made_none x.pass.now) };

    ghost goes_on = { λ x y z es fs rs qs l m n. (n.0 ∙ m.0, made_then x.pass.now y.pass.now z.pass.now es fs rs qs l m.1 n.1) };

    ghost stays = { λ x y es rs m. (ap pass_id m.1.number, ap generation_shown m.1.edition) };
}

impl Reads for EnteredPass<'_> {
    fn read_word(&mut self, place: &Place, word: usize, step: WordStep) -> u64 {
        read_step(self.cabinet, self.pass, place, word, step)
    }
}

impl Writes for EnteredPass<'_> {
    ghost takes = { λ p step. IsNotPart step };

    #[inline(always)]
    fn write_word(&mut self, place: &Place, word: usize, step: WordStep) {
        write_whole(self.cabinet, self.pass, place, word, step);
    }

    fn mark_page(&mut self, place: &Place, client: Client, page: u64) {
        mark_step(self.cabinet, self.pass, place, client, page);
    }

    ghost lasts = { λ x y es rs m step t. t };
}

/// The same, where it may wait: it takes each step of a write.
#[derive(Drop)]
pub(crate) struct WaitingPass<'a, R: Wait> {
    pub(crate) rt: &'a R,
    pub(crate) cabinet: &'a Cabinet<Generation>,
    pub(crate) pass: &'a mut Pass<Generation>,
    ghost own: { pass.now.cabinet ≡ cabinet.now.id },
    ghost entered: { is_some pass.now.edition ≡ true },
}

impl<R: Wait> Entered for WaitingPass<'_, R> {
    ghost pass = { λ p. pass_id p.pass.now.number };

    ghost shows = { λ p. generation_in p.pass.now };

    ghost makes = { λ p events replies q. (q.pass.ghost_name ≡ p.pass.ghost_name) × HasMade p.pass.now events replies q.pass.now };

    fn generation(&self) -> &Generation {
        self.cabinet.generation(self.pass)
    }

    ghost begins = { λ x. (refl, made_none x.pass.now) };

    ghost goes_on = { λ x y z es fs rs qs l m n. (n.0 ∙ m.0, made_then x.pass.now y.pass.now z.pass.now es fs rs qs l m.1 n.1) };

    ghost stays = { λ x y es rs m. (ap pass_id m.1.number, ap generation_shown m.1.edition) };
}

impl<R: Wait> Writes for WaitingPass<'_, R> {
    ghost takes = { λ p step. Unit {0} };

    #[inline(always)]
    fn write_word(&mut self, place: &Place, word: usize, step: WordStep) {
        match step {
            WordStep::Replace {
                first,
                bytes,
                value,
            } if u64::from(bytes) < WORD_SIZE => {
                write_part(
                    self.rt,
                    self.cabinet,
                    self.pass,
                    place,
                    word,
                    first,
                    bytes,
                    value,
                );
            }
            _ => write_whole(self.cabinet, self.pass, place, word, step),
        }
    }

    fn mark_page(&mut self, place: &Place, client: Client, page: u64) {
        mark_step(self.cabinet, self.pass, place, client, page);
    }

    ghost lasts = { λ x y es rs m step t. t };
}
