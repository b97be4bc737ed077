// Who makes the steps of an access: a pass of the world, in the generation that it is entered in.
ghost use Rattle.std.specs.Prelude.{◌≡◌};
ghost use Rattle.std.proofs.Common.{refl, ◌∙◌};
ghost use Rattle.world_core.specs.Hands.{shown_to, HasRun, IsInside};
ghost use Rattle.world_core.specs.RunLaws.{run_none, run_then, run_stays};

use crate::world::World;
use access_run::{Entered, Reads, Writes};
use generation::Generation;
use mem_base::{Client, Hand, PassId, Place, WordStep};

/// A pass that is entered, with its world.
#[derive(Drop)]
pub(crate) struct EnteredPass<'a> {
    pub(crate) world: &'a mut World,
    pub(crate) pass: PassId,
    ghost inside: { IsInside world.now pass },
}

impl Entered for EnteredPass<'_> {
    ghost pass = { λ p. p.pass };

    ghost shows = { λ p. shown_to p.world.now p.pass };

    ghost makes = { λ p events replies q. (q.pass ≡ p.pass) × (q.world.ghost_name ≡ p.world.ghost_name)
        × HasRun p.pass p.world.now events replies q.world.now };

    fn generation(&self) -> &Generation {
        self.world.generation_of(self.pass)
    }

    ghost begins = { λ x. (refl, refl, run_none x.pass x.world.now) };

    ghost goes_on = { λ x y z es fs rs qs l m n. (
      n.0 ∙ m.0,
      n.1 ∙ m.1,
      run_then x.pass y.pass m.0 x.world.now y.world.now z.world.now es fs rs qs m.2 n.2,
    ) };

    ghost stays = { λ x y es rs m. (m.0, run_stays x.pass y.pass m.0 x.world.now y.world.now es rs m.2) };
}

impl Reads for EnteredPass<'_> {
    fn read_word(&mut self, place: &Place, word: usize, step: WordStep) -> u64 {
        // It tells that a legal history leads here.
        self.world.is_reached();
        let hand = Hand::Pass(self.pass);
        self.world.step_word(hand, place, word, step)
    }
}

impl Writes for EnteredPass<'_> {
    ghost takes = { λ p step. Unit {0} };

    fn write_word(&mut self, place: &Place, word: usize, step: WordStep) {
        // It tells that a legal history leads here.
        self.world.is_reached();
        self.world
            .step_word(Hand::Pass(self.pass), place, word, step);
    }

    fn mark_page(&mut self, place: &Place, client: Client, page: u64) {
        // It tells that a legal history leads here.
        self.world.is_reached();
        self.world.mark_page(self.pass, place, client, page);
    }

    ghost lasts = { λ x y es rs m step t. t };
}
