// Writes to what is not memory that is written directly.
ghost use Rattle.std.specs.Prelude.{◌≡◌, ◌<◌, is_some, true, false};
ghost use Rattle.std.proofs.Common.{refl, ap, ◌∙◌};
ghost use Rattle.mem_base.specs.machine.Passes.{pass_id};
ghost use Rattle.mem_base.specs.access.AccessSteps.{result_of, writing};
ghost use Rattle.mem_base.specs.access.Access.{access};
ghost use Rattle.vcpu_pass.specs.Steps.{generation_in, generation_shown};
ghost use Rattle.bounded_write.specs.Tries.{HasTried};
ghost use Rattle.bounded_write.specs.TryLaws.{tried_none, tried_then};
ghost use Rattle.bounded_write.specs.Writes.{HasCome, StaysIn};

use crate::tries::{mark_step, step_within};
use access_run::{Entered, Writes, write};
use epoch_rule::{Cabinet, Pass};
use generation::Generation;
use mem_base::{Client, Place, SpaceId, TxResult, WordStep};

/// How far a write came: how it ended, whether all is done, and where it is not whether some step of what is left was made.
#[derive(Clone, Copy, Debug, PartialEq, Eq)]
pub(crate) struct Came {
    pub(crate) result: TxResult,
    pub(crate) stopped: bool,
    pub(crate) begun: bool,
}

// A pass that is entered, and makes the steps of a write until one of them is tried in vain; it makes none after that.
#[derive(Drop)]
struct TryingPass<'a> {
    cabinet: &'a Cabinet<Generation>,
    pass: &'a mut Pass<Generation>,
    tries: u32,
    stopped: bool,
    begun: bool,
    ghost own: { pass.now.cabinet ≡ cabinet.now.id },
    ghost entered: { is_some pass.now.edition ≡ true },
}

impl Entered for TryingPass<'_> {
    ghost pass = { λ p. pass_id p.pass.now.number };

    ghost shows = { λ p. generation_in p.pass.now };

    ghost makes = { λ p events replies q. (q.pass.ghost_name ≡ p.pass.ghost_name) × (q.tries ≡ p.tries)
        × HasTried p.tries p.stopped p.begun p.pass.now events replies q.stopped q.begun q.pass.now };

    fn generation(&self) -> &Generation {
        self.cabinet.generation(self.pass)
    }

    ghost begins = { λ x. (refl, refl, tried_none x.tries x.stopped x.begun x.pass.now) };

    ghost goes_on = { λ x y z es fs rs qs l m n. (
      n.0 ∙ m.0,
      n.1 ∙ m.1,
      tried_then x.tries y.tries x.stopped x.begun y.stopped z.stopped y.begun z.begun x.pass.now y.pass.now z.pass.now es fs rs qs m.1 m.2 n.2,
    ) };

    ghost stays = { λ x y es rs m. (ap pass_id m.2.made.number, ap generation_shown m.2.made.edition) };
}

impl Writes for TryingPass<'_> {
    ghost takes = { λ p step. Unit {0} };

    fn write_word(&mut self, place: &Place, word: usize, step: WordStep) {
        if self.stopped {
            return;
        }
        if step_within(self.cabinet, self.pass, place, word, step, self.tries) {
            self.begun = true;
        } else {
            self.stopped = true;
        }
    }

    fn mark_page(&mut self, place: &Place, client: Client, page: u64) {
        if !self.stopped {
            mark_step(self.cabinet, self.pass, place, client, page);
            self.begun = true;
        }
    }

    ghost lasts = { λ x y es rs m step t. t };
}

/// Writes bytes to a space by a pass that is entered, until a step is tried in vain.
pub(crate) fn write_until<'a>(
    cabinet: &'a Cabinet<Generation>,
    pass: &'a mut Pass<Generation>,
    space: SpaceId,
    addr: u64,
    bytes: &[u8],
    tries: u32,
) -> Came
    requires own { pass.old.cabinet ≡ cabinet.now.id }
    requires entered { is_some pass.old.edition ≡ true }
    ensures result { result.result ≡ result_of (access (generation_in pass.old).forest space addr (writing bytes.now)) }
    ensures stays { StaysIn pass.old pass.new }
    ensures come { HasCome pass.old space addr bytes.now tries result pass.new }
{
    let mut hand = TryingPass {
        cabinet,
        pass,
        tries,
        stopped: false,
        begun: false,
    };
    let result = write(&mut hand, space, addr, bytes);
    Came {
        result,
        stopped: hand.stopped,
        begun: hand.begun,
    }
}
