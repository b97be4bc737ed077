// Whether a write replaces whole words alone.
ghost use Rattle.std.specs.Prelude.{◌≡◌, ◌||◌, not};
ghost use Rattle.std.specs.List.{list_any};
ghost use Rattle.std.proofs.Common.{refl, sym, ap, ◌∙◌};
ghost use Rattle.std.proofs.Math.Bool.{or_assoc, or-false};
ghost use Rattle.std.proofs.lemmas.List.Folds.{list_any-append};
ghost use Rattle.mem_base.specs.machine.Passes.{pass_id};
ghost use Rattle.mem_base.specs.access.AccessSteps.{has_partial, writing};
ghost use Rattle.mem_base.specs.access.Access.{access};
ghost use Rattle.access_run.specs.Partial.{is_partial_event};

use crate::accesses::write;
use crate::hands::{Entered, Writes};
use generation::Generation;
use mem_base::{Client, Place, SpaceId, WORD_SIZE, WordStep};

// A hand that makes no step, and only notes whether one replaces a part of a word.
#[derive(Drop)]
struct Noting<'g> {
    generation: &'g Generation,
    partial: bool,
}

impl Entered for Noting<'_> {
    ghost pass = { λ n. pass_id 0 };

    ghost shows = { λ n. n.generation.now };

    ghost makes = { λ n events replies m. (m.generation.now ≡ n.generation.now) × (m.partial ≡ (n.partial || list_any is_partial_event events)) };

    fn generation(&self) -> &Generation {
        self.generation
    }

    ghost begins = { λ x. (refl, sym (or-false x.partial)) };

    ghost goes_on = { λ x y z es fs rs qs l m n. (
      n.0 ∙ m.0,
      n.1 ∙ ap (λ b. b || list_any is_partial_event fs) m.1
          ∙ or_assoc x.partial (list_any is_partial_event es) (list_any is_partial_event fs)
          ∙ ap (λ b. x.partial || b) (sym (list_any-append is_partial_event es fs)),
    ) };

    ghost stays = { λ x y es rs m. (refl, m.0) };
}

impl Writes for Noting<'_> {
    ghost takes = { λ n step. Unit {0} };

    fn write_word(&mut self, _place: &Place, _word: usize, step: WordStep) {
        if let WordStep::Replace { bytes, .. } = step {
            self.partial = self.partial || u64::from(bytes) < WORD_SIZE;
        }
    }

    fn mark_page(&mut self, _place: &Place, _client: Client, _page: u64) {}

    ghost lasts = { λ x y es rs m step t. t };
}

/// Whether each step of a write that replaces bytes replaces all eight of its word. It makes no step. This project's own.
pub fn is_whole(g: &Generation, space: SpaceId, addr: u64, bytes: &[u8]) -> bool
    ensures { result ≡ not (has_partial (access g.now.forest space addr (writing bytes.now))) }
{
    let mut noting = Noting {
        generation: g,
        partial: false,
    };
    write(&mut noting, space, addr, bytes);
    !noting.partial
}
