// A hand over a plain list of words.
ghost use Rattle.std.specs.Prelude.{◌≡◌, ◌+◌, ◌++◌, slice_index};
ghost use Rattle.std.specs.Arc.{arc_value};
ghost use Rattle.std.specs.List.{fold};
ghost use Rattle.std.proofs.Common.{refl, sym, ap, ◌∙◌, append_assoc};
ghost use Rattle.std.proofs.lemmas.List.{append-nil};
ghost use Rattle.std.proofs.lemmas.List.Sums.{fold-append};
ghost use Rattle.mem_base.specs.machine.Passes.{pass_id};
ghost use Rattle.mem_base.specs.access.Cells.{words_after};
ghost use Rattle.mtree_tests.specs.Events.{AreAfter, after_event};

use access_run::{Entered, Reads, Writes};
use dirty_log::mark_of;
use generation::Generation;
use mem_base::{Client, Place, RegionId, WordStep};
use std::alloc::{AllocError, Global};
use std::sync::Arc;

/// How many steps on words were made, how many of these were on notifiers, and how many pages were marked.
#[derive(Clone, Copy, Debug, Default, PartialEq, Eq)]
pub(crate) struct Count {
    pub(crate) steps: u32,
    pub(crate) notified: u32,
    pub(crate) marks: u32,
}

impl Count {
    /// One step more.
    pub(crate) fn step(&mut self) {
        self.steps = self.steps.saturating_add(1);
    }

    /// One step more, on a notifier.
    pub(crate) fn notify(&mut self) {
        self.step();
        self.notified = self.notified.saturating_add(1);
    }

    /// One mark more.
    pub(crate) fn mark(&mut self) {
        self.marks = self.marks.saturating_add(1);
    }
}

/// A hand over a plain list of words, entered in a generation.
#[derive(Drop)]
pub(crate) struct PlainHand {
    generation: Arc<Generation, Global>,
    words: Vec<u64>,
    count: Count,
}

impl PlainHand {
    /// One that is entered in a generation.
    pub(crate) fn new(generation: Arc<Generation, Global>, words: Vec<u64>) -> PlainHand {
        PlainHand {
            generation,
            words,
            count: Count::default(),
        }
    }

    /// Goes into another generation, and counts anew.
    pub(crate) fn enter(&mut self, generation: Arc<Generation, Global>) {
        self.generation = generation;
        self.count = Count::default();
    }

    /// What was made since it began to count.
    pub(crate) fn count(&self) -> Count {
        self.count
    }

    /// All words.
    pub(crate) fn words(&self) -> &[u64] {
        self.words.as_slice()
    }

    /// The same words once more.
    pub(crate) fn words_copy(&self) -> Result<Vec<u64>, AllocError> {
        self.words.clone()
    }

    /// The same, for the writer to change.
    pub(crate) fn words_mut(&mut self) -> &mut [u64] {
        self.words.as_mut_slice()
    }

    /// One step on a word of a place; the word before it, or 0 where there is none.
    fn step(&mut self, place: &Place, word: usize, step: WordStep) -> u64
        ensures words { self.new.words.items ≡ words_after self.old.words.items (place.now.start + word) step }
        ensures reply { result ≡ slice_index self.old.words.items (place.now.start + word) }
        ensures same { arc_value self.new.generation ≡ arc_value self.old.generation }
    {
        let at = place.start.saturating_add(word);
        let Some(slot) = self.words.get_mut(at) else {
            return 0;
        };
        let old = *slot;
        *slot = step.after(old);
        old
    }
}

impl Entered for PlainHand {
    ghost pass = { λ h. pass_id 0 };

    ghost shows = { λ h. arc_value h.generation };

    ghost makes = { λ h events replies k. (arc_value k.generation ≡ arc_value h.generation)
        × AreAfter (arc_value h.generation).places h.words.items events replies k.words.items };

    fn generation(&self) -> &Generation {
        &self.generation
    }

    ghost begins = { λ x. (refl, λ earlier. ap (λ l. (x.words.items, l)) (sym (append-nil earlier))) };

    ghost goes_on = { λ x y z es fs rs qs l m n. (
      n.0 ∙ m.0,
      λ earlier.
          fold-append (after_event (arc_value x.generation).places) (x.words.items, earlier) es fs
          ∙ ap (λ s. fold (after_event (arc_value x.generation).places) s fs) (m.1 earlier)
          ∙ ap (λ g. fold (after_event g.places) (y.words.items, earlier ++ rs) fs) (sym m.0)
          ∙ n.1 (earlier ++ rs)
          ∙ ap (λ l. (z.words.items, l)) (append_assoc earlier rs qs),
    ) };

    ghost stays = { λ x y es rs m. (refl, m.0) };
}

impl Reads for PlainHand {
    fn read_word(&mut self, place: &Place, word: usize, step: WordStep) -> u64 {
        self.count.step();
        self.step(place, word, step)
    }
}

impl Writes for PlainHand {
    ghost takes = { λ h step. Unit {0} };

    fn write_word(&mut self, place: &Place, word: usize, step: WordStep) {
        if place.region == RegionId::NOTIFIERS {
            self.count.notify();
        } else {
            self.count.step();
        }
        self.step(place, word, step);
    }

    fn mark_page(&mut self, place: &Place, client: Client, page: u64) {
        self.count.mark();
        let (word, bits) = mark_of(place, client, page);
        self.step(place, word, WordStep::Or { bits });
    }

    ghost lasts = { λ x y es rs m step t. t };
}
