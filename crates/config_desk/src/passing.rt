// Passes that are handed out and taken in, and notes: calls after which the writer's part is as it was.
ghost use Rattle.std.specs.Prelude.{◌≡◌, ◌≢◌, ℕ, ◌+◌, [], MatchOption, None, false, true, length, slice_index_or, slice_set};
ghost use mathlib.Core.List.{IsPrefix};
ghost use Rattle.mem_base.specs.declared.machine.events.Hand.TheVariants.{Writer};
ghost use Rattle.mem_base.specs.machine.Actors.{own_entries};
ghost use Rattle.epoch_rule.specs.Rule.{KeepsHome};
ghost use Rattle.epoch_rule.specs.Values.{first_free};
ghost use Rattle.epoch_rule.specs.Wrote.{IsNewPass, Wrote, longer};

use crate::config::Config;
use epoch_rule::{Note, Pass};
use generation::Generation;

impl Config {
    /// The least pass that is not out, which has seen all that the writer has; `None` exactly where all are out.
    pub fn pass(&mut self) -> Option<Pass<Generation>>
        ensures pass { MatchOption result
            ((first_free self.old.seat.out ≡ length self.old.seat.out) × (self.new.seat.out ≡ self.old.seat.out))
            (λ p. IsNewPass self.old.seat p × (self.new.seat.out ≡ slice_set self.old.seat.out p.number true)) }
        ensures same { (self.new.seat.cabinet ≡ self.old.seat.cabinet) × (self.new.seat.sizes ≡ self.old.seat.sizes) }
        ensures seen { self.new.seat.seen ≡ self.old.seat.seen }
        ensures part { self.new.part ≡ self.old.part }
    {
        self.hand.pass()
    }

    /// The pass is out no more, and the writer has seen all that it had seen: of this pass's entries just those, and of the other
    /// passes that are not out no new ones. The pass must be of this machine's cabinet, and not entered.
    pub fn take_in(&mut self, pass: Pass<Generation>)
        requires own { pass.cabinet ≡ self.old.seat.cabinet }
        requires out { pass.edition ≡ None }
        ensures longer { self.new.seat.seen ≡ longer self.old.seat.seen pass.seen }
        ensures seen { IsPrefix pass.seen self.new.seat.seen }
        ensures wrote { Wrote Writer self.old.seat.sizes self.old.seat.seen [] self.new.seat.seen }
        ensures brought { own_entries (pass.number + 1) self.new.seat.seen ≡ own_entries (pass.number + 1) pass.seen }
        ensures others { (q : ℕ) → q ≢ pass.number → slice_index_or self.old.seat.out q false ≡ false
            → own_entries (q + 1) self.new.seat.seen ≡ own_entries (q + 1) self.old.seat.seen }
        ensures out { self.new.seat.out ≡ slice_set self.old.seat.out pass.number false }
        ensures same { (self.new.seat.cabinet ≡ self.old.seat.cabinet) × (self.new.seat.sizes ≡ self.old.seat.sizes) }
        ensures part { self.new.part ≡ self.old.part }
    {
        self.hand.take_in(pass);
    }

    /// A note of what the writer has seen, for passes to meet.
    pub fn note(&mut self) -> Note<Generation>
        ensures same { self.new ≡ self.old }
        ensures note { (result.cabinet ≡ self.old.seat.cabinet) × (result.seen ≡ self.old.seat.seen) }
    {
        self.hand.note()
    }

    /// The writer has then seen all that the note tells of; of passes that are not out it had seen all before.
    pub fn hear(&mut self, note: Note<Generation>)
        requires own { note.cabinet ≡ self.old.seat.cabinet }
        ensures longer { self.new.seat.seen ≡ longer self.old.seat.seen note.seen }
        ensures seen { IsPrefix note.seen self.new.seat.seen }
        ensures home { KeepsHome self.old.seat.out self.old.seat.seen self.new.seat.seen }
        ensures wrote { Wrote Writer self.old.seat.sizes self.old.seat.seen [] self.new.seat.seen }
        ensures same { (self.new.seat.cabinet ≡ self.old.seat.cabinet) × (self.new.seat.sizes ≡ self.old.seat.sizes)
            × (self.new.seat.out ≡ self.old.seat.out) }
        ensures part { self.new.part ≡ self.old.part }
    {
        self.hand.hear(note);
    }
}
