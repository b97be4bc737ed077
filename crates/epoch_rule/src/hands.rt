// Who touches the cabinet's words.
ghost use Rattle.std.specs.Prelude.{◌≡◌, ℕ, List, Some, slice_index_or, false};
ghost use Rattle.std.proofs.Common.{refl, sym, ap, subst, ◌∙◌};
ghost use Rattle.atomic_table.specs.Seated.{TableId};
ghost use Rattle.mem_base.specs.declared.machine.events.Hand.{Hand as Actor};
ghost use Rattle.mem_base.specs.declared.machine.events.Hand.TheVariants.{Pass, Writer};
ghost use Rattle.mem_base.specs.declared.access.cells.Place.{Place};
ghost use Rattle.mem_base.specs.declared.machine.events.HistoryEntry.{HistoryEntry};
ghost use Rattle.epoch_rule.specs.declared.views.Sizes.{Sizes};
ghost use Rattle.epoch_rule.specs.declared.touches.Touch.{Touch};
ghost use Rattle.epoch_rule.specs.declared.touches.Touch.TheVariants.{Look, Try};
ghost use Rattle.mem_base.specs.machine.Passes.{pass_id};
ghost use Rattle.epoch_rule.specs.Rule.{KeepsHome};
ghost use Rattle.epoch_rule.specs.Touches.{IsTouch};
ghost use Rattle.epoch_rule.specs.Shown.{PassMay, ShowsTouch, WriterMay};

use crate::cabinet::Cabinet;
use crate::passes::Pass;
use crate::touches::{Touch, touch_word};
use crate::writers::WriterSeat;
use mem_base::{Edition, Hand as Actor, Place};

/// What `Hand::touch_in` is given, so that no other crate can implement `Hand` or call that: none can name this type.
#[derive(Clone, Copy, Drop)]
pub struct Seal;

/// Who touches the cabinet's words: implemented by `Pass` and `WriterSeat` alone.
pub trait Hand<E: Edition + Drop> {
    /// The cabinet that made it.
    ghost made_by: { Self → TableId };

    /// How many passes and words that cabinet has.
    ghost sizes: { Self → Sizes };

    /// Who it is.
    ghost actor: { Self → Actor };

    /// What it has seen of the history.
    ghost seen: { Self → List HistoryEntry };

    /// It may touch this word of a place in this way.
    ghost may: { Self → Place → ℕ → Touch → Type 0 };

    /// All but what was seen is as it was.
    ghost stays: { Self → Self → Type 0 };

    /// The step of `Cabinet::touch`.
    fn touch_in(
        &mut self,
        cabinet: &Cabinet<E>,
        place: &Place,
        word: usize,
        touch: Touch,
        _seal: Seal,
    ) -> u64
        requires own { made_by self.old ≡ cabinet.now.id }
        requires kind { IsTouch (actor self.old) place.now word touch }
        requires may { may self.old place.now word touch }
        ensures shown { ShowsTouch (actor self.old) (sizes self.old) place.now word touch (seen self.old) result (seen self.new) }
        ensures stays { stays self.old self.new };

    /// Where all but what was seen is as it was, it may do what it might.
    ghost lasts: { (x y : Self) → stays x y → (made_by y ≡ made_by x) × (sizes y ≡ sizes x) × (actor y ≡ actor x)
        × ((p : Place) (word : ℕ) (t : Touch) → may x p word t → may y p word t) };

    /// What stays over two calls stays over both.
    ghost joins: { (x y z : Self) → stays x y → stays y z → stays x z };

    /// Who may look at a word may try to replace bytes of it.
    ghost tries: { (x : Self) (p : Place) (word old first bytes value : ℕ) → may x p word Look → may x p word (Try old first bytes value) };
}

impl<E: Edition + Drop> Hand<E> for Pass<E> {
    ghost made_by = { λ p. p.cabinet };

    ghost sizes = { λ p. p.sizes };

    ghost actor = { λ p. Pass (pass_id p.number) };

    ghost seen = { λ p. p.seen };

    ghost may = { λ p place word touch. (e : E) × (p.edition ≡ Some e) × PassMay (E.places e) place word touch };

    ghost stays = { λ p q. (q.cabinet ≡ p.cabinet) × (q.number ≡ p.number) × (q.sizes ≡ p.sizes) × (q.edition ≡ p.edition) };

    ghost lasts = { λ x y s. (s.0, s.2, ap (λ n. Pass (pass_id n)) s.1, λ p word t m. (m.0, s.3 ∙ m.1, m.2)) };

    ghost joins = { λ x y z s t. (t.0 ∙ s.0, t.1 ∙ s.1, t.2 ∙ s.2, t.3 ∙ s.3) };

    ghost tries = { λ x p word old first bytes value m. m };

    #[inline(always)]
    fn touch_in(
        &mut self,
        cabinet: &Cabinet<E>,
        place: &Place,
        word: usize,
        touch: Touch,
        _seal: Seal,
    ) -> u64 {
        let Some(edition) = &self.edition else {
            unreachable!()
        };
        // Its contract tells that its places are those of its forest.
        edition.number();
        let actor = Actor::Pass(self.id);
        touch_word(
            &cabinet.table.shared,
            &mut self.seat,
            cabinet.passes,
            actor,
            place,
            word,
            touch,
        )
    }
}

impl<E: Edition + Drop> Hand<E> for WriterSeat<E> {
    ghost made_by = { λ w. w.cabinet };

    ghost sizes = { λ w. w.sizes };

    ghost actor = { λ w. Writer };

    ghost seen = { λ w. w.seen };

    ghost may = { λ w place word touch. WriterMay w.sizes place word };

    ghost stays = { λ w v. (v.cabinet ≡ w.cabinet) × (v.sizes ≡ w.sizes) × (v.out ≡ w.out) × KeepsHome w.out w.seen v.seen };

    ghost lasts = { λ x y s. (s.0, s.1, refl, λ p word t m. subst (λ z. WriterMay z p word) (sym s.1) m) };

    ghost joins = { λ x y z s t. (t.0 ∙ s.0, t.1 ∙ s.1, t.2 ∙ s.2, λ q l. t.3 q (ap (λ o. slice_index_or o q false) s.2 ∙ l) ∙ s.3 q l) };

    ghost tries = { λ x p word old first bytes value m. m };

    #[inline(always)]
    fn touch_in(
        &mut self,
        cabinet: &Cabinet<E>,
        place: &Place,
        word: usize,
        touch: Touch,
        _seal: Seal,
    ) -> u64 {
        touch_word(
            &cabinet.table.shared,
            &mut self.seat,
            cabinet.passes,
            Actor::Writer,
            place,
            word,
            touch,
        )
    }
}
