// The cabinet, and the calls of a pass.
ghost use Rattle.std.specs.Prelude.{◌≡◌, ℕ, ◌≤◌, ◌+◌, ◌/◌, ◌%◌, [], ◌∷◌, length, true, Some, None, MatchBool};
ghost use Rattle.std.specs.List.{list_any};
ghost use Rattle.mem_base.specs.access.Places.{data_words};
ghost use Rattle.mem_base.specs.machine.SharedHistory.{is_same_place};
ghost use Rattle.epoch_rule.specs.Loads.{HasLoaded};
ghost use Rattle.mem_base.specs.declared.machine.events.Event.TheVariants.{Leave};
ghost use Rattle.mem_base.specs.declared.machine.events.Carried.TheVariants.{Nothing};
ghost use Rattle.mem_base.specs.machine.Passes.{pass_id};
ghost use Rattle.mem_base.specs.machine.Turns.{history_entry};
ghost use Rattle.mem_base.specs.machine.Actors.{number_seen, generation_published};
ghost use Rattle.epoch_rule.specs.Copies.{shown_by};
ghost use Rattle.epoch_rule.specs.Wrote.{Made, entries_of_enter, longer};
ghost use Rattle.epoch_rule.specs.Touches.{IsTouch};
ghost use Rattle.epoch_rule.specs.Shown.{ShowsTouch};
ghost use mathlib.Core.List.{IsPrefix};

use crate::board::{
    Announces, Enters, LINE_WORDS, Law, Leaves, Looks, Meets, NUMBER_WORD, PASS_SLOTS, Settles,
    Slot, Tells,
};
use crate::hands::{Hand, Seal};
use crate::loads::load_each;
use crate::passes::{Note, Pass};
use crate::touches::Touch;
use crate::views::{Sizes, View};
use atomic_table::Table;
use mem_base::{Edition, MOST_GENERATIONS, Place};
use std::alloc::Global;
use std::marker::Model;

/// The words and slots that the passes and the writer share. Contracts see which cabinet it is, and its sizes.
#[derive(Drop)]
pub struct Cabinet<E: Edition + Drop> {
    pub(crate) table: Table<Slot<E>, View, Sizes, Law, Global>,
    pub(crate) passes: u32,
}

impl<E: Edition + Drop> Model for Cabinet<E> {
    ghost use Rattle.epoch_rule.specs.Values.{CabinetValue, IsCabinet};

    ghost Value = { CabinetValue };

    ghost view = { λ c. record { id = c.table.shared.table_id; sizes = c.table.shared.key } };

    ghost invariant = { λ c. IsCabinet c.table.shared.table_id c.table.shared.key c.passes };
}

impl<E: Edition + Drop> Cabinet<E> {
    /// Enters the generation that is current at the call's last step, and answers its number, which is at least every
    /// number that the pass had seen. The pass must be of this cabinet, and not entered.
    pub fn enter(&self, pass: &mut Pass<E>) -> u64
        requires own { pass.old.cabinet ≡ self.now.id }
        requires out { pass.old.edition ≡ None }
        ensures events { (looked : ℕ) × Made pass.old (entries_of_enter (pass_id pass.old.number) looked result) pass.new }
        ensures current { result ≡ number_seen pass.new.seen }
        ensures newest { number_seen pass.old.seen ≤ result }
        ensures edition { (e : E) × (pass.new.edition ≡ Some e) × (E.counted e ≡ result)
            × (shown_by E.forest E.places e ≡ generation_published pass.new.seen result) }
    {
        let shared = &self.table.shared;
        let who = pass.id.number() as usize;
        let looked = shared.load::<Looks>(&mut pass.seat, NUMBER_WORD);
        shared.store::<Announces>(&mut pass.seat, LINE_WORDS * (who + 1), looked + 1);
        let number = shared.load::<Enters>(&mut pass.seat, NUMBER_WORD);
        let slot = PASS_SLOTS * who + (number % MOST_GENERATIONS) as usize;
        pass.edition = shared.exchange(&mut pass.seat, slot, None);
        number
    }

    /// Leaves the generation that the pass is entered in. The pass must be of this cabinet, and entered.
    pub fn leave(&self, pass: &mut Pass<E>)
        requires own { pass.old.cabinet ≡ self.now.id }
        requires entered { (e : E) × (pass.old.edition ≡ Some e) }
        ensures events { Made pass.old (history_entry (Leave (pass_id pass.old.number)) Nothing 0 ∷ []) pass.new }
        ensures out { pass.new.edition ≡ None }
    {
        let shared = &self.table.shared;
        let who = pass.id.number() as usize;
        if let Some(edition) = pass.edition.take() {
            let slot = PASS_SLOTS * who + (edition.number() % MOST_GENERATIONS) as usize;
            shared.exchange(&mut pass.seat, slot, Some(edition));
            shared.store::<Leaves>(&mut pass.seat, LINE_WORDS * (who + 1), 0);
        }
    }

    /// Whether the pass is entered in a generation.
    pub fn entered(&self, pass: &Pass<E>) -> bool
        ensures { MatchBool result ((e : E) × (pass.now.edition ≡ Some e)) (pass.now.edition ≡ None) }
    {
        pass.edition.is_some()
    }

    /// The edition that the pass is entered in. The pass must be entered.
    pub fn generation<'a>(&self, pass: &'a Pass<E>) -> &'a E
        requires { (e : E) × (pass.now.edition ≡ Some e) }
        ensures { pass.now.edition ≡ Some result.now }
    {
        match &pass.edition {
            Some(edition) => edition,
            None => unreachable!(),
        }
    }

    /// A note of what the pass has seen, for the writer to hear. The pass may be entered.
    pub fn tell(&self, pass: &mut Pass<E>) -> Note<E>
        requires own { pass.old.cabinet ≡ self.now.id }
        ensures same { pass.new ≡ pass.old }
        ensures note { (result.cabinet ≡ pass.old.cabinet) × (result.seen ≡ pass.old.seen) }
    {
        Note {
            seat: self.table.shared.split_seat::<Tells>(&mut pass.seat),
        }
    }

    /// The pass has then seen all that the note tells of. It may be entered, and then stays in its generation; the next
    /// one that it enters is no older than the note.
    pub fn meet(&self, pass: &mut Pass<E>, note: Note<E>)
        requires own { (pass.old.cabinet ≡ self.now.id) × (note.cabinet ≡ self.now.id) }
        ensures longer { pass.new.seen ≡ longer pass.old.seen note.seen }
        ensures seen { IsPrefix note.seen pass.new.seen }
        ensures events { Made pass.old [] pass.new }
        ensures edition { pass.new.edition ≡ pass.old.edition }
    {
        let shared = &self.table.shared;
        let Note { seat } = note;
        shared.join_seat::<Meets>(&mut pass.seat, seat);
        shared.load::<Settles>(&mut pass.seat, NUMBER_WORD);
    }

    /// One atomic step on word `word` of a place, by a pass or the writer: the value that the word had, or 0 where the
    /// step is a store. A pass may step on the data, registers and notifiers of the places that its generation
    /// carries, and the writer on all words of a place that ends within the cabinet's words.
    #[inline(always)]
    pub fn touch<H: Hand<E>>(&self, hand: &mut H, place: &Place, word: usize, touch: Touch) -> u64
        requires own { H.made_by hand.old ≡ self.now.id }
        requires kind { IsTouch (H.actor hand.old) place.now word touch }
        requires may { H.may hand.old place.now word touch }
        ensures shown { ShowsTouch (H.actor hand.old) (H.sizes hand.old) place.now word touch (H.seen hand.old) result (H.seen hand.new) }
        ensures stays { H.stays hand.old hand.new }
    {
        hand.touch_in(self, place, word, touch, Seal)
    }

    /// One atomic load of each word of a place in a row, from word `first` on, ascending, as many as there is room for the
    /// bytes of: eight bytes of each, the lowest first. It makes just the steps of as many calls of `touch`, in less time.
    ///
    /// The pass must be of this cabinet, and entered in an edition that carries the place; the words are among its data,
    /// registers or notifiers; and there is room for whole words.
    #[inline(always)]
    pub fn load_words(&self, pass: &mut Pass<E>, place: &Place, first: usize, out: &mut [u8])
        requires own { pass.old.cabinet ≡ self.now.id }
        requires carried { (e : E) × (pass.old.edition ≡ Some e) × (list_any (is_same_place place.now) (E.places e) ≡ true) }
        requires inside { first + length out.old / 8 ≤ data_words place.now.bytes + place.now.regs }
        requires whole { length out.old % 8 ≡ 0 }
        ensures loaded { HasLoaded pass.old.sizes pass.old.number place.now first pass.old.seen out.new pass.new.seen }
        ensures same { (pass.new.cabinet ≡ pass.old.cabinet) × (pass.new.number ≡ pass.old.number) × (pass.new.sizes ≡ pass.old.sizes) }
        ensures edition { pass.new.edition ≡ pass.old.edition }
    {
        let Some(edition) = &pass.edition else {
            unreachable!()
        };
        // Its contract tells that its places are those of its forest.
        edition.number();
        let shared = &self.table.shared;
        let id = pass.id;
        load_each(shared, &mut pass.seat, self.passes, id, place, first, out);
    }
}
