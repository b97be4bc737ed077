// Who makes the steps of an access.
ghost use Rattle.std.specs.Prelude.{◌≡◌, ℕ, ◌<◌, ◌++◌, List, [], ◌∷◌, length, true};
ghost use Rattle.mem_base.specs.map.PassIds.{PassId};
ghost use Rattle.mem_base.specs.declared.access.cells.WordStep.{WordStep};
ghost use Rattle.mem_base.specs.declared.machine.events.Event.{Event};
ghost use Rattle.mem_base.specs.declared.machine.events.Event.TheVariants as events;
ghost use Rattle.mem_base.specs.access.Places.{is_data_or_register, pages_in};
ghost use Rattle.generation.specs.Published.{Published};
ghost use Rattle.access_run.specs.Hands.{IsPlaceOf, IsReadStep, IsWriteStep, word_event};

use generation::Generation;
use mem_base::{Client, Place, WordStep};

/// One that is entered in a generation, and by which accesses are made: its generation is the one by which all chunks,
/// translations and pieces of an access go.
pub trait Entered {
    /// The pass that makes its events.
    ghost pass: { Self → PassId };

    /// The generation that it is entered in.
    ghost shows: { Self → Published };

    /// From one state of it to another it made just these events, in order, and these are the replies, one for each: the word
    /// before a step, and 0 of a mark.
    ghost makes: { Self → List Event → List ℕ → Self → Type 0 };

    /// The generation that it is entered in.
    fn generation(&self) -> &Generation
        ensures { result.now ≡ shows self.now };

    /// As it is, it has made no events.
    ghost begins: { (x : Self) → makes x [] [] x };

    /// What it made, and what it made after that, is made in one.
    ghost goes_on: { (x y z : Self) (es fs : List Event) (rs qs : List ℕ) → length rs ≡ length es → makes x es rs y → makes y fs qs z
        → makes x (es ++ fs) (rs ++ qs) z };

    /// It stays the same pass, in the same generation.
    ghost stays: { (x y : Self) (es : List Event) (rs : List ℕ) → makes x es rs y → (pass y ≡ pass x) × (shows y ≡ shows x) };
}

/// One that makes the steps of reads.
pub trait Reads: Entered {
    /// One atomic step on a word of a place, counted in words of 8 bytes from the place's first: a load, or a counter's or a bell's
    /// read of its register. It answers the word before it.
    fn read_word(&mut self, place: &Place, word: usize, step: WordStep) -> u64
        requires placed { IsPlaceOf (Self.shows self.old) place.now }
        requires inside { is_data_or_register place.now word ≡ true }
        requires kind { IsReadStep step }
        ensures { Self.makes self.old (word_event (Self.pass self.old) place.now word step ∷ []) (result ∷ []) self.new };
}

/// One that makes the steps of writes.
pub trait Writes: Entered {
    /// Which steps it takes: one that cannot replace a part of a word takes only those of whole words.
    ghost takes: { Self → WordStep → Type 0 };

    /// One atomic step on a word of a place, counted as in `read_word`: some of its bytes are replaced, or bits are set.
    fn write_word(&mut self, place: &Place, word: usize, step: WordStep)
        requires placed { IsPlaceOf (Self.shows self.old) place.now }
        requires inside { is_data_or_register place.now word ≡ true }
        requires kind { IsWriteStep step }
        requires takes { takes self.old step }
        ensures { (old : ℕ) × Self.makes self.old (word_event (Self.pass self.old) place.now word step ∷ []) (old ∷ []) self.new };

    /// Marks a page of a place as written, for one client. Pages are of 4,096 bytes, from 0 on.
    fn mark_page(&mut self, place: &Place, client: Client, page: u64)
        requires placed { IsPlaceOf (Self.shows self.old) place.now }
        requires inside { page < pages_in place.now }
        ensures { Self.makes self.old (events.Mark (Self.pass self.old) place.now.region client page ∷ []) (0 ∷ []) self.new };

    /// It goes on to take the steps that it takes.
    ghost lasts: { (x y : Self) (es : List Event) (rs : List ℕ) → Self.makes x es rs y → (step : WordStep) → takes x step → takes y step };
}
