// Steps on whole words.
ghost use Rattle.std.specs.Prelude.{◌≡◌, ℕ, ◌+◌, ◌/◌, ◌%◌, ◌≤◌, length, true, Some};
ghost use Rattle.std.specs.List.{list_any};
ghost use Rattle.mem_base.specs.declared.access.cells.WordStep.TheVariants as steps;
ghost use Rattle.mem_base.specs.access.Places.{data_words};
ghost use Rattle.mem_base.specs.machine.SharedHistory.{is_same_place};
ghost use Rattle.epoch_rule.specs.Loads.{HasLoaded};
ghost use Rattle.epoch_rule.specs.declared.touches.Touch.TheVariants.{Step};
ghost use Rattle.epoch_rule.specs.Wrote.{WroteStep};

use epoch_rule::{Cabinet, Hand, Pass, Touch};
use mem_base::{Edition, Place, WordStep};

/// The value of a word. As in all calls here, a pass must be entered, its generation must carry the place, and the
/// word be one of its data, registers or notifiers; for the writer the place must end within the cabinet's words.
pub fn load<E: Edition + Drop, H: Hand<E>>(
    cabinet: &Cabinet<E>,
    hand: &mut H,
    place: &Place,
    word: usize,
) -> u64
    requires own { H.made_by hand.old ≡ cabinet.now.id }
    requires may { H.may hand.old place.now word (Step steps.Load) }
    ensures wrote { WroteStep (H.actor hand.old) (H.sizes hand.old) place.now word steps.Load result (H.seen hand.old) (H.seen hand.new) }
    ensures stays { H.stays hand.old hand.new }
{
    cabinet.touch(hand, place, word, Touch::Step(WordStep::Load))
}

/// The bytes of words in a row, from word `first` on, ascending, as many as there is room for: one load for each, and its eight
/// bytes, the lowest first. It takes less time than as many calls of `load`.
///
/// The pass must be entered, its generation must carry the place, and the words be among its data, registers or notifiers; there is
/// room for whole words.
#[inline(always)]
pub fn load_words<E: Edition + Drop>(
    cabinet: &Cabinet<E>,
    pass: &mut Pass<E>,
    place: &Place,
    first: usize,
    out: &mut [u8],
)
    requires own { pass.old.cabinet ≡ cabinet.now.id }
    requires carried { (e : E) × (pass.old.edition ≡ Some e) × (list_any (is_same_place place.now) (E.places e) ≡ true) }
    requires inside { first + length out.old / 8 ≤ data_words place.now.bytes + place.now.regs }
    requires whole { length out.old % 8 ≡ 0 }
    ensures loaded { HasLoaded pass.old.sizes pass.old.number place.now first pass.old.seen out.new pass.new.seen }
    ensures same { (pass.new.cabinet ≡ pass.old.cabinet) × (pass.new.number ≡ pass.old.number) × (pass.new.sizes ≡ pass.old.sizes) }
    ensures edition { pass.new.edition ≡ pass.old.edition }
{
    cabinet.load_words(pass, place, first, out);
}

/// Replaces all eight bytes of a word.
pub fn store8<E: Edition + Drop, H: Hand<E>>(
    cabinet: &Cabinet<E>,
    hand: &mut H,
    place: &Place,
    word: usize,
    value: u64,
)
    requires own { H.made_by hand.old ≡ cabinet.now.id }
    requires may { H.may hand.old place.now word (Step (steps.Replace 0 8 value)) }
    ensures wrote { (old : ℕ) × WroteStep (H.actor hand.old) (H.sizes hand.old) place.now word (steps.Replace 0 8 value) old
        (H.seen hand.old) (H.seen hand.new) }
    ensures stays { H.stays hand.old hand.new }
{
    let step = WordStep::Replace {
        first: 0,
        bytes: 8,
        value,
    };
    cabinet.touch(hand, place, word, Touch::Step(step));
}

/// Adds one, modulo 2^64, and answers the value before.
pub fn add<E: Edition + Drop, H: Hand<E>>(
    cabinet: &Cabinet<E>,
    hand: &mut H,
    place: &Place,
    word: usize,
) -> u64
    requires own { H.made_by hand.old ≡ cabinet.now.id }
    requires may { H.may hand.old place.now word (Step steps.AddOne) }
    ensures wrote { WroteStep (H.actor hand.old) (H.sizes hand.old) place.now word steps.AddOne result (H.seen hand.old) (H.seen hand.new) }
    ensures stays { H.stays hand.old hand.new }
{
    cabinet.touch(hand, place, word, Touch::Step(WordStep::AddOne))
}

/// Sets these bits of a word, and answers the value before.
pub fn or<E: Edition + Drop, H: Hand<E>>(
    cabinet: &Cabinet<E>,
    hand: &mut H,
    place: &Place,
    word: usize,
    bits: u64,
) -> u64
    requires own { H.made_by hand.old ≡ cabinet.now.id }
    requires may { H.may hand.old place.now word (Step (steps.Or bits)) }
    ensures wrote { WroteStep (H.actor hand.old) (H.sizes hand.old) place.now word (steps.Or bits) result (H.seen hand.old) (H.seen hand.new) }
    ensures stays { H.stays hand.old hand.new }
{
    cabinet.touch(hand, place, word, Touch::Step(WordStep::Or { bits }))
}

/// Leaves 0 in a word, by one swap, and answers the value before.
pub fn take<E: Edition + Drop, H: Hand<E>>(
    cabinet: &Cabinet<E>,
    hand: &mut H,
    place: &Place,
    word: usize,
) -> u64
    requires own { H.made_by hand.old ≡ cabinet.now.id }
    requires may { H.may hand.old place.now word (Step steps.Take) }
    ensures wrote { WroteStep (H.actor hand.old) (H.sizes hand.old) place.now word steps.Take result (H.seen hand.old) (H.seen hand.new) }
    ensures stays { H.stays hand.old hand.new }
{
    cabinet.touch(hand, place, word, Touch::Step(WordStep::Take))
}
