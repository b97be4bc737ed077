// Steps on words by an entered pass, each of which is tried at most n times.
ghost use Rattle.std.specs.Prelude.{◌≡◌, ℕ, ◌+◌, ◌<◌, ◌≤◌, [], ◌∷◌, is_some, true, MatchBool};
ghost use Rattle.mem_base.specs.declared.access.cells.WordStep.TheVariants.{Replace};
ghost use Rattle.mem_base.specs.declared.machine.events.Event.TheVariants as events;
ghost use Rattle.mem_base.specs.access.Places.{is_data_or_register, pages_in};
ghost use Rattle.mem_base.specs.machine.Passes.{pass_id};
ghost use Rattle.access_run.specs.Hands.{IsPlaceOf, IsWriteStep, word_event};
ghost use Rattle.epoch_rule.specs.declared.touches.Touch.TheVariants.{Look};
ghost use Rattle.epoch_rule.specs.Wrote.{WroteStep};
ghost use Rattle.vcpu_pass.specs.Steps.{HasMade, IsPart, IsWhole, generation_in};
ghost use Rattle.bounded_write.specs.Tries.{IsContended, WasContended};

use epoch_rule::{Cabinet, Hand, Pass, Touch};
use generation::Generation;
use mem_base::{Client, Edition, Place, WORD_SIZE, WordStep};
use shared_words::{mark, or, store8};

// Replaces the `bytes` bytes of a word from byte `first` on, by an exchange that is tried at most `tries` times: whether it stood.
fn exchange<E: Edition + Drop, H: Hand<E>>(
    cabinet: &Cabinet<E>,
    hand: &mut H,
    place: &Place,
    word: usize,
    first: u32,
    bytes: u32,
    value: u64,
    tries: u32,
) -> bool
    requires own { H.made_by hand.old ≡ cabinet.now.id }
    requires part { (0 < bytes) × (first + bytes ≤ 8) }
    requires may { H.may hand.old place.now word Look }
    ensures wrote { MatchBool result
        ((old : ℕ) × WroteStep (H.actor hand.old) (H.sizes hand.old) place.now word (Replace first bytes value) old (H.seen hand.old) (H.seen hand.new))
        ((H.seen hand.new ≡ H.seen hand.old) × IsContended (H.sizes hand.old) (H.seen hand.old) (place.now.start + word) tries) }
    ensures stays { H.stays hand.old hand.new }
{
    let mut old = cabinet.touch(hand, place, word, Touch::Look);
    let mut left = tries;
    while left > 0 {
        let touch = Touch::Try {
            old,
            first,
            bytes,
            value,
        };
        let found = cabinet.touch(hand, place, word, touch);
        if found == old {
            return true;
        }
        old = found;
        left -= 1;
    }
    false
}

// The same by a pass that is entered.
fn replace(
    cabinet: &Cabinet<Generation>,
    pass: &mut Pass<Generation>,
    place: &Place,
    word: usize,
    first: u32,
    bytes: u32,
    value: u64,
    tries: u32,
) -> bool
    requires own { pass.old.cabinet ≡ cabinet.now.id }
    requires entered { is_some pass.old.edition ≡ true }
    requires placed { IsPlaceOf (generation_in pass.old) place.now }
    requires inside { is_data_or_register place.now word ≡ true }
    requires part { IsPart first bytes value }
    ensures { MatchBool result
        ((old : ℕ) × HasMade pass.old (word_event (pass_id pass.old.number) place.now word (Replace first bytes value) ∷ []) (old ∷ []) pass.new)
        ((pass.new ≡ pass.old) × WasContended pass.old tries) }
{
    exchange(cabinet, pass, place, word, first, bytes, value, tries)
}

// A step of a write that replaces a whole word, or sets bits.
fn write_whole(
    cabinet: &Cabinet<Generation>,
    pass: &mut Pass<Generation>,
    place: &Place,
    word: usize,
    step: WordStep,
)
    requires own { pass.old.cabinet ≡ cabinet.now.id }
    requires entered { is_some pass.old.edition ≡ true }
    requires placed { IsPlaceOf (generation_in pass.old) place.now }
    requires inside { is_data_or_register place.now word ≡ true }
    requires kind { IsWriteStep step }
    requires whole { IsWhole step }
    ensures { (old : ℕ) × HasMade pass.old (word_event (pass_id pass.old.number) place.now word step ∷ []) (old ∷ []) pass.new }
{
    match step {
        WordStep::Replace { value, .. } => {
            store8(cabinet, pass, place, word, value);
        }
        WordStep::Or { bits } => {
            or(cabinet, pass, place, word, bits);
        }
        _ => unreachable!(),
    }
}

/// Marks a page for a client.
pub(crate) fn mark_step(
    cabinet: &Cabinet<Generation>,
    pass: &mut Pass<Generation>,
    place: &Place,
    client: Client,
    page: u64,
)
    requires own { pass.old.cabinet ≡ cabinet.now.id }
    requires entered { is_some pass.old.edition ≡ true }
    requires placed { IsPlaceOf (generation_in pass.old) place.now }
    requires page { page < pages_in place.now }
    ensures { HasMade pass.old (events.Mark (pass_id pass.old.number) place.now.region client page ∷ []) (0 ∷ []) pass.new }
{
    mark(cabinet, pass, place, client, page);
}

/// A step of a write on a word of a place, which is counted as in `access_run`: whether it was made. A part of a word is tried at most
/// `tries` times; where none of the exchanges stood, others changed the word each time, and nothing is written.
pub(crate) fn step_within(
    cabinet: &Cabinet<Generation>,
    pass: &mut Pass<Generation>,
    place: &Place,
    word: usize,
    step: WordStep,
    tries: u32,
) -> bool
    requires own { pass.old.cabinet ≡ cabinet.now.id }
    requires entered { is_some pass.old.edition ≡ true }
    requires placed { IsPlaceOf (generation_in pass.old) place.now }
    requires inside { is_data_or_register place.now word ≡ true }
    requires kind { IsWriteStep step }
    ensures { MatchBool result
        ((old : ℕ) × HasMade pass.old (word_event (pass_id pass.old.number) place.now word step ∷ []) (old ∷ []) pass.new)
        ((pass.new ≡ pass.old) × WasContended pass.old tries) }
{
    match step {
        WordStep::Replace {
            first,
            bytes,
            value,
        } if u64::from(bytes) < WORD_SIZE => {
            replace(cabinet, pass, place, word, first, bytes, value, tries)
        }
        _ => {
            write_whole(cabinet, pass, place, word, step);
            true
        }
    }
}
