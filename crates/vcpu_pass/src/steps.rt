// The steps of an entered pass on the words of its generation's places.
ghost use Rattle.std.specs.Prelude.{◌≡◌, ℕ, ◌<◌, [], ◌∷◌, is_some, true};
ghost use Rattle.mem_base.specs.declared.machine.events.Event.TheVariants as events;
ghost use Rattle.mem_base.specs.declared.access.cells.WordStep.TheVariants.{Replace};
ghost use Rattle.mem_base.specs.access.Places.{is_data_or_register, pages_in};
ghost use Rattle.mem_base.specs.machine.Passes.{pass_id};
ghost use Rattle.access_run.specs.Hands.{IsPlaceOf, IsReadStep, IsWriteStep, word_event};
ghost use Rattle.vcpu_pass.specs.Steps.{HasMade, IsPart, IsWhole, generation_in};

use epoch_rule::{Cabinet, Pass};
use generation::Generation;
use mem_base::{Client, Place, WordStep};
use shared_words::{add, load, mark, or, replace, store8, take};
use std::sync::Wait;

/// A step of a read: it answers the word before it.
pub(crate) fn read_step(
    cabinet: &Cabinet<Generation>,
    pass: &mut Pass<Generation>,
    place: &Place,
    word: usize,
    step: WordStep,
) -> u64
    requires own { pass.old.cabinet ≡ cabinet.now.id }
    requires entered { is_some pass.old.edition ≡ true }
    requires placed { IsPlaceOf (generation_in pass.old) place.now }
    requires inside { is_data_or_register place.now word ≡ true }
    requires kind { IsReadStep step }
    ensures { HasMade pass.old (word_event (pass_id pass.old.number) place.now word step ∷ []) (result ∷ []) pass.new }
{
    match step {
        WordStep::Load => load(cabinet, pass, place, word),
        WordStep::AddOne => add(cabinet, pass, place, word),
        WordStep::Take => take(cabinet, pass, place, word),
        _ => unreachable!(),
    }
}

/// A step of a write that replaces a whole word, or sets bits.
pub(crate) fn write_whole(
    cabinet: &Cabinet<Generation>,
    pass: &mut Pass<Generation>,
    place: &Place,
    word: usize,
    step: WordStep,
)
    requires own { pass.old.cabinet ≡ cabinet.now.id }
    requires entered { is_some pass.old.edition ≡ true }
    requires placed { IsPlaceOf (generation_in pass.old) place.now }
    requires inside { is_data_or_register place.now word ≡ true }
    requires kind { IsWriteStep step }
    requires whole { IsWhole step }
    ensures { (old : ℕ) × HasMade pass.old (word_event (pass_id pass.old.number) place.now word step ∷ []) (old ∷ []) pass.new }
{
    match step {
        WordStep::Replace { value, .. } => {
            store8(cabinet, pass, place, word, value);
        }
        WordStep::Or { bits } => {
            or(cabinet, pass, place, word, bits);
        }
        _ => unreachable!(),
    }
}

/// A step of a write that replaces the `bytes` bytes of a word from byte `first` on. It may wait.
pub(crate) fn write_part<R: Wait>(
    rt: &R,
    cabinet: &Cabinet<Generation>,
    pass: &mut Pass<Generation>,
    place: &Place,
    word: usize,
    first: u32,
    bytes: u32,
    value: u64,
)
    requires own { pass.old.cabinet ≡ cabinet.now.id }
    requires entered { is_some pass.old.edition ≡ true }
    requires placed { IsPlaceOf (generation_in pass.old) place.now }
    requires inside { is_data_or_register place.now word ≡ true }
    requires part { IsPart first bytes value }
    ensures { (old : ℕ) × HasMade pass.old (word_event (pass_id pass.old.number) place.now word (Replace first bytes value) ∷ []) (old ∷ [])
        pass.new }
{
    replace(rt, cabinet, pass, place, word, first, bytes, value);
}

/// Marks a page for a client.
pub(crate) fn mark_step(
    cabinet: &Cabinet<Generation>,
    pass: &mut Pass<Generation>,
    place: &Place,
    client: Client,
    page: u64,
)
    requires own { pass.old.cabinet ≡ cabinet.now.id }
    requires entered { is_some pass.old.edition ≡ true }
    requires placed { IsPlaceOf (generation_in pass.old) place.now }
    requires page { page < pages_in place.now }
    ensures { HasMade pass.old (events.Mark (pass_id pass.old.number) place.now.region client page ∷ []) (0 ∷ []) pass.new }
{
    mark(cabinet, pass, place, client, page);
}
