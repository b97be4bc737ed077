// The steps of the writer's seat, as the writer's calls name their entries.
ghost use Rattle.std.specs.Prelude.{◌≡◌, ℕ, ◌+◌, ◌≤◌, ◌<◌, List, [], ◌∷◌, length, MatchResult};
ghost use Rattle.mem_base.specs.access.Places.{extent, mark_words, past, words_of};
ghost use Rattle.epoch_rule.specs.Calls.{generations_in_seen, refusal_of};
ghost use Rattle.writer_hand.specs.Hands.{MayPublish, IsPublished, IsHeldUp, cleared, swept, word_entry};
ghost use Rattle.mem_base.specs.declared.machine.events.Event.TheVariants as events;
ghost use Rattle.mem_base.specs.declared.machine.events.Carried.TheVariants.{At};
ghost use Rattle.mem_base.specs.machine.Generations.{least_lowest};
ghost use Rattle.mem_base.specs.machine.Orders.{sweeps};
ghost use Rattle.mem_base.specs.machine.Turns.{history_entry};
ghost use Rattle.mem_base.specs.declared.access.cells.WordStep.TheVariants.{Take, Replace};
ghost use Rattle.mem_base.specs.access.Words.{little_endian};
ghost use Rattle.seat_run.specs.Written.{HasWritten};

use epoch_rule::{Batch, Cabinet, Held, WriterSeat};
use generation::Generation;
use mem_base::{Client, Place, Refusal};
use shared_words::{fill, harvest, store_part, take};
use std::sync::Wait;

/// The number of the current generation.
pub(crate) fn current_of(seat: &WriterSeat<Generation>) -> u64
    ensures { result ≡ (generations_in_seen seat.now.sizes seat.now.seen).current }
{
    // It tells that what the seat has seen is a legal history.
    seat.has_seen_legal();
    seat.current()
}

// The refusal that says what holds a publish up. The batch is let go.
fn refusal_of(kept: (Held, Batch<Generation>)) -> Refusal
    ensures { result ≡ refusal_of kept.0 }
{
    let (held, _) = kept;
    Refusal::Held(held.pass, held.number)
}

/// Publishes a batch, or answers which pass holds it up.
pub(crate) fn publish_batch(
    cabinet: &Cabinet<Generation>,
    seat: &mut WriterSeat<Generation>,
    next: Batch<Generation>,
) -> Result<u64, Refusal>
    requires own { seat.old.cabinet ≡ cabinet.now.id }
    requires copies { next.copies ≡ seat.old.sizes.passes }
    requires may { MayPublish (generations_in_seen seat.old.sizes seat.old.seen) seat.old.sizes.words next.edition }
    ensures published { MatchResult result
        (λ number. (number ≡ next.edition.number) × IsPublished (generations_in_seen seat.old.sizes seat.old.seen) next.edition
        (λ xs. HasWritten seat.old xs seat.new))
        (λ why. IsHeldUp (generations_in_seen seat.old.sizes seat.old.seen) why (λ xs. HasWritten seat.old xs seat.new)) }
{
    // It tells that what the seat has seen is a legal history.
    seat.has_seen_legal();
    match cabinet.publish(seat, next) {
        Ok(number) => return Ok(number),
        Err(kept) => return Err(refusal_of(kept)),
    }
}

/// Clears each word of a place.
pub(crate) fn fill_place(
    cabinet: &Cabinet<Generation>,
    seat: &mut WriterSeat<Generation>,
    place: &Place,
)
    requires own { seat.old.cabinet ≡ cabinet.now.id }
    requires within { past place.now ≤ seat.old.sizes.words }
    ensures { HasWritten seat.old (cleared place.now) seat.new }
{
    fill(cabinet, seat, place);
}

/// Takes a word of a place.
pub(crate) fn take_word(
    cabinet: &Cabinet<Generation>,
    seat: &mut WriterSeat<Generation>,
    place: &Place,
    word: usize,
) -> u64
    requires own { seat.old.cabinet ≡ cabinet.now.id }
    requires within { past place.now ≤ seat.old.sizes.words }
    requires inside { word < place.now.words }
    ensures { HasWritten seat.old (word_entry place.now word Take result ∷ []) seat.new }
{
    take(cabinet, seat, place, word)
}

/// Replaces the bytes of a word of a place from byte `first` on. It may wait where they are no whole word.
pub(crate) fn store_bytes<R: Wait>(
    rt: &R,
    cabinet: &Cabinet<Generation>,
    seat: &mut WriterSeat<Generation>,
    place: &Place,
    word: usize,
    first: u32,
    bytes: &[u8],
)
    requires own { seat.old.cabinet ≡ cabinet.now.id }
    requires within { past place.now ≤ seat.old.sizes.words }
    requires inside { word < place.now.words }
    requires part { (0 < length bytes.now) × (first + length bytes.now ≤ 8) }
    ensures { (old : ℕ) × HasWritten seat.old (word_entry place.now word (Replace first (length bytes.now) (little_endian bytes.now)) old ∷ [])
        seat.new }
{
    store_part(rt, cabinet, seat, place, word, first, bytes);
}

/// Sweeps every pass, and answers the least number of a generation that a pass may still use.
pub(crate) fn sweep_seat(cabinet: &Cabinet<Generation>, seat: &mut WriterSeat<Generation>) -> u64
    requires own { seat.old.cabinet ≡ cabinet.now.id }
    ensures swept { (found : List ℕ) × (length found ≡ length (sweeps (generations_in_seen seat.old.sizes seat.old.seen)))
        × HasWritten seat.old (swept (generations_in_seen seat.old.sizes seat.old.seen) found) seat.new }
    ensures lowest { result ≡ least_lowest (generations_in_seen seat.new.sizes seat.new.seen).current
        (generations_in_seen seat.new.sizes seat.new.seen).passes }
{
    let swept = cabinet.sweep(seat);
    swept.lowest
}

/// Takes a mark word that a client has of a place.
pub(crate) fn take_marks(
    cabinet: &Cabinet<Generation>,
    seat: &mut WriterSeat<Generation>,
    place: &Place,
    client: Client,
    index: usize,
) -> u64
    requires own { seat.old.cabinet ≡ cabinet.now.id }
    requires within { past place.now ≤ seat.old.sizes.words }
    requires words { place.now.words ≡ words_of (extent place.now.bytes place.now.regs) }
    requires index { index < mark_words place.now.bytes }
    ensures { HasWritten seat.old (history_entry (events.Harvest place.now.region client index) (At place.now) result ∷ []) seat.new }
{
    harvest(cabinet, seat, place, client, index)
}
