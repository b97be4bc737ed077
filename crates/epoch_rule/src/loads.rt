// Loads of words in a row by a pass. What does not change from one word to the next is looked at once: it would be fetched again
// at each word otherwise, since a compiler may not keep what it has read over an atomic step.
ghost use Rattle.std.specs.Prelude.{◌≡◌, ◌+◌, ◌/◌, ◌%◌, ◌^◌, ◌≤◌, ◌<◌, false, length, Some};
ghost use Rattle.mem_base.specs.access.Places.{data_words};
ghost use Rattle.mem_base.specs.access.Words.{bytes_of};
ghost use Rattle.epoch_rule.specs.Copies.{Suits};
ghost use Rattle.epoch_rule.specs.Loads.{HasLoaded, IsAtPlace, StaysPass};

use crate::board::{LINE_WORDS, SharedTable, TableSeat};
use crate::touches::step_word;
use mem_base::{Edition, Hand, PassId, Place, WordStep};

/// Puts the eight bytes of a word, the lowest first.
#[inline(always)]
fn put_word(word: u64, out: &mut [u8])
    requires room { length out.old ≡ 8 }
    ensures bytes { out.new ≡ bytes_of word 8 false }
{
    if let Some(part) = out.as_mut_array::<8>() {
        *part = word.to_le_bytes();
    }
}

/// One load of each word of a place in a row, from word `first` on, ascending, for a pass that is entered in an edition that
/// carries the place.
#[inline(always)]
pub(crate) fn load_each<E: Edition + Drop>(
    shared: &SharedTable<E>,
    seat: &mut TableSeat<E>,
    passes: u32,
    pass: PassId,
    place: &Place,
    first: usize,
    out: &mut [u8],
)
    requires table { (seat.old.table_id ≡ shared.now.table_id) × Suits shared.now.table_id shared.now.key × (passes ≡ shared.now.key.passes) }
    requires small { shared.now.key.words < 2 ^ 32 }
    requires role { seat.old.me.0.role ≡ Some (pass.0 + 1) }
    requires near { pass.0 < shared.now.key.passes }
    requires at { IsAtPlace E.counted E.forest E.places pass.0 seat.old.me.0 place.now }
    requires whole { length out.old % 8 ≡ 0 }
    requires inside { first + length out.old / 8 ≤ data_words place.now.bytes + place.now.regs }
    requires room { place.now.start + (first + length out.old / 8) ≤ shared.now.key.words }
    ensures table { seat.new.table_id ≡ seat.old.table_id }
    ensures slots { seat.new.me.1 ≡ seat.old.me.1 }
    ensures stays { StaysPass pass.0 seat.old.me.0 seat.new.me.0 }
    ensures loaded { HasLoaded seat.old.me.0.sizes pass.0 place.now first seat.old.me.0.seen out.new seat.new.me.0.seen }
{
    let start = LINE_WORDS * (passes as usize + 1) + (place.start + first);
    for i in 0..out.len() / 8 {
        let word = step_word(
            shared,
            seat,
            start + i,
            Hand::Pass(pass),
            place,
            first + i,
            WordStep::Load,
        );
        put_word(word, &mut out[8 * i..8 * i + 8]);
    }
}
