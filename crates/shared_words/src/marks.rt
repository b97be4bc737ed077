// Marks of the pages that were written, for each client a bit a page.
ghost use Rattle.std.specs.Prelude.{◌≡◌, ◌<◌, ◌≤◌, true, [], ◌∷◌, Some};
ghost use Rattle.std.specs.List.{list_any};
ghost use Rattle.mem_base.specs.declared.machine.events.Hand.TheVariants as hands;
ghost use Rattle.mem_base.specs.declared.machine.events.Event.TheVariants as events;
ghost use Rattle.mem_base.specs.declared.machine.events.Carried.TheVariants.{At};
ghost use Rattle.mem_base.specs.access.Places.{extent, mark_word as mark_word_of, mark_words as mark_words_of, pages_in, past, words_of};
ghost use Rattle.mem_base.specs.machine.Passes.{pass_id};
ghost use Rattle.mem_base.specs.machine.SharedHistory.{is_same_place};
ghost use Rattle.mem_base.specs.machine.Turns.{history_entry};
ghost use Rattle.epoch_rule.specs.Rule.{KeepsHome};
ghost use Rattle.epoch_rule.specs.Wrote.{Made, Wrote};

use epoch_rule::{Cabinet, Pass, Touch, WriterSeat};
use mem_base::{Client, Edition, PAGE_SIZE, PAGES_PER_WORD, Place, WORD_SIZE};

/// The mark words that one client has in a place.
fn mark_words(place: &Place) -> u64
    ensures { result ≡ mark_words_of place.now.bytes }
{
    (place.bytes / PAGE_SIZE + (PAGES_PER_WORD - 1)) / PAGES_PER_WORD
}

/// A mark word of a client, as a word of the place.
fn mark_word(place: &Place, client: Client, index: u64) -> usize
    requires { index < mark_words_of place.now.bytes }
    ensures { result ≡ mark_word_of place.now client index }
{
    let first = place.bytes / WORD_SIZE + place.regs as u64;
    let words = mark_words(place);
    let skipped = match client {
        Client::Vga => 0,
        Client::Code => words,
        Client::Migration => words + words,
    };
    (first + skipped + index) as usize
}

/// Marks a page of a place as written, for one client. The pass must be entered, its generation must carry the place,
/// and the page, of 4,096 bytes, must be one of the place's.
pub fn mark<E: Edition + Drop>(
    cabinet: &Cabinet<E>,
    pass: &mut Pass<E>,
    place: &Place,
    client: Client,
    page: u64,
)
    requires own { pass.old.cabinet ≡ cabinet.now.id }
    requires carried { (e : E) × (pass.old.edition ≡ Some e) × (list_any (is_same_place place.now) (E.places e) ≡ true) }
    requires page { page < pages_in place.now }
    ensures made { Made pass.old (history_entry (events.Mark (pass_id pass.old.number) place.now.region client page) (At place.now) 0 ∷ []) pass.new }
    ensures edition { pass.new.edition ≡ pass.old.edition }
{
    let word = mark_word(place, client, page / PAGES_PER_WORD);
    cabinet.touch(pass, place, word, Touch::Mark { client, page });
}

/// Takes a mark word of one client by one swap that leaves 0, and answers the marks that it had: bit b of word `index`
/// is page 64 index + b. The place must end within the cabinet's words and have the words of its bytes and registers,
/// and the index must be one of its mark words of a client.
pub fn harvest<E: Edition + Drop>(
    cabinet: &Cabinet<E>,
    writer: &mut WriterSeat<E>,
    place: &Place,
    client: Client,
    index: usize,
) -> u64
    requires own { writer.old.cabinet ≡ cabinet.now.id }
    requires within { past place.now ≤ writer.old.sizes.words }
    requires words { place.now.words ≡ words_of (extent place.now.bytes place.now.regs) }
    requires index { index < mark_words_of place.now.bytes }
    ensures wrote { Wrote hands.Writer writer.old.sizes writer.old.seen
        (history_entry (events.Harvest place.now.region client index) (At place.now) result ∷ []) writer.new.seen }
    ensures home { KeepsHome writer.old.out writer.old.seen writer.new.seen }
    ensures same { (writer.new.cabinet ≡ writer.old.cabinet) × (writer.new.sizes ≡ writer.old.sizes) × (writer.new.out ≡ writer.old.out) }
{
    let word = mark_word(place, client, index as u64);
    cabinet.touch(writer, place, word, Touch::Harvest { client, index })
}
