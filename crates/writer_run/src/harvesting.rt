// The pages that were written, as the writer takes them.
ghost use Rattle.std.specs.Prelude.{◌≡◌, ◌≢◌, ◌+◌, ◌*◌, ◌^◌, ◌<◌, ◌≤◌, [], Err, vec_len, vec_capacity};
ghost use Rattle.mem_base.specs.declared.map.refusals.Refusal.{Refusal};
ghost use Rattle.mem_base.specs.map.Limits.{pages_per_word};
ghost use Rattle.mem_base.specs.access.Places.{extent, mark_words, pages_in, past, words_of};
ghost use Rattle.mem_base.specs.machine.Answers.{answer_with, harvest_answer};
ghost use Rattle.mem_base.specs.machine.Orders.{harvest, harvest_refusal};
ghost use Rattle.writer_hand.specs.Hands.{AreHarvested};
ghost use Rattle.writer_run.specs.Parts.{AreParts, part_of};
ghost use Rattle.writer_run.specs.Turns.{IsTurn};

use dirty_log::pages_of;
use mem_base::{Client, PAGE_SIZE, PAGES_PER_WORD, Place, Refusal, RegionId, What};
use region_tree::Tree;
use std::alloc::Global;
use writer_desk::IdleDesk;
use writer_hand::WriterHand;

// Why the marks of a region are not harvested, where they are not.
fn harvest_refusal(tree: &Tree, region: RegionId) -> Option<Refusal>
    ensures { result ≡ harvest_refusal tree.now region }
{
    let Some(node) = tree.node(region) else {
        return Some(Refusal::Unknown(What::Region(region)));
    };
    if !node.kind.has_bytes() {
        return Some(Refusal::WrongKind(region));
    }
    None
}

/// How many mark words each client has of a place.
pub fn mark_words(place: &Place) -> usize
    ensures value { result ≡ mark_words place.now.bytes }
    ensures fits { result * pages_per_word < 2 ^ 64 }
{
    ((place.bytes / PAGE_SIZE + (PAGES_PER_WORD - 1)) / PAGES_PER_WORD) as usize
}

// A law: 64 bits hold the number of pages that the mark words of a place are for. It does nothing.
fn knows_mark_words(place: &Place)
    ensures { mark_words place.now.bytes * pages_per_word < 2 ^ 64 }
{
    let _ = mark_words(place);
}

/// The first page of a mark word of a place.
pub fn first_page(place: &Place, index: usize) -> u64
    requires { index < mark_words place.now.bytes }
    ensures value { result ≡ index * pages_per_word }
    ensures page { result < pages_in place.now }
{
    knows_mark_words(place);
    index as u64 * PAGES_PER_WORD
}

/// Takes the marks of a region for one client: the turn of that. The pages that were written since they were last taken are
/// answered, ascending. Each mark word is taken by one step, in ascending order. QEMU's core,
/// `cpu_physical_memory_snapshot_and_clear_dirty`.
///
/// It is refused as the machine's definitions say, or with `Memory`, and then nothing has happened.
pub fn harvest<H: WriterHand>(
    alloc: Global,
    desk: &IdleDesk,
    hand: &mut H,
    region: RegionId,
    client: Client,
) -> Result<Vec<u64>, Refusal>
    requires parts { AreParts desk.now (H.Writing.generations hand.old) (H.Writing.words hand.old) }
    ensures turn { result ≢ Err Refusal.Memory → IsTurn (part_of desk.now (H.Writing.generations hand.old)) (harvest region client)
        (λ xs. H.Writing.makes hand.old xs hand.new) (harvest_answer (answer_with (λ v. v.items) result))
        (part_of desk.now (H.Writing.generations hand.new)) }
    ensures parts { AreParts desk.now (H.Writing.generations hand.new) (H.Writing.words hand.new) }
    ensures unchanged { result ≡ Err Refusal.Memory → hand.new ≡ hand.old }
{
    let backed = desk.listened.backed();
    if let Some(why) = harvest_refusal(backed.desk().tree(), region) {
        return Err(why);
    }
    // So the region has its place.
    backed.knows_places();
    let Some(place) = backed.place_of(region) else {
        return Ok(Vec::new(alloc));
    };
    let mut pages = Vec::with_capacity(alloc, mark_words(&place) * PAGES_PER_WORD as usize)?;
    take_pages(hand, &place, client, &mut pages);
    Ok(pages)
}

// Takes all mark words that a client has of a place, and lists their pages. There is room for all of these.
fn take_pages<H: WriterHand>(hand: &mut H, place: &Place, client: Client, pages: &mut Vec<u64>)
    requires within { past place.now ≤ H.Writing.words hand.old }
    requires words { place.now.words ≡ words_of (extent place.now.bytes place.now.regs) }
    requires none { pages.old.items ≡ [] }
    requires room { vec_len pages.old + mark_words place.now.bytes * pages_per_word ≤ vec_capacity pages.old }
    ensures { AreHarvested place.now client (mark_words place.now.bytes) (λ xs. H.Writing.makes hand.old xs hand.new) pages.new.items }
{
    for index in 0..mark_words(place) {
        let bits = hand.take_marks(place, client, index);
        pages_of(pages, first_page(place, index), bits);
    }
}
