// What the writer does to words: bytes that it loads into a region, and notifiers that it takes.
ghost use Rattle.std.specs.Prelude.{◌≡◌, ℕ, ◌+◌, ◌/◌, ◌<◌, ◌≤◌, ◌^◌, ◌++◌, List, [], ◌∷◌, length, IfNone};
ghost use Rattle.mem_base.specs.declared.access.cells.Place.{Place};
ghost use Rattle.mem_base.specs.access.Places.{past};
ghost use Rattle.mem_base.specs.machine.Orders.{load, load_refusal, loads, notified};
ghost use Rattle.mem_base.specs.machine.Answers.{notifier_answer, plain_answer};
ghost use Rattle.writer_hand.specs.Entries.{entries_with, at};
ghost use Rattle.writer_run.specs.Parts.{AreParts, part_of};
ghost use Rattle.writer_run.specs.Turns.{IsTurn};

use mem_base::{NotifierId, Place, Refusal, RegionId, WORD_SIZE, What};
use region_tree::Tree;
use writer_desk::IdleDesk;
use writer_hand::{Loads, WriterHand};

// The last of some places.
fn last_of(places: &[Place]) -> Place
    requires some { 0 < length places.now }
    ensures { (ps : List Place) (p : Place) → places.now ≡ ps ++ p ∷ [] → result ≡ p }
{
    places[places.len() - 1]
}

/// Takes a notifier: the turn of that. It takes no memory.
pub fn notified<H: WriterHand>(desk: &IdleDesk, hand: &mut H, number: NotifierId) -> u64
    requires parts { AreParts desk.now (H.Writing.generations hand.old) (H.Writing.words hand.old) }
    ensures turn { IsTurn (part_of desk.now (H.Writing.generations hand.old)) (notified number) (λ xs. H.Writing.makes hand.old xs hand.new)
        (notifier_answer result) (part_of desk.now (H.Writing.generations hand.new)) }
    ensures parts { AreParts desk.now (H.Writing.generations hand.new) (H.Writing.words hand.new) }
{
    // The last place is that of the notifiers.
    let place = last_of(desk.listened.backed().places());
    hand.take(&place, number.number() as usize)
}

// Why this count of bytes is not loaded at an offset of a region; `None` where it is.
fn load_refusal(tree: &Tree, region: RegionId, offset: u64, count: usize) -> Option<Refusal>
    ensures value { result ≡ load_refusal tree.now region offset count }
    ensures fits { IfNone result (offset + count ≤ 2 ^ 64) }
{
    let Some(node) = tree.node(region) else {
        return Some(Refusal::Unknown(What::Region(region)));
    };
    if !node.kind.has_bytes() {
        return Some(Refusal::WrongKind(region));
    }
    if u128::from(offset) + count as u128 > node.size.get() {
        return Some(Refusal::BadSize);
    }
    None
}

/// Loads bytes into a region that has bytes, from an offset in it on: the turn of that. It takes no memory.
pub fn load_bytes<H: Loads>(
    desk: &IdleDesk,
    hand: &mut H,
    region: RegionId,
    offset: u64,
    bytes: &[u8],
) -> Result<(), Refusal>
    requires parts { AreParts desk.now (H.Writing.generations hand.old) (H.Writing.words hand.old) }
    ensures turn { IsTurn (part_of desk.now (H.Writing.generations hand.old)) (load region offset bytes.now)
        (λ xs. H.Writing.makes hand.old xs hand.new) (plain_answer result) (part_of desk.now (H.Writing.generations hand.new)) }
    ensures parts { AreParts desk.now (H.Writing.generations hand.new) (H.Writing.words hand.new) }
{
    let backed = desk.listened.backed();
    if let Some(why) = load_refusal(backed.desk().tree(), region, offset, bytes.len()) {
        return Err(why);
    }
    // So the region has its place.
    backed.knows_places();
    let Some(place) = backed.place_of(region) else {
        unreachable!()
    };
    load_words(hand, &place, offset, bytes);
    Ok(())
}

// Loads bytes into the words of a place, one word after another.
fn load_words<H: Loads>(hand: &mut H, place: &Place, offset: u64, bytes: &[u8])
    requires within { past place.now ≤ H.Writing.words hand.old }
    requires inside { (i : ℕ) → i < offset + length bytes.now → i / 8 < place.now.words }
    requires fits { offset + length bytes.now ≤ 2 ^ 64 }
    ensures { (replies : List ℕ)
        × H.Writing.makes hand.old (entries_with (at place.now) (loads place.now.region offset bytes.now) replies) hand.new }
{
    let mut done = 0;
    while done < bytes.len() {
        let at = offset + done as u64;
        let count = (bytes.len() - done).min((WORD_SIZE - at % WORD_SIZE) as usize);
        hand.store(
            place,
            (at / WORD_SIZE) as usize,
            (at % WORD_SIZE) as u32,
            &bytes[done..done + count],
        );
        done += count;
    }
}
