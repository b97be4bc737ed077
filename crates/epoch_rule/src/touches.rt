// The touches of the cabinet's words. What a pass does is inlined where it is called: the touch is known there, so that one step
// is left of it, and the touch need not be written to memory and read back.
ghost use Rattle.std.specs.Prelude.{◌≡◌, ◌+◌, ◌^◌, ◌≤◌, ◌<◌};
ghost use Rattle.mem_base.specs.declared.machine.events.Hand.TheVariants.{Pass, Writer};
ghost use Rattle.mem_base.specs.access.Places.{mark_word, word_of_page};
ghost use Rattle.epoch_rule.specs.declared.touches.Touch.TheVariants.{Look, Step, Try, Fill, Mark, Harvest};
ghost use Rattle.epoch_rule.specs.Rule.{KeepsSlot};
ghost use Rattle.epoch_rule.specs.Copies.{Suits};
ghost use Rattle.epoch_rule.specs.Layout.{words_before_pool};
ghost use Rattle.epoch_rule.specs.Touches.{IsReady, IsTouch, IsWholeStep, Told, ToldStep};

use crate::board::{LINE_WORDS, SharedTable, TableSeat};
use crate::plans::{add_as, load_as, look_as, or_as, store_as, take_as, try_as};
use mem_base::{Cell, Client, Edition, Event, Hand, PassId, Place, WordStep};
use std::marker::Brand;

/// One atomic step on a word of a place.
#[derive(Clone, Copy, Debug, PartialEq, Eq)]
pub enum Touch {
    /// A load that shows no event.
    Look,
    Step(WordStep),
    /// A compare-exchange from `old` to `old` with the named bytes replaced. It shows that event where it stands.
    Try {
        old: u64,
        first: u32,
        bytes: u32,
        value: u64,
    },
    /// The writer clears the word.
    Fill,
    /// A pass sets a page's bit in its mark word.
    Mark {
        client: Client,
        page: u64,
    },
    /// The writer takes a mark word.
    Harvest {
        client: Client,
        index: usize,
    },
}

#[inline(always)]
pub(crate) fn step_word<E: Edition + Drop>(
    shared: &SharedTable<E>,
    seat: &mut TableSeat<E>,
    index: usize,
    hand: Hand,
    place: &Place,
    word: usize,
    step: WordStep,
) -> u64
    requires table { (seat.old.table_id ≡ shared.now.table_id) × Suits shared.now.table_id shared.now.key }
    requires ready { IsReady shared.now.key seat.old.me.0 hand place.now word (Step step) }
    requires index { index ≡ words_before_pool shared.now.key.passes + (place.now.start + word) }
    requires whole { IsWholeStep step }
    ensures table { seat.new.table_id ≡ seat.old.table_id }
    ensures seat { (seat.new.me.1 ≡ seat.old.me.1) × KeepsSlot seat.old.me.0 seat.new.me.0 }
    ensures told { ToldStep hand place.now word step seat.old.me.0 result seat.new.me.0 }
{
    let cell = Cell {
        region: place.region,
        word,
    };
    let event = Event::Word { hand, cell, step };
    match step {
        WordStep::Load => load_as::<E, Brand>(shared, seat, index, event, place),
        WordStep::Replace { value, .. } => {
            store_as::<E, Brand>(shared, seat, index, value, event, place);
            0
        }
        WordStep::AddOne => add_as::<E, Brand>(shared, seat, index, event, place),
        WordStep::Or { bits } => or_as::<E, Brand>(shared, seat, index, bits, event, place),
        WordStep::Take => take_as::<E, Brand>(shared, seat, index, event, place),
    }
}

#[inline(always)]
fn try_word<E: Edition + Drop>(
    shared: &SharedTable<E>,
    seat: &mut TableSeat<E>,
    index: usize,
    hand: Hand,
    place: &Place,
    word: usize,
    old: u64,
    first: u32,
    bytes: u32,
    value: u64,
) -> u64
    requires table { (seat.old.table_id ≡ shared.now.table_id) × Suits shared.now.table_id shared.now.key }
    requires ready { IsReady shared.now.key seat.old.me.0 hand place.now word (Try old first bytes value) }
    requires index { index ≡ words_before_pool shared.now.key.passes + (place.now.start + word) }
    requires part { first + bytes ≤ 8 }
    ensures table { seat.new.table_id ≡ seat.old.table_id }
    ensures seat { (seat.new.me.1 ≡ seat.old.me.1) × KeepsSlot seat.old.me.0 seat.new.me.0 }
    ensures told { Told hand place.now word (Try old first bytes value) seat.old.me.0 result seat.new.me.0 }
{
    let cell = Cell {
        region: place.region,
        word,
    };
    let step = WordStep::Replace {
        first,
        bytes,
        value,
    };
    let event = Event::Word { hand, cell, step };
    let new = step.after(old);
    try_as::<E, Brand>(shared, seat, index, old, new, event, place)
}

#[inline(always)]
fn mark_page<E: Edition + Drop>(
    shared: &SharedTable<E>,
    seat: &mut TableSeat<E>,
    index: usize,
    pass: PassId,
    place: &Place,
    word: usize,
    client: Client,
    page: u64,
) -> u64
    requires table { (seat.old.table_id ≡ shared.now.table_id) × Suits shared.now.table_id shared.now.key }
    requires ready { IsReady shared.now.key seat.old.me.0 (Pass pass) place.now word (Mark client page) }
    requires index { index ≡ words_before_pool shared.now.key.passes + (place.now.start + word) }
    requires word { word ≡ word_of_page place.now client page }
    ensures table { seat.new.table_id ≡ seat.old.table_id }
    ensures seat { (seat.new.me.1 ≡ seat.old.me.1) × KeepsSlot seat.old.me.0 seat.new.me.0 }
    ensures told { Told (Pass pass) place.now word (Mark client page) seat.old.me.0 result seat.new.me.0 }
{
    let event = Event::Mark {
        pass,
        region: place.region,
        client,
        page,
    };
    or_as::<E, Brand>(shared, seat, index, 1 << (page % 64), event, place)
}

fn harvest_word<E: Edition + Drop>(
    shared: &SharedTable<E>,
    seat: &mut TableSeat<E>,
    at: usize,
    place: &Place,
    word: usize,
    client: Client,
    index: usize,
) -> u64
    requires table { (seat.old.table_id ≡ shared.now.table_id) × Suits shared.now.table_id shared.now.key }
    requires ready { IsReady shared.now.key seat.old.me.0 Writer place.now word (Harvest client index) }
    requires index { at ≡ words_before_pool shared.now.key.passes + (place.now.start + word) }
    requires word { word ≡ mark_word place.now client index }
    ensures table { seat.new.table_id ≡ seat.old.table_id }
    ensures seat { (seat.new.me.1 ≡ seat.old.me.1) × KeepsSlot seat.old.me.0 seat.new.me.0 }
    ensures told { Told Writer place.now word (Harvest client index) seat.old.me.0 result seat.new.me.0 }
{
    let event = Event::Harvest {
        region: place.region,
        client,
        index,
    };
    take_as::<E, Brand>(shared, seat, at, event, place)
}

fn fill_word<E: Edition + Drop>(
    shared: &SharedTable<E>,
    seat: &mut TableSeat<E>,
    index: usize,
    place: &Place,
    word: usize,
) -> u64
    requires table { (seat.old.table_id ≡ shared.now.table_id) × Suits shared.now.table_id shared.now.key }
    requires ready { IsReady shared.now.key seat.old.me.0 Writer place.now word Fill }
    requires index { index ≡ words_before_pool shared.now.key.passes + (place.now.start + word) }
    ensures table { seat.new.table_id ≡ seat.old.table_id }
    ensures seat { (seat.new.me.1 ≡ seat.old.me.1) × KeepsSlot seat.old.me.0 seat.new.me.0 }
    ensures told { Told Writer place.now word Fill seat.old.me.0 result seat.new.me.0 }
{
    let cell = Cell {
        region: place.region,
        word,
    };
    let event = Event::Fill { cell };
    store_as::<E, Brand>(shared, seat, index, 0, event, place);
    0
}

/// A load that shows no event.
#[inline(always)]
fn look<E: Edition + Drop>(
    shared: &SharedTable<E>,
    seat: &mut TableSeat<E>,
    index: usize,
    hand: Hand,
    place: &Place,
    word: usize,
) -> u64
    requires table { (seat.old.table_id ≡ shared.now.table_id) × Suits shared.now.table_id shared.now.key }
    requires ready { IsReady shared.now.key seat.old.me.0 hand place.now word Look }
    requires index { index ≡ words_before_pool shared.now.key.passes + (place.now.start + word) }
    ensures table { seat.new.table_id ≡ seat.old.table_id }
    ensures seat { (seat.new.me.1 ≡ seat.old.me.1) × KeepsSlot seat.old.me.0 seat.new.me.0 }
    ensures told { Told hand place.now word Look seat.old.me.0 result seat.new.me.0 }
{
    let cell = Cell {
        region: place.region,
        word,
    };
    let event = Event::Word {
        hand,
        cell,
        step: WordStep::Load,
    };
    look_as::<E, Brand>(shared, seat, index, event, place)
}

/// One touch of a word of the cabinet.
#[inline(always)]
pub(crate) fn touch_word<E: Edition + Drop>(
    shared: &SharedTable<E>,
    seat: &mut TableSeat<E>,
    passes: u32,
    hand: Hand,
    place: &Place,
    word: usize,
    touch: Touch,
) -> u64
    requires table { (seat.old.table_id ≡ shared.now.table_id) × Suits shared.now.table_id shared.now.key × (passes ≡ shared.now.key.passes) }
    requires small { shared.now.key.words < 2 ^ 32 }
    requires kind { IsTouch hand place.now word touch }
    requires ready { IsReady shared.now.key seat.old.me.0 hand place.now word touch }
    requires room { place.now.start + word < shared.now.key.words }
    ensures table { seat.new.table_id ≡ seat.old.table_id }
    ensures seat { (seat.new.me.1 ≡ seat.old.me.1) × KeepsSlot seat.old.me.0 seat.new.me.0 }
    ensures told { Told hand place.now word touch seat.old.me.0 result seat.new.me.0 }
{
    let index = LINE_WORDS * (passes as usize + 1) + (place.start + word);
    match touch {
        Touch::Look => look(shared, seat, index, hand, place, word),
        Touch::Step(step) => step_word(shared, seat, index, hand, place, word, step),
        Touch::Try {
            old,
            first,
            bytes,
            value,
        } => try_word(
            shared, seat, index, hand, place, word, old, first, bytes, value,
        ),
        Touch::Fill => fill_word(shared, seat, index, place, word),
        Touch::Mark { client, page } => match hand {
            Hand::Pass(pass) => mark_page(shared, seat, index, pass, place, word, client, page),
            Hand::Writer => unreachable!(),
        },
        Touch::Harvest { client, index: at } => {
            harvest_word(shared, seat, index, place, word, client, at)
        }
    }
}
