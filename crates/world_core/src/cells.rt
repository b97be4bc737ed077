// Events on the cells of regions, one by one, and the places that they are in.
ghost use Rattle.std.specs.Prelude.{◌≡◌, ◌+◌, ◌<◌, true, length, Some, IfSome};
ghost use Rattle.mem_base.specs.declared.machine.events.Event.TheVariants as events;
ghost use Rattle.mem_base.specs.access.Cells.{cell};
ghost use Rattle.mem_base.specs.access.Places.{pages_in, word_of_page};
ghost use Rattle.mem_base.specs.access.PlacesByRegion.{notifiers, place_in};
ghost use Rattle.mem_base.specs.machine.Desk.{places_of};
ghost use Rattle.mem_base.specs.machine.World.{place_in_world, possible, reply, number_in, world_after};
ghost use Rattle.world_core.specs.Cleared.{word_cleared};

use crate::world::World;
use dirty_log::mark_of;
use mem_base::{Cell, Client, Hand, NOTIFIER_COUNT, PassId, Place, RegionId, WordStep};
use place_words::Words;
use writer_run::first_page;

// Clears a word of a place, where there is such a place and it has the word.
fn clear_word(words: &mut Words, place: Option<Place>, word: usize)
    requires { IfSome place (λ p. word < p.words → p.start + word < length words.old) }
    ensures words { words.new ≡ word_cleared words.old place word }
    ensures len { length words.new ≡ length words.old }
{
    words.knows_length();
    if let Some(place) = place {
        if word < place.words {
            words.step(place.start + word, WordStep::Take);
        }
    }
}

impl World {
    // The place of the notifiers, after the pool.
    fn notifiers(&self) -> Place
        ensures place { place_in_world self.now result.region ≡ Some result }
        ensures region { result.region ≡ notifiers }
    {
        let start = self.hand.words.len() - NOTIFIER_COUNT;
        Place::notifiers(start)
    }

    /// The place of a region, or of the notifiers: `None` exactly where it has none.
    pub(crate) fn place_of(&self, region: RegionId) -> Option<Place>
        ensures { result ≡ place_in_world self.now region }
    {
        if region == RegionId::NOTIFIERS {
            return Some(self.notifiers());
        }
        self.desk.listened.backed().place_of(region)
    }

    /// One step on a word of a place; the word before it is answered.
    pub(crate) fn step_word(
        &mut self,
        hand: Hand,
        place: &Place,
        word: usize,
        step: WordStep,
    ) -> u64
        requires may { possible self.old (events.Word hand (cell place.now.region word) step) ≡ true }
        requires placed { place_in (places_of self.old.writer.desk) place.now.region ≡ Some place.now }
        requires within { word < place.now.words }
        ensures old { result ≡ number_in (reply self.old (events.Word hand (cell place.now.region word) step)) }
        ensures world { self.new ≡ world_after self.old (events.Word hand (cell place.now.region word) step) }
    {
        self.hand.words.knows_length();
        self.hand.words.step(place.start + word, step)
    }

    /// Marks a page of a place as written, for one client.
    pub(crate) fn mark_page(&mut self, pass: PassId, place: &Place, client: Client, page: u64)
        requires may { possible self.old (events.Mark pass place.now.region client page) ≡ true }
        requires placed { place_in (places_of self.old.writer.desk) place.now.region ≡ Some place.now }
        requires page { page < pages_in place.now }
        requires within { word_of_page place.now client page < place.now.words }
        ensures { self.new ≡ world_after self.old (events.Mark pass place.now.region client page) }
    {
        self.hand.words.knows_length();
        let (word, bits) = mark_of(place, client, page);
        self.hand
            .words
            .step(place.start + word, WordStep::Or { bits });
    }

    /// One step on a cell; what stood there before it is answered.
    pub(crate) fn step_cell(&mut self, hand: Hand, cell: &Cell, step: WordStep) -> u64
        requires { possible self.old (events.Word hand cell.now step) ≡ true }
        ensures old { result ≡ number_in (reply self.old (events.Word hand cell.now step)) }
        ensures world { self.new ≡ world_after self.old (events.Word hand cell.now step) }
    {
        // It tells that a legal history leads here.
        self.is_reached();
        match self.place_of(cell.region) {
            Some(place) => self.step_word(hand, &place, cell.word, step),
            None => unreachable!(),
        }
    }

    /// Marks a page of a region as written, for one client.
    pub(crate) fn mark(&mut self, pass: PassId, region: RegionId, client: Client, page: u64)
        requires { possible self.old (events.Mark pass region client page) ≡ true }
        ensures { self.new ≡ world_after self.old (events.Mark pass region client page) }
    {
        // It tells that a legal history leads here.
        self.is_reached();
        match self.place_of(region) {
            Some(place) => self.mark_page(pass, &place, client, page),
            None => unreachable!(),
        }
    }

    /// Takes one mark word that a client has of a region; its bits are answered.
    pub(crate) fn take(&mut self, region: RegionId, client: Client, index: usize) -> u64
        requires { possible self.old (events.Harvest region client index) ≡ true }
        ensures old { result ≡ number_in (reply self.old (events.Harvest region client index)) }
        ensures world { self.new ≡ world_after self.old (events.Harvest region client index) }
    {
        self.hand.words.knows_length();
        let Some(place) = self.place_of(region) else {
            unreachable!()
        };
        let (word, _) = mark_of(&place, client, first_page(&place, index));
        self.hand.words.step(place.start + word, WordStep::Take)
    }

    /// Clears a cell of a new region.
    pub(crate) fn fill(&mut self, cell: &Cell)
        requires { possible self.old (events.Fill cell.now) ≡ true }
        ensures { self.new ≡ world_after self.old (events.Fill cell.now) }
    {
        let place = self.place_of(cell.region);
        clear_word(&mut self.hand.words, place, cell.word);
        self.unfilled.fill(cell);
    }
}
