// Which events are possible.
ghost use Rattle.std.specs.Prelude.{◌≡◌, ◌&&◌, Some};
ghost use Rattle.mem_base.specs.declared.machine.events.Event.TheVariants as events;
ghost use Rattle.mem_base.specs.access.Places.{is_data_or_register, mark_words};
ghost use Rattle.mem_base.specs.machine.Generations.{generation};
ghost use Rattle.mem_base.specs.machine.Guards.{is_notifier, may_mark, may_reach};
ghost use Rattle.mem_base.specs.machine.World.{is_at_rest, possible};

use crate::world::World;
use generation::Generation;
use mem_base::{
    Cell, Client, Config, Event, Hand, NOTIFIER_COUNT, PAGE_SIZE, PassId, Place, RegionId,
    WORD_SIZE, WordStep,
};
use writer_run::mark_words;

// Whether a word is one of the data or registers of a place.
fn is_data_or_register(place: &Place, word: usize) -> bool
    ensures { result ≡ is_data_or_register place.now word }
{
    (word as u64) < place.bytes / WORD_SIZE + u64::from(place.regs)
}

// Whether a cell is a notifier.
fn is_notifier(cell: &Cell) -> bool
    ensures { result ≡ is_notifier cell.now }
{
    cell.region.0 == RegionId::NOTIFIERS.0 && cell.word < NOTIFIER_COUNT
}

// Whether a pass that is entered in a generation may step on a cell of a place.
fn may_reach(shown: &Generation, place: &Place, cell: &Cell) -> bool
    ensures { result ≡ may_reach (Some (generation shown.now.forest shown.now.places)) place.now cell.now }
{
    let named = shown.names(cell.region);
    let inside = is_data_or_register(place, cell.word);
    let notifier = is_notifier(cell);
    named && inside || notifier
}

// Whether it may mark a page of the region of a place.
fn may_mark(shown: &Generation, place: &Place, region: RegionId, page: u64) -> bool
    ensures { result ≡ may_mark (Some (generation shown.now.forest shown.now.places)) place.now region page }
{
    let named = shown.names(region);
    named && page < place.bytes / PAGE_SIZE
}

impl World {
    /// Whether an event may happen where the machine stands, by this project's own rules. It takes no memory.
    ///
    /// A `Config` that would publish wants each pass swept, so it matters whether the forest accepts its call. Where a region is to be
    /// placed in a container, that takes a walk over all paths of the forest; the calls that change the map make no such walk.
    pub fn possible(&self, event: &Event) -> bool
        ensures { result ≡ possible self.now event.now }
    {
        match *event {
            Event::Place(_) | Event::Publish => {
                let due = self.is_due();
                due && self.hand.kept.may(event)
            }
            Event::Word { hand, cell, step } => self.may_step(hand, &cell, step),
            Event::Mark {
                pass,
                region,
                client,
                page,
            } => self.may_mark(pass, region, client, page),
            Event::Harvest {
                region,
                client,
                index,
            } => self.may_take(region, client, index),
            Event::Fill { cell } => self.unfilled.has(&cell),
            Event::Config(config) => self.may_change(&config),
            Event::Reap => {
                let rests = self.is_at_rest();
                rests && self.hand.kept.is_all_swept()
            }
            _ => self.hand.kept.may(event),
        }
    }

    // Whether a publish is due.
    fn is_due(&self) -> bool
        ensures { result ≡ self.now.writer.desk.due }
    {
        self.due.is_some()
    }

    // Whether nothing is due or unfilled.
    fn is_at_rest(&self) -> bool
        ensures { result ≡ is_at_rest self.now.writer.desk }
    {
        let due = self.is_due();
        !due && self.unfilled.is_empty()
    }

    // Whether a step on a word may be made.
    fn may_step(&self, hand: Hand, cell: &Cell, step: WordStep) -> bool
        ensures { result ≡ possible self.now (events.Word hand cell.now step) }
    {
        let Some(place) = self.place_of(cell.region) else {
            return false;
        };
        match hand {
            Hand::Pass(pass) => match self.hand.kept.entered_generation(pass) {
                Some(generation) => may_reach(generation, &place, cell),
                None => false,
            },
            Hand::Writer => cell.word < place.words,
        }
    }

    // Whether a page may be marked as written.
    fn may_mark(&self, pass: PassId, region: RegionId, client: Client, page: u64) -> bool
        ensures { result ≡ possible self.now (events.Mark pass region client page) }
    {
        let Some(place) = self.place_of(region) else {
            return false;
        };
        match self.hand.kept.entered_generation(pass) {
            Some(generation) => may_mark(generation, &place, region, page),
            None => false,
        }
    }

    // Whether a mark word may be taken.
    fn may_take(&self, region: RegionId, client: Client, index: usize) -> bool
        ensures { result ≡ possible self.now (events.Harvest region client index) }
    {
        match self.place_of(region) {
            Some(place) => index < mark_words(&place),
            None => false,
        }
    }

    // Whether a private event of the writer may happen.
    fn may_change(&self, config: &Config) -> bool
        ensures { result ≡ possible self.now (events.Config config.now) }
    {
        if !self.is_at_rest() {
            return false;
        }
        if self.hand.kept.is_all_swept() {
            return true;
        }
        let publishes = self.desk.listened.would_publish(config);
        !publishes
    }
}
