// Many drawn composites, with listeners that know nothing but their calls.
use crate::world::composites::{Composite, Outcome};
use crate::world::draws::Draws;
use crate::world::machines::Machine;
use crate::world::plain::plain_lives;
use crate::world::replays::{Replay, take_all};
use crate::world::tallies::Tallies;
use generation::Generation;
use mem_base::ListenerId;
use std::alloc::{AllocError, Global};

/// How many composites are drawn.
const STEPS: u32 = 10_000;

/// The words of the pool, which the drawn regions fill now and then.
const WORDS: usize = 24_576;

/// What draws composites for a machine, and what its listeners have by their calls.
#[derive(Drop)]
struct Churn {
    alloc: Global,
    draws: Draws,
    replays: Vec<Replay>,
    // how many calls the listeners have taken
    heard: usize,
    tallies: Tallies,
    // how many ranges and ioeventfds listeners had, after each composite, all together
    ranges: u64,
    lives: u64,
}

/// Whether a listener has what a generation shows in its space: nothing where the space is not published yet.
fn agrees(churn: &Churn, generation: &Generation, replay: &Replay) -> Result<bool, AllocError> {
    let Some(atlas) = generation.atlas(replay.space) else {
        return Ok(replay.has(&[], &[]));
    };
    let ranges = atlas.view().as_slice();
    let lives = plain_lives(churn.alloc, generation.forest(), ranges)?;
    Ok(replay.has(ranges, lives.as_slice()))
}

impl Churn {
    fn new(alloc: Global) -> Churn {
        Churn {
            alloc,
            draws: Draws::new(alloc, 7),
            replays: Vec::new(alloc),
            heard: 0,
            tallies: Tallies::new(),
            ranges: 0,
            lives: 0,
        }
    }

    /// Asks for one composite, gives each listener its calls, and says whether these fit.
    fn step(
        &mut self,
        machine: &mut Machine,
        composite: &Composite,
    ) -> Result<(Outcome, bool), AllocError> {
        let outcome = composite.ask(machine)?;
        if let (Composite::Listen(listener, space, _), Outcome::Done) = (*composite, outcome) {
            self.replays.push(Replay::new(self.alloc, listener, space))?;
        }
        let fits = self.hear(machine)?;
        if let (Composite::Unlisten(listener), Outcome::Done) = (*composite, outcome) {
            return Ok((outcome, self.leave(listener) && fits));
        }
        Ok((outcome, fits))
    }

    /// Gives each listener the calls that it has not taken; whether they fit.
    fn hear(&mut self, machine: &Machine) -> Result<bool, AllocError> {
        let journal = machine.journal();
        let Some(later) = journal.get(self.heard..) else {
            return Ok(false);
        };
        self.heard = journal.len();
        take_all(self.replays.as_mut_slice(), later)
    }

    /// Forgets a listener that has left; whether it has nothing then.
    fn leave(&mut self, listener: ListenerId) -> bool {
        let empty = match self
            .replays
            .iter()
            .find(|replay| replay.listener == listener)
        {
            Some(replay) => replay.has(&[], &[]),
            None => false,
        };
        self.replays.retain(|replay| replay.listener != listener);
        empty
    }

    /// Whether each listener has what the current generation shows in its space.
    fn all_agree(&self, machine: &Machine) -> Result<bool, AllocError> {
        let generation = machine.current();
        for replay in self.replays.iter() {
            if !agrees(self, generation, replay)? {
                return Ok(false);
            }
        }
        Ok(true)
    }

    /// Counts the ranges and the ioeventfds that the listeners have.
    fn count(&mut self) {
        for replay in self.replays.iter() {
            let (ranges, lives) = replay.sizes();
            self.ranges = self.ranges.saturating_add(ranges as u64);
            self.lives = self.lives.saturating_add(lives as u64);
        }
    }

    /// Asks for the next composite; whether each listener has what its space shows after that.
    fn goes_on(&mut self, machine: &mut Machine) -> Result<bool, AllocError> {
        let composite = self.draws.next(machine.current().forest());
        let (outcome, fits) = self.step(machine, &composite)?;
        self.draws.learn(&composite, outcome)?;
        self.tallies.count(&composite, outcome);
        self.count();
        Ok(self.all_agree(machine)? && fits)
    }

    /// The number of the first composite after which some listener has something else, and whether each kind was accepted and refused,
    /// and the listeners had much.
    fn first_astray(&mut self, machine: &mut Machine) -> Result<(Option<u32>, bool), AllocError> {
        for step in 0..STEPS {
            if !self.goes_on(machine)? {
                return Ok((Some(step), false));
            }
        }
        let has_much = self.ranges > 50_000 && self.lives > 50_000;
        Ok((None, has_much && self.tallies.first_idle().is_none()))
    }
}

/// The same of drawn composites in a machine.
fn first_astray_in(
    alloc: Global,
    machine: &mut Machine,
) -> Result<(Option<u32>, bool), AllocError> {
    let mut churn = Churn::new(alloc);
    let found = churn.first_astray(machine);
    found
}

/// The same in a machine of its own.
fn first_astray(alloc: Global) -> Result<(Option<u32>, bool), AllocError> {
    let mut machine = Machine::new(alloc, WORDS)?;
    let found = first_astray_in(alloc, &mut machine);
    found
}

#[test]
fn each_listener_has_by_its_calls_what_its_space_shows(rt: HostRuntime) {
    let found = first_astray(rt.alloc());
    assert!(rt; found == Ok((None, true)), "{found:?}");
}
