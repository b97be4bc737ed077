// The generations from the current one back, and the passes.
ghost use Rattle.std.specs.Prelude.{◌≡◌, ◌+◌, ◌-◌, ◌^◌, ◌<◌, ◌≤◌, ◌↔◌, true, false, length, map, option_map, is_some, None, Some, IsNone, IfSome, IfOk};
ghost use Rattle.std.specs.List.{list_all};
ghost use Rattle.std.specs.Arc.{arc_value};
ghost use Rattle.mem_base.specs.declared.machine.events.Event.TheVariants.{Look, Announce, Enter, Leave, Sweep, Place, Publish};
ghost use Rattle.mem_base.specs.declared.machine.events.Carried.TheVariants.{Nothing, Edition};
ghost use Rattle.mem_base.specs.map.Limits.{most_passes};
ghost use Rattle.mem_base.specs.machine.Passes.{is_pass, pass_of, passes_after};
ghost use Rattle.mem_base.specs.machine.Generations.{generation, generations_after, known_of, least_lowest, may, number_told, published};
ghost use Rattle.mem_base.specs.machine.Generations.{all_placed, entered_generation, generation_of};
ghost use Rattle.mem_base.specs.machine.Publishing.{held_up};
ghost use Rattle.kept_generations.specs.KeptState.{AreKept, after_publish, first_kept, generations_of, kept_at, kept_entered};
ghost use Rattle.kept_generations.specs.KeptState.{with_states, with_swept, with_tracks};
ghost use Rattle.kept_generations.specs.Sweeping.{SweepsFold, SweepsRun, after_sweep, all_swept};

use crate::numbers::Numbers;
use crate::passes::{
    held_among, held_if_swept, idle_passes, lowest_of, set_each, sweep_each, unknown_passes,
    unplace,
};
use crate::tracks::Track;
use generation::Generation;
use mem_base::{Event, MOST_GENERATIONS, PassId, Refusal};
use std::alloc::{AllocError, Global};
use std::marker::Model;
use std::sync::Arc;

/// The generations that are kept, at most eight, the current one first, and what is known of each of 1 to 16 passes.
#[derive(Debug, Drop)]
pub struct Kept {
    // there is room for all of them
    kept: Vec<Arc<Generation, Global>>,
    tracks: Vec<Track>,
    states: Vec<Numbers>,
    swept: Vec<bool>,
    current: u64,
}

impl Model for Kept {
    ghost use Rattle.std.specs.Prelude.{◌≤◌, map, vec_capacity};
    ghost use Rattle.std.specs.Arc.{arc_value};
    ghost use Rattle.mem_base.specs.map.Limits.{most_generations};
    ghost use Rattle.kept_generations.specs.KeptState.{AreKept, KeptState, kept_state};

    ghost Value = { KeptState };

    ghost view = { λ k. kept_state (map arc_value k.kept.items) k.tracks.items k.states.items k.swept.items k.current };

    ghost invariant = { λ k. AreKept (kept_state (map arc_value k.kept.items) k.tracks.items k.states.items k.swept.items k.current)
        × (most_generations ≤ vec_capacity k.kept) };
}

impl Kept {
    /// The first generation, and passes that have done nothing: 1 to 16 of them. It fails only where memory runs out.
    pub fn new(
        alloc: Global,
        passes: u32,
        first: Arc<Generation, Global>,
    ) -> Result<Kept, AllocError>
        requires some { 0 < passes }
        requires few { passes ≤ most_passes }
        requires first { (arc_value first).number ≡ 0 }
        ensures { IfOk result (λ kept. kept ≡ first_kept passes (arc_value first)) }
    {
        let mut kept = Vec::with_capacity(alloc, MOST_GENERATIONS as usize)?;
        let _ = kept.push(first);
        Ok(Kept {
            kept,
            tracks: unknown_passes(alloc, passes)?,
            states: idle_passes(alloc, passes)?,
            swept: vec![in alloc; false; passes as usize]?,
            current: 0,
        })
    }

    /// The number of the current generation.
    pub fn current(&self) -> u64
        ensures value { result ≡ self.now.current }
        ensures kept { AreKept self.now }
    {
        self.current
    }

    /// A law: the generations stand by number, and each pass has its state and its flag. It does nothing.
    pub fn knows_passes(&self)
        ensures { AreKept self.now }
    {
        let _ = &self.states;
    }

    /// How many passes there are.
    pub fn passes(&self) -> u32
        ensures value { result ≡ length self.now.states }
        ensures kept { AreKept self.now }
    {
        self.states.len() as u32
    }

    /// Whether the pass is one of these.
    pub fn is_pass(&self, pass: PassId) -> bool
        ensures { result ≡ is_pass self.now.states pass }
    {
        (pass.number() as usize) < self.states.len()
    }

    /// The number that the pass announced; `None` of a pass that is not one of these, too.
    pub fn announced(&self, pass: PassId) -> Option<u64>
        ensures { result ≡ (pass_of self.now.states pass).announced }
    {
        self.states.get(pass.number() as usize)?.announced()
    }

    /// The number of the generation in which the pass is entered; `None` of a pass that is not one of these, too.
    pub fn entered(&self, pass: PassId) -> Option<u64>
        ensures { result ≡ (pass_of self.now.states pass).entered }
    {
        self.states.get(pass.number() as usize)?.entered()
    }

    // Whether the pass looked at a number.
    fn has_looked(&self, pass: PassId) -> bool
        ensures { result ≡ is_some (pass_of self.now.states pass).looked }
    {
        match self.states.get(pass.number() as usize) {
            Some(numbers) => numbers.has_looked(),
            None => false,
        }
    }

    // Whether the pass has its copy of the next generation.
    fn is_placed(&self, pass: PassId) -> bool
        ensures { result ≡ (known_of (generations_of self.now) pass).placed }
    {
        match self.tracks.get(pass.number() as usize) {
            Some(track) => track.is_placed(),
            None => false,
        }
    }

    // Whether all passes have their copy of the next generation.
    fn is_all_placed(&self) -> bool
        ensures { result ≡ all_placed self.now.tracks }
    {
        self.tracks.iter().all(|track| track.is_placed())
    }

    /// Whether an event on numbers may happen; false of each other event.
    pub fn may(&self, event: &Event) -> bool
        ensures { result ≡ may (generations_of self.now) self.now.states event.now }
    {
        match *event {
            Event::Look(pass) => self.is_pass(pass) && self.announced(pass).is_none(),
            Event::Announce(pass) => {
                self.is_pass(pass) && self.has_looked(pass) && self.announced(pass).is_none()
            }
            Event::Enter(pass) => {
                self.is_pass(pass) && self.announced(pass).is_some() && self.entered(pass).is_none()
            }
            Event::Leave(pass) => self.is_pass(pass) && self.entered(pass).is_some(),
            Event::Sweep(pass) => self.is_pass(pass),
            Event::Place(pass) => self.is_pass(pass) && !self.is_placed(pass),
            Event::Publish => self.is_all_placed(),
            _ => false,
        }
    }

    /// The pass looks at the current number, which is answered.
    pub fn look(&mut self, pass: PassId) -> u64
        requires may { may (generations_of self.old) self.old.states (Look pass) ≡ true }
        ensures number { result ≡ number_told (generations_of self.old) self.old.states (Look pass) }
        ensures state { self.new ≡ with_states self.old (passes_after self.old.states (Look pass) result) }
    {
        self.states[pass.number() as usize].look(self.current);
        self.current
    }

    /// The pass announces the number that it looked at.
    pub fn announce(&mut self, pass: PassId)
        requires may { may (generations_of self.old) self.old.states (Announce pass) ≡ true }
        ensures state { self.new ≡ with_states self.old (passes_after self.old.states (Announce pass) 0) }
    {
        self.states[pass.number() as usize].announce();
    }

    /// The pass enters the current generation, whose number is answered.
    pub fn enter(&mut self, pass: PassId) -> u64
        requires may { may (generations_of self.old) self.old.states (Enter pass) ≡ true }
        ensures number { result ≡ number_told (generations_of self.old) self.old.states (Enter pass) }
        ensures state { self.new ≡ with_states self.old (passes_after self.old.states (Enter pass) result) }
    {
        self.states[pass.number() as usize].enter(self.current);
        self.current
    }

    /// The pass leaves its generation, and is idle.
    pub fn leave(&mut self, pass: PassId)
        requires may { may (generations_of self.old) self.old.states (Leave pass) ≡ true }
        ensures state { self.new ≡ with_states self.old (passes_after self.old.states (Leave pass) 0) }
    {
        self.states[pass.number() as usize] = Numbers::idle();
    }

    /// Looks at what the pass announced: the number plus one, or 0, which is answered.
    pub fn sweep(&mut self, pass: PassId) -> u64
        requires may { may (generations_of self.old) self.old.states (Sweep pass) ≡ true }
        ensures number { result ≡ number_told (generations_of self.old) self.old.states (Sweep pass) }
        ensures generations { generations_of self.new ≡ generations_after (generations_of self.old) (Sweep pass) Nothing result }
        ensures state { self.new ≡ after_sweep self.old pass }
    {
        let at = pass.number() as usize;
        let word = self.states[at].pin_word();
        self.tracks[at].sweep(self.current, word);
        self.swept[at] = true;
        word
    }

    /// The pass has its copy of the next generation.
    pub fn place(&mut self, pass: PassId)
        requires may { may (generations_of self.old) self.old.states (Place pass) ≡ true }
        ensures generations { generations_of self.new ≡ generations_after (generations_of self.old) (Place pass) Nothing 0 }
        ensures state { self.new ≡ with_tracks self.old (generations_of self.new).passes }
    {
        self.tracks[pass.number() as usize].set_placed(true);
    }

    /// The next generation is current; of eight that were kept, the oldest is kept no more.
    pub fn publish(&mut self, next: Arc<Generation, Global>)
        requires number { (arc_value next).number ≡ self.old.current + 1 }
        requires fits { (arc_value next).number + 1 < 2 ^ 64 }
        ensures generations { generations_of self.new
            ≡ published (generations_of self.old) (Edition (arc_value next).forest (arc_value next).places) }
        ensures state { self.new ≡ after_publish self.old (arc_value next) }
    {
        self.kept.truncate(MOST_GENERATIONS as usize - 1);
        let _ = self.kept.insert(0, next);
        unplace(self.tracks.as_mut_slice());
        self.current += 1;
    }

    /// No pass is swept, as after a private event.
    pub fn unsweep(&mut self)
        ensures { self.new ≡ with_swept self.old (map (λ swept. false) self.old.swept) }
    {
        set_each(self.swept.as_mut_slice(), false);
    }

    /// Whether every pass was swept.
    pub fn is_all_swept(&self) -> bool
        ensures { result ≡ list_all (λ swept. swept) self.now.swept }
    {
        self.swept.iter().all(|swept| *swept)
    }

    /// What holds a publish up: the least pass that was found at a number so old that the next generation would take its
    /// slot, with that number.
    pub fn held_up(&self) -> Option<Refusal>
        ensures { result ≡ held_up (generations_of self.now) }
    {
        held_among(self.current, self.tracks.as_slice())
    }

    /// What would hold a publish up after a sweep of every pass.
    pub fn held_up_if_swept(&self) -> Option<Refusal>
        ensures { result ≡ held_up (generations_of (all_swept self.now)) }
    {
        held_if_swept(self.current, self.states.as_slice())
    }

    /// Sweeps every pass, ascending.
    pub fn sweep_all(&mut self)
        ensures { self.new ≡ all_swept self.old }
    {
        sweep_each(
            self.current,
            self.tracks.as_mut_slice(),
            self.states.as_slice(),
        );
        set_each(self.swept.as_mut_slice(), true);
    }

    /// The lowest number that some pass may still use; the current one where that is lower.
    pub fn lowest(&self) -> u64
        ensures { result ≡ least_lowest self.now.current self.now.tracks }
    {
        lowest_of(self.current, self.tracks.as_slice())
    }

    /// The generation of a number as it is shared: `None` exactly where it is not kept.
    pub fn shared(&self, number: u64) -> Option<&Arc<Generation, Global>>
        ensures kept { option_map (λ g. arc_value g.now) result ≡ kept_at self.now number }
        ensures none { IsNone result ↔ generation_of (generations_of self.now) number ≡ None }
        ensures some { IfSome result (λ g. generation_of (generations_of self.now) number
            ≡ Some (generation (arc_value g.now).forest (arc_value g.now).places)) }
        ensures number { IfSome result (λ g. (arc_value g.now).number ≡ number) }
    {
        if number > self.current {
            return None;
        }
        self.kept.get((self.current - number) as usize)
    }

    /// The generation of a number: `None` exactly where it is not kept.
    pub fn generation_of(&self, number: u64) -> Option<&Generation>
        ensures kept { option_map (λ g. g.now) result ≡ kept_at self.now number }
        ensures none { IsNone result ↔ generation_of (generations_of self.now) number ≡ None }
        ensures some { IfSome result (λ g. generation_of (generations_of self.now) number ≡ Some (generation g.now.forest g.now.places)) }
        ensures number { IfSome result (λ g. g.now.number ≡ number) }
    {
        match self.shared(number) {
            Some(generation) => Some(generation),
            None => None,
        }
    }

    /// The current generation.
    pub fn current_generation(&self) -> &Generation
        ensures kept { kept_at self.now self.now.current ≡ Some result.now }
        ensures value { generation_of (generations_of self.now) self.now.current ≡ Some (generation result.now.forest result.now.places) }
        ensures number { result.now.number ≡ self.now.current }
    {
        &self.kept[0]
    }

    /// The generation in which a pass is entered: `None` exactly where it is entered in none that is kept.
    pub fn entered_generation(&self, pass: PassId) -> Option<&Generation>
        ensures kept { option_map (λ g. g.now) result ≡ kept_entered self.now pass }
        ensures none { IsNone result ↔ entered_generation (generations_of self.now) self.now.states pass ≡ None }
        ensures some { IfSome result (λ g. entered_generation (generations_of self.now) self.now.states pass
            ≡ Some (generation g.now.forest g.now.places)) }
    {
        self.generation_of(self.entered(pass)?)
    }
}

/// A sweep of every pass leaves what sweeps of the passes leave one after another, ascending.
pub fn sweeps_are_one()
    ensures { SweepsFold }
{}

/// The machine's own sweeps of every pass, run one after another, leave the same.
pub fn sweeps_are_run()
    ensures { SweepsRun }
{}
