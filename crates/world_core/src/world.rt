// The world: its parts, what it is seen as, and what it shows of itself: the journal of its listeners, and its current generation.
ghost use Rattle.std.specs.Prelude.{◌≡◌, ◌+◌, ◌≤◌, ◌<◌, ◌^◌, [], drop, replicate, Some, IfOk};
ghost use Rattle.std.specs.Arc.{arc_value};
ghost use Rattle.mem_base.specs.map.Calls.{empty};
ghost use Rattle.mem_base.specs.map.Limits.{most_passes, most_words, notifier_count};
ghost use Rattle.mem_base.specs.machine.World.{opening};
ghost use Rattle.mem_base.specs.machine.Passes.{pass_of};
ghost use Rattle.mem_base.specs.machine.Generations.{generation, generation_of};
ghost use Rattle.generation.specs.Published.{published};
ghost use Rattle.kept_generations.specs.KeptState.{first_kept};
ghost use Rattle.writer_desk.specs.Listened.{resting};
ghost use Rattle.writer_desk.specs.Writers.{first_state};
ghost use Rattle.world_core.specs.Hands.{IsInside, shown_to};
ghost use Rattle.world_hand.specs.Reached.{IsReached};
ghost use Rattle.world_hand.specs.Taken.{with_calls};

use generation::Generation;
use kept_generations::Kept;
use mem_base::{ListenerEvent, ListenerId, NOTIFIER_COUNT, PassId};
use place_words::{Unfilled, Words};
use std::alloc::{AllocError, Global};
use std::marker::Model;
use std::sync::Arc;
use world_hand::PureHand;
use writer_desk::{Due, IdleDesk};

/// The pure machine. It is seen as the world of the definitions: the writer's desk, the generations that are kept, the passes, and
/// the cells of all places.
///
/// It goes on by one event at a time, or by a call of the writer or of a pass, which makes several.
#[derive(Drop)]
pub struct World {
    pub(crate) desk: IdleDesk,
    // what is ready to be published
    pub(crate) due: Option<Due>,
    pub(crate) hand: PureHand,
    pub(crate) unfilled: Unfilled,
}

impl Model for World {
    ghost use Rattle.mem_base.specs.machine.World as machine;
    ghost use Rattle.world_core.specs.Worlds.{aside, state_of, world_of, IsWorld};

    ghost Value = { machine.World };

    ghost view = { λ w. world_of (state_of w.desk w.due) w.hand.kept w.hand.words (aside w.desk.dropped.items w.unfilled.cells) };

    ghost invariant = { λ w. IsWorld (state_of w.desk w.due) w.hand.kept w.hand.words (aside w.desk.dropped.items w.unfilled.cells) };
}

// The generations and words of a world whose desk nobody has used yet.
fn hand_of(
    alloc: Global,
    desk: &IdleDesk,
    words: usize,
    passes: u32,
) -> Result<PureHand, AllocError>
    requires desk { resting desk.now.listened ≡ first_state words }
    requires words { words ≤ most_words }
    requires some { 0 < passes }
    requires few { passes ≤ most_passes }
    ensures kept { IfOk result (λ hand. hand.kept ≡ first_kept passes (published 0 empty [])) }
    ensures words { IfOk result (λ hand. hand.words ≡ replicate (words + notifier_count) 0) }
{
    let first = Arc::clone(desk.listened.backed().desk().current())?;
    let kept = Kept::new(alloc, passes, first)?;
    match Words::new(alloc, words + NOTIFIER_COUNT) {
        Ok(words) => Ok(PureHand { kept, words }),
        Err(error) => {
            drop(kept);
            Err(error)
        }
    }
}

impl World {
    /// The world at first: an empty map over a pool of this many words, at most 2^26, and 1 to 16 passes. It fails only where memory
    /// runs out.
    pub fn new(alloc: Global, words: usize, passes: u32) -> Result<World, AllocError>
        requires words { words ≤ most_words }
        requires some { 0 < passes }
        requires few { passes ≤ most_passes }
        ensures { IfOk result (λ world. world ≡ opening words passes) }
    {
        let desk = IdleDesk::new(alloc, words)?;
        match hand_of(alloc, &desk, words, passes) {
            Ok(hand) => Ok(World {
                desk,
                due: None,
                hand,
                unfilled: Unfilled::none(alloc),
            }),
            Err(error) => {
                drop(desk);
                Err(error)
            }
        }
    }

    /// A legal history leads to the world, but for what was taken out of its journal: what is proved of legal histories holds of it, of
    /// the journal with what was taken out before it.
    pub fn is_reached(&self)
        ensures { IsReached self.now }
    {
        let _ = &self.unfilled;
    }

    /// The number of the current generation.
    pub fn current_number(&self) -> u64
        ensures { result ≡ self.now.writer.generations.current }
    {
        self.hand.kept.current()
    }

    /// The number of the generation in which a pass is entered; `None` of a pass that there is not, too.
    pub fn entered(&self, pass: PassId) -> Option<u64>
        ensures { result ≡ (pass_of self.now.passes pass).entered }
    {
        self.hand.kept.entered(pass)
    }

    /// The generation in which a pass is entered.
    pub(crate) fn generation_of(&self, pass: PassId) -> &Generation
        requires { IsInside self.now pass }
        ensures { result.now ≡ shown_to self.now pass }
    {
        match self.hand.kept.entered(pass) {
            Some(number) => match self.hand.kept.generation_of(number) {
                Some(generation) => generation,
                None => unreachable!(),
            },
            None => unreachable!(),
        }
    }

    /// The calls that listeners got and that are not forgotten, each with the listener that got it, from the first on.
    pub fn journal(&self) -> &[(ListenerId, ListenerEvent)]
        ensures { result.now ≡ self.now.writer.desk.listening.journal }
    {
        self.desk.listened.listeners().journal()
    }

    /// Hands over the calls that listeners got and that are not forgotten, each with the listener that got it, from the first on,
    /// and forgets them: the journal has no calls then, and all else is as it was. It takes no memory and makes no event.
    pub fn take_journal(&mut self) -> Vec<(ListenerId, ListenerEvent)>
        ensures taken { result.items ≡ self.old.writer.desk.listening.journal }
        ensures world { self.new ≡ with_calls [] self.old }
    {
        self.desk.listened.take_journal()
    }

    /// Forgets the first `count` of the calls that listeners got and that are not forgotten yet, all of them where there are
    /// fewer; all else is as it was. It takes no memory and makes no event.
    pub fn forget(&mut self, count: usize)
        ensures { self.new ≡ with_calls (drop count self.old.writer.desk.listening.journal) self.old }
    {
        self.desk.listened.forget(count);
    }

    /// The current generation, with its number.
    pub fn current(&self) -> &Arc<Generation, Global>
        ensures number { (arc_value result.now).number ≡ self.now.writer.generations.current }
        ensures generation { generation_of self.now.writer.generations self.now.writer.generations.current
            ≡ Some (generation (arc_value result.now).forest (arc_value result.now).places) }
    {
        match self.hand.kept.shared(self.hand.kept.current()) {
            Some(generation) => generation,
            None => unreachable!(),
        }
    }
}
