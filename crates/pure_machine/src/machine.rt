// The machine, and what it shows of itself.
ghost use Rattle.std.specs.Prelude.{◌≡◌, ◌≤◌, ◌^◌, [], drop, IfOk, Some};
ghost use Rattle.std.specs.Arc.{arc_value};
ghost use Rattle.mem_base.specs.map.Limits.{most_passes, most_words};
ghost use Rattle.mem_base.specs.machine.Generations.{generation, generation_of};
ghost use Rattle.mem_base.specs.machine.Passes.{pass_of};
ghost use Rattle.mem_base.specs.machine.World.{opening};
ghost use Rattle.world_hand.specs.Reached.{IsReached};
ghost use Rattle.world_hand.specs.Taken.{with_calls};

use generation::Generation;
use mem_base::{ListenerEvent, ListenerId, MOST_PASSES, PassId};
use std::alloc::{AllocError, Global};
use std::marker::Model;
use std::sync::Arc;
use world_core::World;

/// The pure machine with 16 passes, between whole calls. It is seen as the world of the definitions.
#[derive(Drop)]
pub struct PureMachine {
    pub(crate) world: World,
}

impl Model for PureMachine {
    ghost use Rattle.mem_base.specs.machine.World as machine;
    ghost use Rattle.pure_machine.specs.Machines.{IsMachine};

    ghost Value = { machine.World };

    ghost view = { λ m. m.world };

    ghost invariant = { λ m. IsMachine m.world };
}

impl PureMachine {
    /// The machine at first: an empty map over a pool of this many words, at most 2^26.
    ///
    /// It fails only where memory runs out.
    pub fn new(alloc: Global, words: usize) -> Result<PureMachine, AllocError>
        requires words { words ≤ most_words }
        ensures { IfOk result (λ machine. machine ≡ opening words most_passes) }
    {
        let world = World::new(alloc, words, MOST_PASSES)?;
        Ok(PureMachine { world })
    }

    /// A legal history leads to the machine, but for what was taken out of its journal: what is proved of legal histories holds of it,
    /// of the journal with what was taken out before it.
    pub fn is_reached(&self)
        ensures { IsReached self.now }
    {
        self.world.is_reached();
    }

    /// The calls that listeners got and that are not forgotten, each with the listener that got it, from the first on.
    pub fn journal(&self) -> &[(ListenerId, ListenerEvent)]
        ensures { result.now ≡ self.now.writer.desk.listening.journal }
    {
        self.world.journal()
    }

    /// Hands over the calls that listeners got and that are not forgotten, each with the listener that got it, from the first on,
    /// and forgets them: the journal has no calls then, and all else is as it was. It takes no memory.
    ///
    /// A machine that runs for long keeps what listeners were told until it is taken out here, or forgotten.
    pub fn take_journal(&mut self) -> Vec<(ListenerId, ListenerEvent)>
        ensures taken { result.items ≡ self.old.writer.desk.listening.journal }
        ensures machine { self.new ≡ with_calls [] self.old }
    {
        self.world.take_journal()
    }

    /// Forgets the first `count` of the calls that listeners got and that are not forgotten yet, all of them where there are
    /// fewer; all else is as it was. It takes no memory.
    pub fn forget(&mut self, count: usize)
        ensures { self.new ≡ with_calls (drop count self.old.writer.desk.listening.journal) self.old }
    {
        self.world.forget(count);
    }

    /// The current generation, with its number.
    pub fn current(&self) -> &Arc<Generation, Global>
        ensures number { (arc_value result.now).number ≡ self.now.writer.generations.current }
        ensures generation { generation_of self.now.writer.generations self.now.writer.generations.current
            ≡ Some (generation (arc_value result.now).forest (arc_value result.now).places) }
    {
        self.world.current()
    }

    /// The number of the current generation.
    pub fn current_number(&self) -> u64
        ensures { result ≡ self.now.writer.generations.current }
    {
        self.world.current_number()
    }

    /// The number of the generation in which a pass is entered; `None` of a pass that there is not, too.
    pub fn entered(&self, pass: PassId) -> Option<u64>
        ensures { result ≡ (pass_of self.now.passes pass).entered }
    {
        self.world.entered(pass)
    }
}
