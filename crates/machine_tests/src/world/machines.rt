// A machine between the calls of its user.
ghost use Rattle.std.specs.Prelude.{◌≡◌, ◌≤◌, ◌<◌, true};
ghost use Rattle.mem_base.specs.declared.machine.events.Event.TheVariants as events;
ghost use Rattle.mem_base.specs.machine.World.{possible};
ghost use Rattle.mem_base.specs.map.Limits.{most_words};
ghost use Rattle.machine_tests.specs.Ready.{IsReady};

use generation::Generation;
use mem_base::{
    Access, Applied, Call, Client, ListenerEvent, ListenerId, MOST_PASSES, NotifierId, PassId,
    Refusal, RegionId, SpaceId,
};
use std::alloc::{AllocError, Global};
use std::marker::Model;
use std::sync::Arc;
use world_core::World;

/// A world with 16 passes, of which any call may be asked: nothing is due in it, and each pass may make an access.
#[derive(Drop)]
pub(crate) struct Machine {
    world: World,
}

impl Model for Machine {
    ghost use Rattle.mem_base.specs.machine.World as machine;
    ghost use Rattle.machine_tests.specs.Ready.{IsReady};

    ghost Value = { machine.World };

    ghost view = { λ m. m.world };

    ghost invariant = { λ m. IsReady m.world };
}

// The pass of a virtual CPU, of which there are 16.
fn pass_of(vcpu: u32) -> PassId
    ensures { result.0 < 16 }
{
    let Some(pass) = PassId::new(vcpu % MOST_PASSES) else {
        unreachable!();
    };
    pass.knows_bound();
    pass
}

// Leaves where the pass is entered; it may enter then.
fn leave_first(world: &mut World, pass: PassId)
    requires ready { IsReady world.old }
    ensures ready { IsReady world.new }
    ensures outside { possible world.new (events.Look pass) ≡ true }
{
    pass.knows_bound();
    if world.entered(pass).is_some() {
        world.leave(pass);
    }
}

impl Machine {
    /// An empty map over a pool of this many words.
    pub(crate) fn new(alloc: Global, words: usize) -> Result<Machine, AllocError>
        requires { words ≤ most_words }
    {
        let world = World::new(alloc, words, MOST_PASSES)?;
        Ok(Machine { world })
    }

    pub(crate) fn call(&mut self, call: &Call) -> Result<(Applied, Option<u64>), Refusal> {
        self.world.call(call)
    }

    pub(crate) fn begin(&mut self) -> Result<(), Refusal> {
        self.world.begin()
    }

    pub(crate) fn commit(&mut self) -> Result<Option<u64>, Refusal> {
        self.world.commit()
    }

    pub(crate) fn listen(
        &mut self,
        listener: ListenerId,
        space: SpaceId,
        priority: i32,
    ) -> Result<(), Refusal> {
        self.world.listen(listener, space, priority)
    }

    pub(crate) fn unlisten(&mut self, listener: ListenerId) -> Result<(), Refusal> {
        self.world.unlisten(listener)
    }

    pub(crate) fn reap(&mut self) -> Result<Vec<RegionId>, Refusal> {
        self.world.reap()
    }

    pub(crate) fn load(
        &mut self,
        region: RegionId,
        offset: u64,
        bytes: &[u8],
    ) -> Result<(), Refusal> {
        self.world.load_bytes(region, offset, bytes)
    }

    pub(crate) fn harvest(
        &mut self,
        region: RegionId,
        client: Client,
    ) -> Result<Vec<u64>, Refusal> {
        self.world.harvest(region, client)
    }

    /// What a notifier was set to since it was last taken.
    pub(crate) fn notified(&mut self, number: NotifierId) -> u64 {
        self.world.notified(number)
    }

    /// The number of the generation in which a virtual CPU is, where it is in one.
    pub(crate) fn entered(&self, vcpu: u32) -> Option<u64> {
        self.world.entered(pass_of(vcpu))
    }

    /// A virtual CPU leaves its generation, where it is in one, and enters the current one, whose number is answered.
    pub(crate) fn enter(&mut self, vcpu: u32) -> u64 {
        let pass = pass_of(vcpu);
        leave_first(&mut self.world, pass);
        self.world.enter(pass)
    }

    /// A virtual CPU leaves its generation, where it is in one.
    pub(crate) fn leave(&mut self, vcpu: u32) {
        leave_first(&mut self.world, pass_of(vcpu));
    }

    pub(crate) fn read(&mut self, vcpu: u32, space: SpaceId, addr: u64, out: &mut [u8]) -> Access {
        self.world.read(pass_of(vcpu), space, addr, out)
    }

    pub(crate) fn write(&mut self, vcpu: u32, space: SpaceId, addr: u64, bytes: &[u8]) -> Access {
        self.world.write(pass_of(vcpu), space, addr, bytes)
    }

    pub(crate) fn journal(&self) -> &[(ListenerId, ListenerEvent)] {
        self.world.journal()
    }

    pub(crate) fn current(&self) -> &Arc<Generation, Global> {
        self.world.current()
    }
}
