// The pure machine as the one that a script runs on.
use crate::world::World;
use generation::Generation;
use mem_base::{
    Access, Applied, Call, Client, ListenerEvent, ListenerId, NotifierId, PassId, Refusal,
    RegionId, SpaceId,
};
use script_machine::Machine;
use std::alloc::Global;
use std::sync::Arc;

impl Machine for World {
    ghost world = { λ w. w };

    fn call(&mut self, call: &Call) -> Result<(Applied, Option<u64>), Refusal> {
        World::call(self, call)
    }

    fn begin(&mut self) -> Result<(), Refusal> {
        World::begin(self)
    }

    fn commit(&mut self) -> Result<Option<u64>, Refusal> {
        World::commit(self)
    }

    fn listen(
        &mut self,
        listener: ListenerId,
        space: SpaceId,
        priority: i32,
    ) -> Result<(), Refusal> {
        World::listen(self, listener, space, priority)
    }

    fn unlisten(&mut self, listener: ListenerId) -> Result<(), Refusal> {
        World::unlisten(self, listener)
    }

    fn reap(&mut self) -> Result<Vec<RegionId>, Refusal> {
        World::reap(self)
    }

    fn load_bytes(&mut self, region: RegionId, offset: u64, bytes: &[u8]) -> Result<(), Refusal> {
        World::load_bytes(self, region, offset, bytes)
    }

    fn harvest(&mut self, region: RegionId, client: Client) -> Result<Vec<u64>, Refusal> {
        World::harvest(self, region, client)
    }

    fn notified(&mut self, number: NotifierId) -> u64 {
        World::notified(self, number)
    }

    fn journal(&self) -> &[(ListenerId, ListenerEvent)] {
        World::journal(self)
    }

    fn current(&self) -> &Arc<Generation, Global> {
        World::current(self)
    }

    fn entered(&self, pass: PassId) -> Option<u64> {
        World::entered(self, pass)
    }

    fn enter(&mut self, pass: PassId) -> u64 {
        World::enter(self, pass)
    }

    fn leave(&mut self, pass: PassId) {
        World::leave(self, pass);
    }

    fn read(&mut self, pass: PassId, space: SpaceId, addr: u64, out: &mut [u8]) -> Access {
        World::read(self, pass, space, addr, out)
    }

    fn write(&mut self, pass: PassId, space: SpaceId, addr: u64, bytes: &[u8]) -> Access {
        World::write(self, pass, space, addr, bytes)
    }
}
