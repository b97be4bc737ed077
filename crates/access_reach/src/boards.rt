// A generation of the map with memory and devices of one's own.
ghost use Rattle.std.specs.Prelude.{◌≡◌, ◌≤◌, ◌+◌, ◌^◌, [], length, Some, None};
ghost use Rattle.std.specs.Arc.{arc_value};
ghost use Rattle.mem_base.specs.access.AccessSteps.{reading, writing};
ghost use Rattle.access_plan.specs.HostPlans.{plan_with_host};
ghost use Rattle.access_reach.specs.Asking.{Asked, Reply, calls, marks, of_device, of_memory, outcome, reads, sets, taken, writes};
ghost use Rattle.access_reach.specs.Doing.{AllDone, done_then};
ghost use Rattle.access_reach.specs.Reaching.{HasReached};
ghost use Rattle.access_reach.specs.Rounds.{EndsRead, EndsWrite};
ghost use Rattle.std.proofs.Common.{refl, ◌∙◌};

use crate::accesses::{read, write};
use crate::buses::{Answers, Bus, Takes};
use crate::cores::{core_read, core_write};
use generation::Generation;
use mem_base::{Client, RegionId, SpaceId, TxResult};
use std::alloc::Global;
use std::sync::Arc;

/// Memory and devices of one's own: what a machine has beside its map.
///
/// A request names the region that it is for, as the map's calls answered it. Where an implementation leaves `does` as it stands here,
/// no clause says more of it than what it is asked.
pub trait Parts {
    /// From one state to another they did this, with this reply.
    ghost does: { Self → Asked → Reply → Self → Type 0 } = { λ x e r y. Unit {0} };

    /// Reads bytes of a region's memory, from an offset in it on. All of `out` is overwritten.
    fn read_memory(&mut self, region: RegionId, offset: u64, out: &mut [u8])
        ensures { Self.does self.old (reads region offset (length out.old)) (of_memory out.new) self.new };

    /// Writes bytes into a region's memory, from an offset in it on.
    fn write_memory(&mut self, region: RegionId, offset: u64, bytes: &[u8])
        ensures { Self.does self.old (writes region offset bytes.now) taken self.new };

    /// A read by a callback of a region's device, of `size` bytes at an offset in the region: 1, 2, 4 or 8. It answers a number of
    /// that size, and how it ended.
    fn read_device(&mut self, region: RegionId, offset: u64, size: u8) -> (u64, TxResult)
        ensures { Self.does self.old (calls region offset size None) (of_device result.0 result.1) self.new };

    /// A write by a callback of a region's device, of a number of `size` bytes at an offset in the region: 1, 2, 4 or 8. It answers
    /// how it ended.
    fn write_device(&mut self, region: RegionId, offset: u64, size: u8, value: u64) -> TxResult
        ensures { Self.does self.old (calls region offset size (Some value)) (of_device 0 result) self.new };

    /// Sets a notifier.
    fn notify(&mut self, number: u32)
        ensures { Self.does self.old (sets number) taken self.new };

    /// Marks a page of a region as written, for one client. Pages are of 4,096 bytes, from 0 on.
    fn mark_page(&mut self, region: RegionId, client: Client, page: u64)
        ensures { Self.does self.old (marks region client page) taken self.new };
}

/// A generation of the map, with memory and devices of one's own: a bus.
///
/// Where the map changes, `generation` is given the machine's current one.
#[derive(Drop)]
pub struct Board<P: Parts + Drop> {
    /// What the map shows.
    pub generation: Arc<Generation, Global>,
    /// The memory and the devices.
    pub parts: P,
}

impl<P: Parts + Drop> Bus for Board<P> {
    ghost shows = { λ b. arc_value b.generation };

    ghost asks = { λ x es rs y. (arc_value y.generation ≡ arc_value x.generation) × AllDone P.does x.parts es rs y.parts };

    fn generation(&self) -> &Generation {
        &self.generation
    }

    ghost begins = { λ x. (refl, refl) };

    ghost goes_on = { λ x y z es fs rs qs l m n. (n.0 ∙ m.0, done_then P.does x.parts y.parts z.parts es fs rs qs l m.1 n.1) };

    ghost stays = { λ x y es rs m. m.0 };
}

impl<P: Parts + Drop> Answers for Board<P> {
    fn read_memory(&mut self, region: RegionId, offset: u64, out: &mut [u8]) {
        self.parts.read_memory(region, offset, out);
    }

    fn read_device(&mut self, region: RegionId, offset: u64, size: u8) -> (u64, TxResult) {
        self.parts.read_device(region, offset, size)
    }
}

impl<P: Parts + Drop> Takes for Board<P> {
    fn write_memory(&mut self, region: RegionId, offset: u64, bytes: &[u8]) {
        self.parts.write_memory(region, offset, bytes);
    }

    fn write_device(&mut self, region: RegionId, offset: u64, size: u8, value: u64) -> TxResult {
        self.parts.write_device(region, offset, size, value)
    }

    fn notify(&mut self, number: u32) {
        self.parts.notify(number);
    }

    fn mark_page(&mut self, region: RegionId, client: Client, page: u64) {
        self.parts.mark_page(region, client, page);
    }
}

impl<P: Parts + Drop> Board<P> {
    /// Reads bytes of a space from an address on, as `read` of a bus does. QEMU's core, `address_space_read`.
    pub fn read(&mut self, space: SpaceId, addr: u64, out: &mut [u8]) -> TxResult
        ensures { HasReached ⟦<Board<P> as Bus>⟧.asks self.old (plan_with_host (arc_value self.old.generation).forest space addr (reading (length out.old)))
            (outcome out.new result) self.new }
    {
        read(self, space, addr, out)
    }

    /// Writes bytes to a space from an address on, as `write` of a bus does. QEMU's core, `address_space_write`.
    pub fn write(&mut self, space: SpaceId, addr: u64, bytes: &[u8]) -> TxResult
        ensures { HasReached ⟦<Board<P> as Bus>⟧.asks self.old (plan_with_host (arc_value self.old.generation).forest space addr (writing bytes.now))
            (outcome [] result) self.new }
    {
        write(self, space, addr, bytes)
    }

    /// Reads bytes of a space by the rounds of QEMU's core, as `core_read` of a bus does. QEMU's core, `flatview_read_continue`.
    pub fn core_read(&mut self, space: SpaceId, addr: u64, out: &mut [u8]) -> Option<TxResult>
        requires { addr + length out.old ≤ 2 ^ 64 }
        ensures { EndsRead ⟦<Board<P> as Bus>⟧.asks self.old (arc_value self.old.generation).forest space addr (length out.old) out.new result self.new }
    {
        core_read(self, space, addr, out)
    }

    /// Writes bytes to a space by the rounds of QEMU's core, as `core_write` of a bus does. QEMU's core, `flatview_write_continue`.
    pub fn core_write(&mut self, space: SpaceId, addr: u64, bytes: &[u8]) -> Option<TxResult>
        requires { addr + length bytes.now ≤ 2 ^ 64 }
        ensures { EndsWrite ⟦<Board<P> as Bus>⟧.asks self.old (arc_value self.old.generation).forest space addr bytes.now result self.new }
    {
        core_write(self, space, addr, bytes)
    }
}
