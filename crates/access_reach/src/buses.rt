// Who answers an access.
ghost use Rattle.std.specs.Prelude.{◌≡◌, ◌+◌, ◌≤◌, ◌++◌, List, [], ◌∷◌, length, Bool, true, Some, None, ◌<◌};
ghost use Rattle.mem_base.specs.map.Limits.{notifier_count};
ghost use Rattle.mem_base.specs.views.Naming.{names, shows_events};
ghost use Rattle.generation.specs.Published.{Published};
ghost use Rattle.access_reach.specs.Asking.{Asked, Reply, calls, marks, of_device, of_memory, reads, sets, taken, writes};
ghost use Rattle.access_plan.specs.Answering.{IsDeviceRegion};
ghost use Rattle.access_reach.specs.Reaching.{IsInMemory, IsInMemoryBy, IsMemoryBy, IsPageOf};

use generation::Generation;
use mem_base::{Client, RegionId, TxResult};

/// The memory and the devices of a machine, in one generation of its map: the one by which all chunks, translations and pieces go.
pub trait Bus {
    /// The generation.
    ghost shows: { Self → Published };

    /// From one state of it to another it was asked just these, in order, with these replies, one for each.
    ghost asks: { Self → List Asked → List Reply → Self → Type 0 };

    /// The generation.
    fn generation(&self) -> &Generation
        ensures { result.now ≡ shows self.now };

    /// As it is, it was asked nothing.
    ghost begins: { (x : Self) → asks x [] [] x };

    /// What it was asked, and what it was asked after that, it was asked in one.
    ghost goes_on: { (x y z : Self) (es fs : List Asked) (rs qs : List Reply) → length rs ≡ length es → asks x es rs y → asks y fs qs z
        → asks x (es ++ fs) (rs ++ qs) z };

    /// It stays in the same generation.
    ghost stays: { (x y : Self) (es : List Asked) (rs : List Reply) → asks x es rs y → shows y ≡ shows x };
}

/// One that answers reads.
pub trait Answers: Bus {
    /// Reads bytes of a region's memory, from an offset in it on. All of `out` is overwritten.
    fn read_memory(&mut self, region: RegionId, offset: u64, out: &mut [u8])
        requires inside { IsInMemory (Self.shows self.old).forest region offset (length out.old) }
        ensures { Self.asks self.old (reads region offset (length out.old) ∷ []) (of_memory out.new ∷ []) self.new };

    /// A read by a callback of a region's device, of `size` bytes at an offset in the region: 1, 2, 4 or 8. It answers a number of
    /// that size, and how it ended.
    fn read_device(&mut self, region: RegionId, offset: u64, size: u8) -> (u64, TxResult)
        requires device { IsDeviceRegion (Self.shows self.old).forest region }
        requires size { size ≤ 8 }
        ensures { Self.asks self.old (calls region offset size None ∷ []) (of_device result.0 result.1 ∷ []) self.new };
}

/// One that takes writes.
pub trait Takes: Bus {
    /// Writes bytes into a region's memory, from an offset in it on.
    fn write_memory(&mut self, region: RegionId, offset: u64, bytes: &[u8])
        requires inside { IsInMemory (Self.shows self.old).forest region offset (length bytes.now) }
        ensures { Self.asks self.old (writes region offset bytes.now ∷ []) (taken ∷ []) self.new };

    /// A write by a callback of a region's device, of a number of `size` bytes at an offset in the region: 1, 2, 4 or 8. It answers
    /// how it ended.
    fn write_device(&mut self, region: RegionId, offset: u64, size: u8, value: u64) -> TxResult
        requires device { IsDeviceRegion (Self.shows self.old).forest region }
        requires size { size ≤ 8 }
        ensures { Self.asks self.old (calls region offset size (Some value) ∷ []) (of_device 0 result ∷ []) self.new };

    /// Sets a notifier.
    fn notify(&mut self, number: u32)
        requires number { number < notifier_count }
        ensures { Self.asks self.old (sets number ∷ []) (taken ∷ []) self.new };

    /// Marks a page of a region as written, for one client. Pages are of 4,096 bytes, from 0 on.
    fn mark_page(&mut self, region: RegionId, client: Client, page: u64)
        requires named { names (Self.shows self.old).forest region ≡ true }
        requires inside { IsPageOf (Self.shows self.old).forest region page }
        ensures { Self.asks self.old (marks region client page ∷ []) (taken ∷ []) self.new };
}

/// One that answers reads, as the engine asks it. Each bus that answers reads is such a one, and so is a machine that has not the bytes
/// of the host's memory.
pub trait Answering: Bus {
    /// Whether it has the bytes of the host's memory: where it has not, nothing answers there.
    ghost host: { Bool };

    /// Whether it has them.
    fn has_host() -> bool
        ensures { result ≡ host };

    /// Reads bytes of a region's memory, from an offset in it on. All of `out` is overwritten.
    fn read_memory(&mut self, region: RegionId, offset: u64, out: &mut [u8])
        requires inside { IsInMemoryBy Self.host (Self.shows self.old).forest region offset (length out.old) }
        ensures { Self.asks self.old (reads region offset (length out.old) ∷ []) (of_memory out.new ∷ []) self.new };

    /// A read by a callback of a region's device, of `size` bytes at an offset in the region: 1, 2, 4 or 8. It answers a number of
    /// that size, and how it ended.
    fn read_device(&mut self, region: RegionId, offset: u64, size: u8) -> (u64, TxResult)
        requires device { IsDeviceRegion (Self.shows self.old).forest region }
        requires size { size ≤ 8 }
        ensures { Self.asks self.old (calls region offset size None ∷ []) (of_device result.0 result.1 ∷ []) self.new };
}

impl<B: Answers> Answering for B {
    ghost host = { true };

    fn has_host() -> bool {
        true
    }

    #[inline(always)]
    fn read_memory(&mut self, region: RegionId, offset: u64, out: &mut [u8]) {
        <B as Answers>::read_memory(self, region, offset, out);
    }

    #[inline(always)]
    fn read_device(&mut self, region: RegionId, offset: u64, size: u8) -> (u64, TxResult) {
        <B as Answers>::read_device(self, region, offset, size)
    }
}

/// One that takes writes, as the engine asks it. Each bus that takes writes is such a one, and so is a machine that has not the bytes of
/// the host's memory, or that takes some writes alone.
pub trait Taking: Bus {
    /// Whether it has the bytes of the host's memory: where it has not, nothing takes a write there.
    ghost host: { Bool };

    /// What it takes: a machine whose words cannot be replaced in part takes whole words alone.
    ghost takes: { Self → Asked → Type 0 };

    /// Whether it has the bytes of the host's memory.
    fn has_host() -> bool
        ensures { result ≡ host };

    /// Writes bytes into a region's memory, from an offset in it on.
    fn write_memory(&mut self, region: RegionId, offset: u64, bytes: &[u8])
        requires inside { IsInMemoryBy Self.host (Self.shows self.old).forest region offset (length bytes.now) }
        requires takes { takes self.old (writes region offset bytes.now) }
        ensures { Self.asks self.old (writes region offset bytes.now ∷ []) (taken ∷ []) self.new };

    /// A write by a callback of a region's device, of a number of `size` bytes at an offset in the region: 1, 2, 4 or 8. It answers
    /// how it ended.
    fn write_device(&mut self, region: RegionId, offset: u64, size: u8, value: u64) -> TxResult
        requires device { IsDeviceRegion (Self.shows self.old).forest region }
        requires some { 0 < size }
        requires size { size ≤ 8 }
        requires takes { takes self.old (calls region offset size (Some value)) }
        ensures { Self.asks self.old (calls region offset size (Some value) ∷ []) (of_device 0 result ∷ []) self.new };

    /// Sets a notifier.
    fn notify(&mut self, number: u32)
        requires number { number < notifier_count }
        requires shown { shows_events (Self.shows self.old).forest ≡ true }
        requires takes { takes self.old (sets number) }
        ensures { Self.asks self.old (sets number ∷ []) (taken ∷ []) self.new };

    /// Marks a page of a region as written, for one client. Pages are of 4,096 bytes, from 0 on.
    fn mark_page(&mut self, region: RegionId, client: Client, page: u64)
        requires named { names (Self.shows self.old).forest region ≡ true }
        requires memory { IsMemoryBy Self.host (Self.shows self.old).forest region }
        requires inside { IsPageOf (Self.shows self.old).forest region page }
        ensures { Self.asks self.old (marks region client page ∷ []) (taken ∷ []) self.new };

    /// It goes on to take what it takes.
    ghost lasts: { (x y : Self) (es : List Asked) (rs : List Reply) → Self.asks x es rs y → (e : Asked) → takes x e → takes y e };
}

impl<B: Takes> Taking for B {
    ghost host = { true };

    ghost takes = { λ b e. Unit {0} };

    fn has_host() -> bool {
        true
    }

    #[inline(always)]
    fn write_memory(&mut self, region: RegionId, offset: u64, bytes: &[u8]) {
        <B as Takes>::write_memory(self, region, offset, bytes);
    }

    #[inline(always)]
    fn write_device(&mut self, region: RegionId, offset: u64, size: u8, value: u64) -> TxResult {
        <B as Takes>::write_device(self, region, offset, size, value)
    }

    #[inline(always)]
    fn notify(&mut self, number: u32) {
        <B as Takes>::notify(self, number);
    }

    #[inline(always)]
    fn mark_page(&mut self, region: RegionId, client: Client, page: u64) {
        <B as Takes>::mark_page(self, region, client, page);
    }

    ghost lasts = { λ x y es rs m e t. t };
}
