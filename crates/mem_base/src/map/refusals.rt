// Why a call is refused.
ghost use Rattle.std.specs.Prelude.{◌≡◌};

use crate::{ListenerId, PassId, RegionId, SpaceId, WatcherId};
use std::alloc::{AllocError, AllocFailed};

/// What is not there, or is there already.
#[derive(Clone, Copy, Debug, PartialEq, Eq)]
pub enum What {
    Region(RegionId),
    Space(SpaceId),
    Listener(ListenerId),
    /// The watcher of an IOMMU region's table.
    Watcher(WatcherId),
    /// The translation at this offset.
    Entry(u64),
    /// The ioeventfd at this offset.
    Event(u64),
}

/// What uses a region.
#[derive(Clone, Copy, Debug, PartialEq, Eq)]
pub enum User {
    Region(RegionId),
    Space(SpaceId),
}

/// The counts that have a limit.
#[derive(Clone, Copy, Debug, PartialEq, Eq)]
pub enum Which {
    Regions,
    Made,
    Spaces,
    Listeners,
    Entries,
    Events,
    Calls,
    /// The watchers of IOMMU regions' tables.
    Watchers,
}

/// Why a call is refused. A refused call changes nothing of the map; a publish that is held up leaves what the writer saw of the passes.
#[derive(Clone, Copy, Debug, PartialEq, Eq)]
pub enum Refusal {
    /// Something that the call names is not there.
    Unknown(What),
    /// The space, the listener or the watcher is there already.
    NameTaken(What),
    /// The region is in this container.
    HasContainer(RegionId),
    /// The region is in another container than the one named, or in none.
    NotChild(RegionId),
    /// An alias takes no children.
    AliasParent(RegionId),
    /// The region to be the container is the child, or is reached from it.
    Loop(RegionId),
    /// Some region would have this depth, which is above 32.
    TooDeep(u32),
    /// Some region would have this weight, which is above 65,536.
    TooWide(u64),
    /// A size of 0; memory that is no whole number of pages; RAM, ROM or a ROM device larger than 512 MiB; bytes that end
    /// past their region; or a range whose first offset is above its last.
    BadSize,
    /// Access sizes, registers or an ioeventfd that no device has.
    BadOps,
    /// A region of another kind than the call is for.
    WrongKind(RegionId),
    /// A commit with no transaction open.
    NoTransaction,
    /// A begin with 64 transactions open.
    TooNested,
    /// A region that is dropped has children, aliases of it, or a space whose root it is.
    InUse(User),
    /// The translation meets the one at this offset.
    PageOverlap(u64),
    /// The page of a translation is no power of two, or not aligned to its size.
    BadPage,
    /// The count stands at this limit.
    LimitReached(Which, u64),
    /// No hole of the pool has this number of words.
    NoBacking(u64),
    /// The pass may still use a generation that the publish would overwrite.
    Held(PassId, u64),
    /// The region has this ioeventfd.
    EventTaken,
    /// There was no memory: the one answer that is not tied to a condition.
    Memory,
}

impl From<AllocError> for Refusal {
    ghost use Rattle.std.specs.Prelude.{◌≡◌};
    ghost use Rattle.mem_base.specs.declared.map.refusals.Refusal.TheVariants.{Memory};

    ghost from_gives = { λ _ e. e ≡ Memory };

    fn from(_e: AllocError) -> Refusal {
        Refusal::Memory
    }
}

impl<T: Drop> From<AllocFailed<T>> for Refusal {
    ghost use Rattle.std.specs.Prelude.{◌≡◌};
    ghost use Rattle.mem_base.specs.declared.map.refusals.Refusal.TheVariants.{Memory};

    ghost from_gives = { λ _ e. e ≡ Memory };

    fn from(_e: AllocFailed<T>) -> Refusal {
        Refusal::Memory
    }
}
