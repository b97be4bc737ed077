// What a watcher of an IOMMU region's table is told.

use crate::{Perm, SpaceId};

/// A part of an IOMMU region's table: the offsets `from` to `to` inclusive, which one translation takes on.
#[derive(Clone, Copy, Debug, PartialEq, Eq)]
pub struct Part {
    /// The first offset in the region, in bytes.
    pub from: u64,
    /// The last one.
    pub to: u64,
    /// The space in which `from` goes on.
    pub space: SpaceId,
    /// The address at which it goes on there; the next offsets go on at the next addresses.
    pub addr: u64,
    pub perm: Perm,
}

/// What a watcher is told: QEMU's `IOMMU_NOTIFIER_MAP` and `IOMMU_NOTIFIER_UNMAP`.
#[derive(Clone, Copy, Debug, PartialEq, Eq)]
pub enum Notice {
    /// The part is there now.
    Map(Part),
    /// The part is there no more.
    Unmap(Part),
}
