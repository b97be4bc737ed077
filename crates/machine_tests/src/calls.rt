// The calls of the tests, and how accesses end.
use config_desk::Config;
use mem_base::{Call, Client, Device, DeviceKind, Kind, Perm, RegionId, Size, SpaceId, TxResult};

/// It ended well.
pub(crate) const GOOD: TxResult = TxResult {
    error: false,
    decode: false,
};

/// Nothing answered some byte.
pub(crate) const HOLE: TxResult = TxResult {
    error: false,
    decode: true,
};

/// Whether all of these calls are accepted.
pub(crate) fn accepts(config: &mut Config, calls: &[Call]) -> bool {
    for call in calls {
        if config.call(call).is_err() {
            return false;
        }
    }
    true
}

/// A call that makes a region of this many bytes.
pub(crate) fn region(kind: Kind, bytes: u64) -> Call {
    let Some(size) = Size::new(u128::from(bytes)) else {
        unreachable!();
    };
    Call::Region { kind, size }
}

/// A call that makes a container of 2^64 bytes.
pub(crate) fn whole() -> Call {
    let Some(size) = Size::new(1 << 64) else {
        unreachable!();
    };
    Call::Region {
        kind: Kind::Container,
        size,
    }
}

/// A latch.
pub(crate) fn latch() -> Device {
    Device::plain(DeviceKind::Latch)
}

/// A call that has the writes to a region logged for VGA.
pub(crate) fn log(region: u32) -> Call {
    Call::Log {
        region: RegionId(region),
        client: Client::Vga,
        on: true,
    }
}

/// A call that makes a space.
pub(crate) fn space(space: u32, root: u32) -> Call {
    Call::Space {
        space: SpaceId(space),
        root: RegionId(root),
    }
}

/// A call that places a region in a container.
pub(crate) fn add(parent: u32, offset: u64, child: u32) -> Call {
    Call::Add {
        parent: RegionId(parent),
        offset,
        child: RegionId(child),
        priority: 0,
    }
}

/// A call that moves a region in its container.
pub(crate) fn shift(child: u32, offset: u64) -> Call {
    Call::Move {
        child: RegionId(child),
        offset,
    }
}

/// A call that puts a translation of a page into the table of an IOMMU region.
pub(crate) fn map(region: u32, iova: u64, to: u32, translated: u64, perm: Perm) -> Call {
    let Some(size) = Size::new(0x1000) else {
        unreachable!();
    };
    Call::Map {
        region: RegionId(region),
        iova,
        size,
        space: SpaceId(to),
        translated,
        perm,
    }
}
