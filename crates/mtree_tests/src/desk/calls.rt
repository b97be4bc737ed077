// Calls, and how accesses end.
use mem_base::{Call, Device, DeviceKind, Ioevent, Kind, Perm, RegionId, Size, SpaceId, TxResult};

/// All was answered.
pub(crate) const OK: TxResult = TxResult {
    error: false,
    decode: false,
};

/// A device answered with an error.
pub(crate) const ERROR: TxResult = TxResult {
    error: true,
    decode: false,
};

/// Nothing answered.
pub(crate) const DECODE: TxResult = TxResult {
    error: false,
    decode: true,
};

/// A call that makes a region of this many bytes.
pub(crate) fn region(kind: Kind, bytes: u64) -> Call {
    let Some(size) = Size::new(u128::from(bytes)) else {
        unreachable!();
    };
    Call::Region { kind, size }
}

/// A device of this kind with one register, and accesses of 1 to 4 bytes, little-endian.
pub(crate) fn plain(kind: DeviceKind) -> Device {
    Device::plain(kind)
}

/// A call that places a region in a container.
pub(crate) fn add(parent: u32, offset: u64, child: u32) -> Call {
    Call::Add {
        parent: RegionId(parent),
        offset,
        child: RegionId(child),
        priority: 0,
    }
}

/// A call that makes a space.
pub(crate) fn space(space: SpaceId, root: u32) -> Call {
    Call::Space {
        space,
        root: RegionId(root),
    }
}

/// A call that puts a translation of this many bytes into the table of an IOMMU region.
pub(crate) fn map(
    region: u32,
    iova: u64,
    bytes: u64,
    space: SpaceId,
    translated: u64,
    perm: Perm,
) -> Call {
    let Some(size) = Size::new(u128::from(bytes)) else {
        unreachable!();
    };
    Call::Map {
        region: RegionId(region),
        iova,
        size,
        space,
        translated,
        perm,
    }
}

/// A call that gives a device an ioeventfd for writes of `size` bytes at an offset, of any value or of one.
pub(crate) fn event(region: u32, offset: u64, size: u8, number: u32, value: Option<u64>) -> Call {
    Call::Event {
        region: RegionId(region),
        event: Ioevent {
            offset,
            size,
            matched: value.is_some(),
            value: value.unwrap_or(0),
            number,
        },
    }
}
