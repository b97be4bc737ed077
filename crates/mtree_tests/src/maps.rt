// The calls of the tests.
ghost use Rattle.std.specs.Prelude.{◌≤◌, ◌^◌};

use mem_base::{Call, Device, DeviceKind, Kind, Listener, ListenerId, RegionId, Size, SpaceId};

/// A device of one register.
pub(crate) fn latch() -> Kind {
    Kind::Io(Device::plain(DeviceKind::Latch))
}

pub(crate) fn region(kind: Kind, bytes: u128) -> Call
    requires { bytes ≤ 2 ^ 64 }
{
    match Size::new(bytes) {
        Some(size) => Call::Region { kind, size },
        None => unreachable!(),
    }
}

pub(crate) fn alias(bytes: u128, target: u32, offset: u64) -> Call
    requires { bytes ≤ 2 ^ 64 }
{
    region(
        Kind::Alias {
            target: RegionId(target),
            offset,
        },
        bytes,
    )
}

pub(crate) fn add(parent: u32, offset: u64, child: u32, priority: i32) -> Call {
    Call::Add {
        parent: RegionId(parent),
        offset,
        child: RegionId(child),
        priority,
    }
}

/// Takes a region out of region 0.
pub(crate) fn del(child: u32) -> Call {
    Call::Del {
        parent: RegionId(0),
        child: RegionId(child),
    }
}

/// Who listens to a space.
pub(crate) fn listener(number: u32) -> Listener {
    Listener {
        listener: ListenerId(number),
        space: SpaceId(number),
        priority: 0,
    }
}

/// Makes a space.
pub(crate) fn space(number: u32, root: u32) -> Call {
    Call::Space {
        space: SpaceId(number),
        root: RegionId(root),
    }
}

pub(crate) fn resize(region: u32, bytes: u128) -> Call
    requires { bytes ≤ 2 ^ 64 }
{
    match Size::new(bytes) {
        Some(size) => Call::Resize {
            region: RegionId(region),
            size,
        },
        None => unreachable!(),
    }
}
