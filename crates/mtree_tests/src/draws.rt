// Calls drawn by a generator.
ghost use Rattle.std.specs.Prelude.{◌<◌};

use crate::maps::latch;
use mem_base::{Call, Client, Device, DeviceKind, Ioevent, Kind, Perm, RegionId, Size, SpaceId};
use rand_core::utils::NextWord;
use rand_pcg::Lcg64Xsh32;

/// The next word modulo n.
pub(crate) fn draw(rng: &mut Lcg64Xsh32, n: u32) -> u32
    requires { 0 < n }
    ensures { result < n }
{
    rng.next_word() % n
}

/// True once in `n` draws.
fn once_in(rng: &mut Lcg64Xsh32, n: u32) -> bool
    requires { 0 < n }
{
    draw(rng, n) == 0
}

/// One of the regions that were made, or now and then one that was not.
fn region(rng: &mut Lcg64Xsh32, made: u32) -> RegionId {
    let most = made.saturating_add(1);
    RegionId(rng.next_word() % most.max(1))
}

/// The first region in every other draw, else any.
fn parent(rng: &mut Lcg64Xsh32, made: u32) -> RegionId {
    if once_in(rng, 2) {
        RegionId(0)
    } else {
        region(rng, made)
    }
}

/// A few whole pages from 0 on, or now and then a few below 2^64.
fn offset(rng: &mut Lcg64Xsh32) -> u64 {
    let bytes = u64::from(draw(rng, 8)) * 0x1000;
    if once_in(rng, 8) {
        0u64.wrapping_sub(bytes)
    } else {
        bytes
    }
}

/// A size of a few whole pages, now and then 0 or 2^64.
fn size(rng: &mut Lcg64Xsh32) -> Size {
    let pages = u128::from(draw(rng, 9));
    let bytes = if once_in(rng, 10) {
        0x1_0000_0000_0000_0000
    } else {
        pages * 0x1000
    };
    match Size::new(bytes) {
        Some(size) => size,
        None => unreachable!(),
    }
}

fn kind(rng: &mut Lcg64Xsh32, made: u32) -> Kind {
    match draw(rng, 10) {
        0 | 1 => Kind::Ram,
        2 => Kind::Rom,
        3 => Kind::RomDevice(Device::plain(DeviceKind::Latch)),
        4 => latch(),
        5 => Kind::Iommu,
        6 => Kind::Reserve,
        7 | 8 => Kind::Alias {
            target: region(rng, made),
            offset: offset(rng),
        },
        _ => Kind::Container,
    }
}

pub(crate) fn client(rng: &mut Lcg64Xsh32) -> Client {
    match draw(rng, 3) {
        0 => Client::Vga,
        1 => Client::Code,
        _ => Client::Migration,
    }
}

/// A priority of -1, 0 or 1.
fn priority(rng: &mut Lcg64Xsh32) -> i32 {
    match draw(rng, 3) {
        0 => -1,
        1 => 0,
        _ => 1,
    }
}

/// A call that makes or places something.
pub(crate) fn building(rng: &mut Lcg64Xsh32, made: u32) -> Call {
    match draw(rng, 8) {
        0..=2 => Call::Region {
            kind: kind(rng, made),
            size: size(rng),
        },
        3 => Call::Space {
            space: SpaceId(draw(rng, 3)),
            root: region(rng, made),
        },
        _ => Call::Add {
            parent: parent(rng, made),
            offset: offset(rng),
            child: region(rng, made),
            priority: priority(rng),
        },
    }
}

/// A call that changes where a region stands or what it covers.
pub(crate) fn shifting(rng: &mut Lcg64Xsh32, made: u32) -> Call {
    match draw(rng, 5) {
        0 => Call::Del {
            parent: region(rng, made),
            child: region(rng, made),
        },
        1 => Call::Move {
            child: region(rng, made),
            offset: offset(rng),
        },
        2 => Call::Resize {
            region: region(rng, made),
            size: size(rng),
        },
        3 => Call::Retarget {
            alias: region(rng, made),
            offset: offset(rng),
        },
        _ => Call::Drop {
            region: region(rng, made),
        },
    }
}

/// A call that switches something.
fn switching(rng: &mut Lcg64Xsh32, made: u32) -> Call {
    let region = region(rng, made);
    let on = once_in(rng, 2);
    match draw(rng, 7) {
        0 => Call::Enable { region, on },
        1 => Call::Readonly { region, on },
        2 => Call::Nonvolatile { region, on },
        3 => Call::Romd { region, on },
        4 => Call::Log {
            region,
            client: client(rng),
            on,
        },
        5 => Call::Unmergeable { region, on },
        _ => Call::Global { on },
    }
}

/// A call on a table of translations or of ioeventfds.
fn tabling(rng: &mut Lcg64Xsh32, made: u32) -> Call {
    let region = region(rng, made);
    let matched = once_in(rng, 2);
    match draw(rng, 4) {
        0 => Call::Map {
            region,
            iova: offset(rng),
            size: size(rng),
            space: SpaceId(draw(rng, 3)),
            translated: offset(rng),
            perm: Perm::Both,
        },
        1 => Call::Unmap {
            region,
            iova: offset(rng),
        },
        2 => Call::Event {
            region,
            event: Ioevent {
                offset: offset(rng),
                size: 4,
                matched,
                value: 0,
                number: draw(rng, 70),
            },
        },
        _ => Call::Unevent {
            region,
            offset: offset(rng),
            size: 4,
            matched,
            value: 0,
        },
    }
}

/// A call of any kind, where `made` regions were made.
pub(crate) fn any_call(rng: &mut Lcg64Xsh32, made: u32) -> Call {
    match draw(rng, 10) {
        0..=5 => building(rng, made),
        6 => shifting(rng, made),
        7 | 8 => switching(rng, made),
        _ => tabling(rng, made),
    }
}
