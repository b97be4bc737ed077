// Drawn maps of small spaces, with regions of every kind.
use crate::desk::calls::{event, map, region, space};
use crate::desk::desks::commit;
use crate::desk::machines::Machine;
use crate::draws::draw;
use mem_base::{Call, Client, Device, DeviceKind, Kind, Ops, Perm, Refusal, RegionId, SpaceId};
use rand_pcg::Lcg64Xsh32;
use std::sync::ledger::Ledger;
use step_counter::Steps;

/// How many regions are made: 0 to 2 are containers, each the root of a space; 3 is RAM of two pages, 4 ROM, 5 a ROM device, 6
/// to 8 other devices, 9 a reservation, 10 to 12 IOMMU regions; the others are aliases of 3 to 9.
const REGIONS: u32 = 30;

/// The addresses of a space that something may answer.
pub(crate) const ADDRS: u32 = 64;

/// One of two with even odds.
pub(crate) fn flip(rng: &mut Lcg64Xsh32) -> bool {
    draw(rng, 2) == 0
}

/// A least and a greatest access size.
fn sizes(rng: &mut Lcg64Xsh32) -> (u8, u8) {
    match draw(rng, 8) {
        0 => (1, 1),
        1 => (1, 2),
        2 => (1, 8),
        3 => (2, 4),
        4 => (2, 8),
        5 => (4, 4),
        6 => (8, 8),
        _ => (1, 4),
    }
}

fn ops(rng: &mut Lcg64Xsh32) -> Ops {
    let (valid_min, valid_max) = sizes(rng);
    let (impl_min, impl_max) = sizes(rng);
    Ops {
        valid_min,
        valid_max,
        valid_unaligned: flip(rng),
        impl_min,
        impl_max,
        impl_unaligned: flip(rng),
        big: flip(rng),
    }
}

fn device(rng: &mut Lcg64Xsh32) -> Device {
    let kind = match draw(rng, 9) {
        0 => DeviceKind::Fault,
        1 | 2 => DeviceKind::Count,
        3 | 4 => DeviceKind::Bell,
        _ => DeviceKind::Latch,
    };
    Device {
        kind,
        regs: draw(rng, 3) + 1,
        ops: ops(rng),
    }
}

/// An alias of 4 to 27 bytes: at the begin of its target, or around the end of its first page.
fn alias(rng: &mut Lcg64Xsh32) -> Call {
    let target = RegionId(draw(rng, 7) + 3);
    let base = if target.0 == 3 && flip(rng) { 0xff0 } else { 0 };
    let offset = base + u64::from(draw(rng, 12));
    region(Kind::Alias { target, offset }, u64::from(draw(rng, 24)) + 4)
}

/// A call that makes a region, by its number.
fn building(rng: &mut Lcg64Xsh32, number: u32) -> Call {
    match number {
        0..=2 => region(Kind::Container, u64::from(ADDRS)),
        3 => region(Kind::Ram, 0x2000),
        4 => region(Kind::Rom, 0x1000),
        5 => region(Kind::RomDevice(device(rng)), 0x1000),
        6..=8 => region(Kind::Io(device(rng)), u64::from(draw(rng, 28)) + 4),
        9 => region(Kind::Reserve, 8),
        10..=12 => region(Kind::Iommu, 48),
        _ => alias(rng),
    }
}

/// A call that places a region: an IOMMU region in the container of its space, any other where it is drawn to.
fn placing(rng: &mut Lcg64Xsh32, number: u32) -> Call {
    let parent = match number {
        10..=12 => number - 10,
        _ => draw(rng, 3),
    };
    let priority = match draw(rng, 3) {
        0 => -1,
        1 => 0,
        _ => 1,
    };
    Call::Add {
        parent: RegionId(parent),
        offset: u64::from(draw(rng, ADDRS - 8)),
        child: RegionId(number),
        priority,
    }
}

/// A call that switches something of a region.
fn switching(rng: &mut Lcg64Xsh32, number: u32) -> Call {
    let region = RegionId(number);
    let on = flip(rng);
    match draw(rng, 12) {
        0 => Call::Enable { region, on },
        1 => Call::Readonly { region, on },
        2 => Call::Romd {
            region: RegionId(5),
            on,
        },
        3 => Call::Global { on },
        4 | 5 => Call::Unmergeable { region, on },
        6 => Call::Log {
            region: RegionId(3),
            client: Client::Vga,
            on: true,
        },
        7 => Call::Log {
            region: RegionId(3),
            client: Client::Code,
            on: true,
        },
        _ => Call::Log {
            region,
            client: Client::Migration,
            on,
        },
    }
}

/// A translation of a drawn page of 1 to 16 bytes.
fn translation(rng: &mut Lcg64Xsh32) -> Call {
    let shift = draw(rng, 5);
    let perm = match draw(rng, 12) {
        0 => Perm::Nothing,
        1 => Perm::Read,
        2 => Perm::Write,
        _ => Perm::Both,
    };
    let number = draw(rng, 3) + 10;
    let iova = u64::from(draw(rng, 48)) >> shift << shift;
    let space = SpaceId(draw(rng, 3));
    let translated = u64::from(draw(rng, ADDRS));
    map(number, iova, 1 << shift, space, translated, perm)
}

/// The number of this many bytes whose highest byte is 1, and all others 0.
fn highest(size: u8) -> u64 {
    match size {
        1 => 1,
        2 => 1 << 8,
        4 => 1 << 24,
        _ => 1 << 56,
    }
}

/// An ioeventfd of a device, for a small value, in either byte order, or for any.
fn notifying(rng: &mut Lcg64Xsh32) -> Call {
    let number = draw(rng, 4) + 5;
    let size = match draw(rng, 4) {
        0 => 1,
        1 => 2,
        2 => 4,
        _ => 8,
    };
    let offset = u64::from(draw(rng, 16));
    let value = match draw(rng, 4) {
        0 => None,
        1 => Some(highest(size)),
        2 => Some(0),
        _ => Some(1),
    };
    event(number, offset, size, draw(rng, 64), value)
}

/// Does a call in the transaction that is open; one that is refused changes nothing.
fn try_call<L: Ledger>(machine: &mut Machine, call: &Call, steps: &mut Steps<L>) -> bool {
    machine.apply(call, steps).is_ok()
}

/// Publishes a drawn map.
pub(crate) fn draw_map<L: Ledger>(
    machine: &mut Machine,
    rng: &mut Lcg64Xsh32,
    steps: &mut Steps<L>,
) -> Result<(), Refusal> {
    machine.desk.begin()?;
    for number in 0..REGIONS {
        let one = building(rng, number);
        try_call(machine, &one, steps);
    }
    for number in 0..3 {
        try_call(machine, &space(SpaceId(number), number), steps);
    }
    for number in 3..REGIONS {
        let place = placing(rng, number);
        try_call(machine, &place, steps);
        let switch = switching(rng, number);
        try_call(machine, &switch, steps);
    }
    for _ in 0..40 {
        let page = translation(rng);
        try_call(machine, &page, steps);
        let notifier = notifying(rng);
        try_call(machine, &notifier, steps);
    }
    commit(&mut machine.desk, steps)
}
