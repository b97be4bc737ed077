// How many steps on words an access makes, by worked cases.
use crate::desk::calls::{DECODE, ERROR, OK, add, event, map, plain, region, space};
use crate::desk::machines::Machine;
use access_run::{read, write};
use mem_base::{Call, Device, DeviceKind, Kind, Ops, Perm, Refusal, SpaceId, TxResult};
use std::sync::ledger::Ledger;
use step_counter::Steps;

/// The space of memory and devices, and that of an IOMMU region whose translation leads there.
const S: SpaceId = SpaceId(0);

const T: SpaceId = SpaceId(1);

/// An access: its space, its address, whether it writes, how many bytes it has, how it ends, and how many steps it makes.
type Row = (SpaceId, u64, bool, usize, TxResult, u32);

/// The byte of which all writes are.
const BYTE: u8 = 0x55;

/// A latch with these sizes.
fn latch(regs: u32, ops: Ops) -> Kind {
    Kind::Io(Device {
        kind: DeviceKind::Latch,
        regs,
        ops,
    })
}

/// A big-endian latch of two registers that takes 2 or 4 bytes and does one by one, and one that does 4 at once.
fn latches() -> (Kind, Kind) {
    let by_bytes = Ops {
        valid_min: 2,
        impl_max: 1,
        big: true,
        ..Ops::default()
    };
    let by_fours = Ops {
        impl_min: 4,
        ..Ops::default()
    };
    (latch(2, by_bytes), latch(1, by_fours))
}

/// Regions 0 to 8: a container, RAM, two latches, a ROM device, a counter, a bell, a faulty device and an IOMMU region.
fn regions() -> [Call; 9] {
    let (by_bytes, by_fours) = latches();
    [
        region(Kind::Container, 0x10000),
        region(Kind::Ram, 0x2000),
        region(by_bytes, 0x10),
        region(by_fours, 8),
        region(Kind::RomDevice(plain(DeviceKind::Latch)), 0x1000),
        region(Kind::Io(plain(DeviceKind::Count)), 8),
        region(Kind::Io(plain(DeviceKind::Bell)), 8),
        region(Kind::Io(plain(DeviceKind::Fault)), 8),
        region(Kind::Iommu, 0x10000),
    ]
}

/// Where they stand, an ioeventfd of the counter for a word of the byte, and a translation of a page of memory for reads.
fn places() -> [Call; 11] {
    [
        add(0, 0, 1),
        add(0, 0x8000, 2),
        add(0, 0x9000, 3),
        add(0, 0xa000, 4),
        add(0, 0xb000, 5),
        add(0, 0xc000, 6),
        add(0, 0xd000, 7),
        space(S, 0),
        space(T, 8),
        event(5, 0, 4, 7, Some(0x5555_5555)),
        map(8, 0x3000, 0x1000, S, 0, Perm::Read),
    ]
}

static OF_DEVICES: [Row; 12] = [
    (S, 0x8000, true, 8, OK, 8),
    (S, 0x8000, false, 8, OK, 8),
    (S, 0x8001, false, 1, DECODE, 0),
    (S, 0x9000, true, 4, OK, 1),
    (S, 0x9000, false, 1, OK, 1),
    (S, 0xa000, false, 2, OK, 1),
    (S, 0xa000, true, 2, OK, 1),
    (S, 0xb000, false, 1, OK, 1),
    // The notifier in place of the register.
    (S, 0xb000, true, 4, OK, 1),
    (S, 0xc000, true, 1, OK, 1),
    (S, 0xc000, false, 1, OK, 1),
    (S, 0xd000, false, 1, ERROR, 0),
];

static OF_MEMORY: [Row; 7] = [
    // Two words of memory, one, and one with a hole after it.
    (S, 0xffe, true, 4, OK, 2),
    (S, 0x1ffd, true, 3, OK, 1),
    (S, 0x1ffd, false, 6, DECODE, 1),
    (T, 0x3010, false, 4, OK, 1),
    // No permission, no translation, no such space.
    (T, 0x3010, true, 1, DECODE, 0),
    (T, 0x4000, false, 1, DECODE, 0),
    (SpaceId(9), 0, false, 4, DECODE, 0),
];

/// Whether an access ends so, with this number of steps.
fn holds(machine: &mut Machine, row: &Row) -> Result<bool, Refusal> {
    let (space, addr, writes, len, ends, steps) = *row;
    let mut room = [BYTE; 8];
    let Some(bytes) = room.get_mut(..len) else {
        return Ok(false);
    };
    machine.refresh()?;
    let result = if writes {
        write(&mut machine.hand, space, addr, bytes)
    } else {
        read(&mut machine.hand, space, addr, bytes)
    };
    Ok(result == ends && machine.hand.count().steps == steps)
}

/// Whether all rows come out so.
fn all_hold(machine: &mut Machine, rows: &[Row]) -> Result<bool, Refusal> {
    for row in rows {
        if !holds(machine, row)? {
            return Ok(false);
        }
    }
    Ok(true)
}

/// Does these calls.
fn apply<L: Ledger>(
    machine: &mut Machine,
    calls: &[Call],
    steps: &mut Steps<L>,
) -> Result<(), Refusal> {
    for call in calls {
        machine.apply(call, steps)?;
    }
    Ok(())
}

/// Whether all rows come out so in this map.
pub(crate) fn are_steps<L: Ledger>(
    machine: &mut Machine,
    steps: &mut Steps<L>,
) -> Result<bool, Refusal> {
    apply(machine, &regions(), steps)?;
    apply(machine, &places(), steps)?;
    Ok(all_hold(machine, &OF_DEVICES)? && all_hold(machine, &OF_MEMORY)?)
}
