//! A UART of one's own on a port, beside a PC's configuration register at port 0xcf8 and its reset register at 0xcf9.
//!
//! The ports are regions of the map, and what answers at them is a value of this program. Four bytes that a guest writes to 0xcf8 reach the
//! reset register too where an access is cut at the end of each range, and the configuration register alone as QEMU's core does it.
#![tactic(auto)]

use anyhow::{Context, Result};
use std::alloc::Global;
use std::process::ExitCode;
use vobrekan::{
    Applied, Board, Call, Client, Device, DeviceKind, Kind, Parts, PureMachine, RegionId, Size,
    SpaceId, TxResult,
};

const PORTS: SpaceId = SpaceId(0);

const DONE: TxResult = TxResult {
    error: false,
    decode: false,
};

// What answers at the ports: the ids of two regions, what the registers hold, and how often a callback wrote.
#[derive(Clone, Copy)]
struct Ports {
    uart: RegionId,
    config: RegionId,
    sent: u64,
    address: u64,
    reset: u64,
    writes: u32,
}

impl Ports {
    // Nothing is written yet.
    fn clear(&mut self) {
        self.address = 0;
        self.reset = 0;
        self.writes = 0;
    }
}

impl Parts for Ports {
    fn read_device(&mut self, region: RegionId, offset: u64, _size: u8) -> (u64, TxResult) {
        // The line status register of the UART says that a byte may be sent.
        let is_status = region == self.uart && offset == 5;
        (if is_status { 0x20 } else { 0 }, DONE)
    }

    fn write_device(&mut self, region: RegionId, _offset: u64, _size: u8, value: u64) -> TxResult {
        self.writes = self.writes.saturating_add(1);
        if region == self.uart {
            self.sent = value;
        } else if region == self.config {
            self.address = value;
        } else {
            self.reset = value;
        }
        DONE
    }

    fn read_memory(&mut self, _region: RegionId, _offset: u64, out: &mut [u8]) {
        out.fill(0);
    }

    fn write_memory(&mut self, _region: RegionId, _offset: u64, _bytes: &[u8]) {}

    fn notify(&mut self, _number: u32) {}

    fn mark_page(&mut self, _region: RegionId, _client: Client, _page: u64) {}
}

// Makes a region, and answers its id.
fn make(machine: &mut PureMachine, kind: Kind, bytes: u128) -> Result<RegionId> {
    let size = Size::new(bytes).context("at most 2^64 bytes")?;
    match machine.call(&Call::Region { kind, size })? {
        (Applied::Made(region), _) => Ok(region),
        _ => anyhow::bail!("no region was made"),
    }
}

// Makes a device at a port.
fn add(
    machine: &mut PureMachine,
    parent: RegionId,
    offset: u64,
    device: Device,
    bytes: u128,
    priority: i32,
) -> Result<RegionId> {
    let child = make(machine, Kind::Io(device), bytes)?;
    machine.call(&Call::Add {
        parent,
        offset,
        child,
        priority,
    })?;
    Ok(child)
}

// The map of the ports, with what answers at them.
fn build(machine: &mut PureMachine) -> Result<Board<Ports>> {
    let byte = Device::plain(DeviceKind::Latch);
    let mut word = byte;
    word.ops.impl_min = 4;
    let root = make(machine, Kind::Container, 0x1_0000)?;
    let space = PORTS;
    machine.call(&Call::Space { space, root })?;
    let uart = add(machine, root, 0x3f8, byte, 8, 0)?;
    let config = add(machine, root, 0xcf8, word, 8, 0)?;
    add(machine, root, 0xcf9, byte, 1, 1)?;
    let parts = Ports {
        uart,
        config,
        sent: 0,
        address: 0,
        reset: 0,
        writes: 0,
    };
    let generation = machine.current().clone()?;
    Ok(Board { generation, parts })
}

fn make_board(alloc: Global) -> Result<Board<Ports>> {
    let mut machine = PureMachine::new(alloc, 1 << 10)?;
    let board = build(&mut machine);
    board
}

// The guest sends a byte by the UART, where it is ready.
fn send(board: &mut Board<Ports>, byte: u8) {
    let mut status = [0u8; 1];
    board.read(PORTS, 0x3fd, &mut status);
    if status[0] & 0x20 != 0 {
        board.write(PORTS, 0x3f8, &[byte]);
    }
}

fn print(rt: &HostRuntime, what: &str, ports: &Ports) -> Result<()> {
    let (sent, address, reset) = (ports.sent, ports.address, ports.reset);
    let writes = ports.writes;
    println!(rt;
        "{what}: callbacks {writes}, UART {sent:#x}, address {address:#x}, reset {reset:#x}"
    )?;
    Ok(())
}

fn show(rt: &HostRuntime, board: &mut Board<Ports>) -> Result<()> {
    send(board, b'!');
    print(rt, "a byte is sent", &board.parts)?;
    board.parts.clear();
    board.write(PORTS, 0xcf8, &0x8000_0810u32.to_le_bytes());
    print(rt, "outl 0xcf8, cut at ranges", &board.parts)?;
    board.parts.clear();
    board.core_write(PORTS, 0xcf8, &0x8000_0810u32.to_le_bytes());
    print(rt, "outl 0xcf8, as QEMU does it", &board.parts)
}

fn run(rt: &HostRuntime) -> Result<()> {
    let mut board = make_board(rt.alloc())?;
    let shown = show(rt, &mut board);
    shown
}

fn main(rt: HostRuntime) -> ExitCode {
    match run(&rt) {
        Ok(()) => ExitCode::from(0),
        Err(_) => ExitCode::from(1),
    }
}
