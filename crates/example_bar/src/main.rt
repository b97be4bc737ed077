//! A PCI BAR that moves while a listener prints what a hypervisor would do: which ranges to unmap, and which to map.
#![tactic(auto)]

use anyhow::{Context, Result};
use std::process::ExitCode;
use vobrekan::{
    Applied, Call, Device, DeviceKind, Kind, ListenerEvent, ListenerId, PureMachine, RangeEvent,
    RegionId, Size, SpaceId,
};

const MEMORY: SpaceId = SpaceId(0);

const HYPERVISOR: ListenerId = ListenerId(0);

// Makes a region, and answers its id.
fn make(machine: &mut PureMachine, kind: Kind, bytes: u128) -> Result<RegionId> {
    let size = Size::new(bytes).context("at most 2^64 bytes")?;
    match machine.call(&Call::Region { kind, size })? {
        (Applied::Made(region), _) => Ok(region),
        _ => anyhow::bail!("no region was made"),
    }
}

fn add(machine: &mut PureMachine, parent: RegionId, offset: u64, child: RegionId) -> Result<()> {
    machine.call(&Call::Add {
        parent,
        offset,
        child,
        priority: 0,
    })?;
    Ok(())
}

// Prints what the listener was told from the call of this index on; how many calls it got so far.
fn print_told(rt: &HostRuntime, machine: &PureMachine, from: usize) -> Result<usize> {
    let journal = machine.journal();
    for (_, told) in journal.iter().skip(from) {
        if let ListenerEvent::Range(event) = told {
            let (verb, range) = match event {
                RangeEvent::Add(range) => ("map", range),
                RangeEvent::Delete(range) => ("unmap", range),
                _ => continue,
            };
            let (start, last, leaf) = (range.start, range.last, range.leaf.0);
            println!(rt; "  {verb} {start:#x} to {last:#x}: region {leaf}")?;
        }
    }
    Ok(journal.len())
}

fn run(rt: &HostRuntime) -> Result<()> {
    let mut machine = PureMachine::new(rt.alloc(), 1 << 16)?;
    let system = make(&mut machine, Kind::Container, 1 << 32)?;
    let ram = make(&mut machine, Kind::Ram, 0x4_0000)?;
    let bar = make(
        &mut machine,
        Kind::Io(Device::plain(DeviceKind::Latch)),
        0x1000,
    )?;
    machine.call(&Call::Space {
        space: MEMORY,
        root: system,
    })?;
    machine.listen(HYPERVISOR, MEMORY, 0)?;
    println!(rt; "memory and a BAR, in one transaction:")?;
    machine.begin()?;
    add(&mut machine, system, 0, ram)?;
    add(&mut machine, system, 0xe000_0000, bar)?;
    machine.commit()?;
    let told = print_told(rt, &machine, 0)?;
    println!(rt; "the guest moves the BAR:")?;
    machine.call(&Call::Move {
        child: bar,
        offset: 0xe100_0000,
    })?;
    print_told(rt, &machine, told)?;
    Ok(())
}

fn main(rt: HostRuntime) -> ExitCode {
    match run(&rt) {
        Ok(()) => ExitCode::from(0),
        Err(_) => ExitCode::from(1),
    }
}
