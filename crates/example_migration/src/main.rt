//! Dirty pages in rounds, as a migration sends them: each round takes the marks of the pages that were written since the last one.
#![tactic(auto)]

use anyhow::{Context, Result};
use std::process::ExitCode;
use vobrekan::{Applied, Call, Client, Kind, PassId, PureMachine, RegionId, Size, SpaceId};

const MEMORY: SpaceId = SpaceId(0);

const CPU: PassId = PassId::FIRST;

const PAGE: u64 = 4096;

fn make(machine: &mut PureMachine, kind: Kind, bytes: u128) -> Result<RegionId> {
    let size = Size::new(bytes).context("at most 2^64 bytes")?;
    match machine.call(&Call::Region { kind, size })? {
        (Applied::Made(region), _) => Ok(region),
        _ => anyhow::bail!("no region was made"),
    }
}

// Puts the memory at 0 of the space.
fn place(machine: &mut PureMachine, root: RegionId, ram: RegionId) -> Result<()> {
    machine.call(&Call::Add {
        parent: root,
        offset: 0,
        child: ram,
        priority: 0,
    })?;
    machine.call(&Call::Space {
        space: MEMORY,
        root,
    })?;
    Ok(())
}

// Sixteen pages of memory; the memory is answered.
fn build(machine: &mut PureMachine) -> Result<RegionId> {
    let root = make(machine, Kind::Container, 1 << 32)?;
    let ram = make(machine, Kind::Ram, 16 * 4096)?;
    place(machine, root, ram)?;
    Ok(ram)
}

// The guest writes a word to a page.
fn write_page(machine: &mut PureMachine, page: u64) {
    machine.write(CPU, MEMORY, page.wrapping_mul(PAGE), &[0xaa; 8]);
}

fn write_pages(machine: &mut PureMachine, pages: &[u64]) {
    for page in pages {
        write_page(machine, *page);
    }
}

fn print_pages(rt: &HostRuntime, round: u32, pages: &[u64]) -> Result<()> {
    print!(rt; "round {round}: {} pages to send:", pages.len())?;
    for page in pages {
        print!(rt; " {page}")?;
    }
    println!(rt; "")?;
    Ok(())
}

// A round: the marks are taken, and the pages that they stand for are sent.
fn send(rt: &HostRuntime, machine: &mut PureMachine, ram: RegionId, round: u32) -> Result<()> {
    let pages = machine.harvest(ram, Client::Migration)?;
    print_pages(rt, round, pages.as_slice())
}

// Switches the tracking of written pages on or off.
fn track(machine: &mut PureMachine, on: bool) -> Result<()> {
    machine.call(&Call::Global { on })?;
    Ok(())
}

// The rounds of a migration: what was written before it began is not told, nor what is written after it has ended.
fn migrate(rt: &HostRuntime, machine: &mut PureMachine, ram: RegionId) -> Result<()> {
    write_pages(machine, &[1, 2, 3]);
    track(machine, true)?;
    send(rt, machine, ram, 1)?;
    write_pages(machine, &[0, 5, 5, 15]);
    send(rt, machine, ram, 2)?;
    write_pages(machine, &[5]);
    send(rt, machine, ram, 3)?;
    track(machine, false)?;
    write_pages(machine, &[7]);
    send(rt, machine, ram, 4)
}

fn build_and_migrate(rt: &HostRuntime, machine: &mut PureMachine) -> Result<()> {
    let ram = build(machine)?;
    migrate(rt, machine, ram)
}

fn run(rt: &HostRuntime) -> Result<()> {
    let mut machine = PureMachine::new(rt.alloc(), 1 << 16)?;
    let sent = build_and_migrate(rt, &mut machine);
    sent
}

fn main(rt: HostRuntime) -> ExitCode {
    match run(&rt) {
        Ok(()) => ExitCode::from(0),
        Err(_) => ExitCode::from(1),
    }
}
