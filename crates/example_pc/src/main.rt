//! A PC with 6 GiB of memory: its map is built and printed as ranges, and its video memory is switched off and on.
//!
//! Memory that does not fit below the hole for devices goes on above 4 GiB: two windows on one region.
#![tactic(auto)]

use anyhow::{Context, Result};
use std::process::ExitCode;
use vobrekan::{Device, DeviceKind, Map, RegionId, Size, SpaceId};

const MEMORY: SpaceId = SpaceId(0);

const GIB: u64 = 1 << 30;

// The names by which regions are printed.
#[derive(Drop)]
struct Names {
    ram: RegionId,
    video: RegionId,
    bar: RegionId,
    apic: RegionId,
}

fn size(bytes: u64) -> Result<Size> {
    Size::new(u128::from(bytes)).context("at most 2^64 bytes")
}

// Memory, video memory in front of it, devices in the hole below 4 GiB, and the firmware at its end.
fn build(rt: &HostRuntime) -> Result<(Map, Names)> {
    let device = Device::plain(DeviceKind::Latch);
    let mut map = Map::new(rt.alloc());
    let system = map.container(Size::new(1 << 64).context("no such size")?)?;
    let ram = map.host(size(6 * GIB)?)?;
    let low = map.alias(ram, 0, size(3 * GIB)?)?;
    let high = map.alias(ram, 3 * GIB, size(3 * GIB)?)?;
    let video = map.ram(size(0x2_0000)?)?;
    let bar = map.io(device, size(0x1_0000)?)?;
    let apic = map.io(device, size(0x10_0000)?)?;
    let bios = map.rom(size(0x4_0000)?)?;
    map.add(system, 0, low, 0)?;
    map.add(system, 4 * GIB, high, 0)?;
    map.add(system, 0xa_0000, video, 1)?;
    map.add(system, 0xfebc_0000, bar, 1)?;
    map.add(system, 0xfee0_0000, apic, 1)?;
    map.add(system, 0xfffc_0000, bios, 0)?;
    map.space(MEMORY, system)?;
    let names = Names {
        ram,
        video,
        bar,
        apic,
    };
    Ok((map, names))
}

fn name(names: &Names, region: RegionId) -> &'static str {
    match region {
        r if r == names.ram => "ram",
        r if r == names.video => "video",
        r if r == names.bar => "bar",
        r if r == names.apic => "apic",
        _ => "bios",
    }
}

// A line a range: its addresses, the region that answers there, and the offset in it.
fn print(rt: &HostRuntime, map: &Map, names: &Names) -> Result<()> {
    let view = map.view(MEMORY)?.context("no such space")?;
    for range in view.as_slice() {
        let (start, last, offset) = (range.start, range.last, range.offset);
        let leaf = name(names, range.leaf);
        println!(rt; "{start:#013x} to {last:#013x}  {leaf:<6}from {offset:#x}")?;
    }
    Ok(())
}

// Switches a region off, in a transaction: were the call refused, the map would stay as it is.
fn hide(map: &mut Map, region: RegionId) -> Result<()> {
    let mut change = map.begin()?;
    change.draft.enable(region, false)?;
    change.commit();
    Ok(())
}

fn run(rt: &HostRuntime) -> Result<()> {
    let (mut map, names) = build(rt)?;
    print(rt, &map, &names)?;
    println!(rt; "with the video memory off, as a transaction:")?;
    hide(&mut map, names.video)?;
    print(rt, &map, &names)
}

fn main(rt: HostRuntime) -> ExitCode {
    match run(&rt) {
        Ok(()) => ExitCode::from(0),
        Err(_) => ExitCode::from(1),
    }
}
