// The lines that make regions and place them.
ghost use Rattle.std.specs.Prelude.{◌≡◌, ◌<◌, IfOk, OnOk, None};
ghost use Rattle.mem_base.specs.script.Make.{add_line, added, draw_alias, draw_kind, draw_place, draw_region, draw_regions, latch};
ghost use Rattle.mem_base.specs.script.Make.{latest_after, region_name, root};
ghost use Rattle.rand_pcg.specs.Pcg.{pcg32};
ghost use Rattle.script_make.specs.Draws.{Pushed, RegionPushed, draw_priority, first_regions};

use crate::draws::{draw, draw_page, name_of, region_name};
use mem_base::{Command, Device, DeviceKind, MapChange, Ops, RegionKind, Size};
use rand_pcg::Lcg64Xsh32;
use std::alloc::{AllocError, Global};

// A latch of one register, with aligned accesses of 1 to 4 bytes.
fn latch() -> Device
    ensures { result ≡ latch }
{
    Device {
        kind: DeviceKind::Latch,
        regs: 1,
        ops: Ops {
            valid_min: 1,
            valid_max: 4,
            valid_unaligned: false,
            impl_min: 1,
            impl_max: 4,
            impl_unaligned: false,
            big: false,
        },
    }
}

/// A size that is written out.
pub fn size_of(bytes: u32) -> Size
    ensures { result ≡ bytes }
{
    match Size::new(u128::from(bytes)) {
        Some(size) => size,
        None => unreachable!(),
    }
}

// A kind from 0 to 3; the first region is no alias.
fn draw_kind(rng: &mut Lcg64Xsh32, i: u32) -> u32
    ensures value { (result, rng.new) ≡ draw_kind pcg32 i rng.old }
    ensures alias { result ≡ 2 → 0 < i }
{
    let kind = draw(rng, 4);
    if i == 0 && kind == 2 { 0 } else { kind }
}

// An alias of a region below i.
fn draw_alias(alloc: Global, rng: &mut Lcg64Xsh32, i: u32) -> Result<Command, AllocError>
    requires { 0 < i }
    ensures { IfOk result (λ command. (command, rng.new) ≡ draw_alias pcg32 i rng.old) }
{
    let target = draw(rng, i);
    let offset = draw_page(rng, 4);
    Ok(Command::Region {
        name: region_name(alloc, i)?,
        size: size_of(0x1000),
        kind: RegionKind::Alias {
            target: region_name(alloc, target)?,
            offset,
        },
    })
}

fn draw_region(
    alloc: Global,
    rng: &mut Lcg64Xsh32,
    i: u32,
    kind: u32,
) -> Result<Command, AllocError>
    requires { kind ≡ 2 → 0 < i }
    ensures { IfOk result (λ command. (command, rng.new) ≡ draw_region pcg32 i kind rng.old) }
{
    if kind == 0 {
        return Ok(Command::Region {
            name: region_name(alloc, i)?,
            size: size_of(0x1000),
            kind: RegionKind::Ram,
        });
    }
    if kind == 1 {
        return Ok(Command::Region {
            name: region_name(alloc, i)?,
            size: size_of(0x1000),
            kind: RegionKind::Io(latch()),
        });
    }
    if kind == 2 {
        let alias = draw_alias(alloc, rng, i)?;
        return Ok(alias);
    }
    Ok(Command::Region {
        name: region_name(alloc, i)?,
        size: size_of(0x4000),
        kind: RegionKind::Container,
    })
}

fn add_to_root(alloc: Global, offset: u64, i: u32, priority: i32) -> Result<Command, AllocError>
    ensures { IfOk result (λ command. command ≡ add_line root offset i priority) }
{
    Ok(Command::Change(MapChange::Add {
        parent: name_of(alloc, b"sys")?,
        offset,
        child: region_name(alloc, i)?,
        priority,
    }))
}

fn add_to_region(
    alloc: Global,
    container: u32,
    offset: u64,
    i: u32,
    priority: i32,
) -> Result<Command, AllocError>
    ensures { IfOk result (λ command. command ≡ add_line (region_name container) offset i priority) }
{
    Ok(Command::Change(MapChange::Add {
        parent: region_name(alloc, container)?,
        offset,
        child: region_name(alloc, i)?,
        priority,
    }))
}

// Into the latest container where 0 was drawn and there is one, else into the root.
fn added(
    alloc: Global,
    latest: Option<u32>,
    i: u32,
    offset: u64,
    chosen: u32,
    priority: i32,
) -> Result<Command, AllocError>
    ensures { IfOk result (λ command. command ≡ added latest i offset chosen priority) }
{
    match (latest, chosen) {
        (Some(container), 0) => {
            let command = add_to_region(alloc, container, offset % 0x4000, i, priority)?;
            Ok(command)
        }
        _ => {
            let command = add_to_root(alloc, offset, i, priority)?;
            Ok(command)
        }
    }
}

fn draw_priority(rng: &mut Lcg64Xsh32) -> i32
    ensures { (result, rng.new) ≡ draw_priority pcg32 rng.old }
{
    draw(rng, 5) as i32 - 2
}

fn draw_place(
    alloc: Global,
    rng: &mut Lcg64Xsh32,
    i: u32,
    latest: Option<u32>,
) -> Result<Command, AllocError>
    ensures { IfOk result (λ command. (command, rng.new) ≡ draw_place pcg32 i latest rng.old) }
{
    let offset = draw_page(rng, 4096);
    let chosen = draw(rng, 3);
    let priority = draw_priority(rng);
    let command = added(alloc, latest, i, offset, chosen, priority)?;
    Ok(command)
}

fn latest_after(latest: Option<u32>, i: u32, kind: u32) -> Option<u32>
    ensures { result ≡ latest_after latest i kind }
{
    if kind == 3 { Some(i) } else { latest }
}

// The line that makes region i.
fn push_made(
    alloc: Global,
    rng: &mut Lcg64Xsh32,
    i: u32,
    kind: u32,
    commands: &mut Vec<Command>,
) -> Result<(), AllocError>
    requires { kind ≡ 2 → 0 < i }
    ensures { OnOk result (Pushed commands.old.items commands.new.items rng.new (draw_region pcg32 i kind rng.old)) }
{
    let command = draw_region(alloc, rng, i, kind)?;
    commands.push(command)?;
    Ok(())
}

// The line that places region i.
fn push_placed(
    alloc: Global,
    rng: &mut Lcg64Xsh32,
    i: u32,
    latest: Option<u32>,
    commands: &mut Vec<Command>,
) -> Result<(), AllocError>
    ensures { OnOk result (Pushed commands.old.items commands.new.items rng.new (draw_place pcg32 i latest rng.old)) }
{
    let command = draw_place(alloc, rng, i, latest)?;
    commands.push(command)?;
    Ok(())
}

// Region i is made and placed; what is left is the latest container.
fn push_region(
    alloc: Global,
    rng: &mut Lcg64Xsh32,
    i: u32,
    latest: Option<u32>,
    commands: &mut Vec<Command>,
) -> Result<Option<u32>, AllocError>
    ensures { IfOk result (λ next. RegionPushed pcg32 i latest next commands.old.items commands.new.items rng.old rng.new) }
{
    let kind = draw_kind(rng, i);
    push_made(alloc, rng, i, kind, commands)?;
    push_placed(alloc, rng, i, latest, commands)?;
    Ok(latest_after(latest, i, kind))
}

/// The lines of this many regions: each is made, and then placed.
pub fn draw_regions(
    alloc: Global,
    rng: &mut Lcg64Xsh32,
    count: u32,
) -> Result<Vec<Command>, AllocError>
    ensures { IfOk result (λ commands. (commands.items, rng.new) ≡ first_regions pcg32 count rng.old) }
{
    let mut commands = Vec::new(alloc);
    let mut latest = None;
    for i in 0..count {
        latest = push_region(alloc, rng, i, latest, &mut commands)?;
    }
    Ok(commands)
}
