// The lines that make regions.
ghost use Rattle.std.specs.Prelude.{◌≡◌, Ok, Err, MatchResult};
ghost use Rattle.mem_base.specs.script.Operands.{value_in};
ghost use Rattle.mem_base.specs.script.RegionForms.{alias, container, device, io, iommu, ram, region, region_forms, reserve, rom, romdev};
ghost use Rattle.script_text.specs.Reads.{Reads, chosen};

use crate::stops::LineStop;
use crate::tokens::{Tokens, new_name};
use mem_base::{Cause, Command, Device, Ops, RegionKind};
use std::alloc::Global;

// DEVICE: latch|count|bell|fault [regs REGS] [valid A-B] [impl A-B] [vunaligned] [iunaligned] [big]
fn device(tokens: &mut Tokens) -> Result<Device, Cause>
    ensures { MatchResult result (λ d. device tokens.old ≡ Ok (d, tokens.new)) (λ e. device tokens.old ≡ Err e) }
{
    let kind = tokens.device_kind()?;
    let regs = tokens.optional_regs()?;
    let (valid_min, valid_max) = tokens.optional_range("valid")?;
    let (impl_min, impl_max) = tokens.optional_range("impl")?;
    let valid_unaligned = tokens.flag("vunaligned");
    let impl_unaligned = tokens.flag("iunaligned");
    let big = tokens.flag("big");
    Ok(Device {
        kind,
        regs,
        ops: Ops {
            valid_min,
            valid_max,
            valid_unaligned,
            impl_min,
            impl_max,
            impl_unaligned,
            big,
        },
    })
}

// container SIZE
fn container(alloc: Global, name: &[u8], tokens: &mut Tokens) -> Result<Command, LineStop>
    ensures { Reads result (container name.now tokens.old) }
{
    let size = tokens.size()?;
    tokens.ends()?;
    Ok(Command::Region {
        name: new_name(alloc, name)?,
        size,
        kind: RegionKind::Container,
    })
}

// ram SIZE
fn ram(alloc: Global, name: &[u8], tokens: &mut Tokens) -> Result<Command, LineStop>
    ensures { Reads result (ram name.now tokens.old) }
{
    let size = tokens.size()?;
    tokens.ends()?;
    Ok(Command::Region {
        name: new_name(alloc, name)?,
        size,
        kind: RegionKind::Ram,
    })
}

// rom SIZE
fn rom(alloc: Global, name: &[u8], tokens: &mut Tokens) -> Result<Command, LineStop>
    ensures { Reads result (rom name.now tokens.old) }
{
    let size = tokens.size()?;
    tokens.ends()?;
    Ok(Command::Region {
        name: new_name(alloc, name)?,
        size,
        kind: RegionKind::Rom,
    })
}

// romdev SIZE DEVICE
fn romdev(alloc: Global, name: &[u8], tokens: &mut Tokens) -> Result<Command, LineStop>
    ensures { Reads result (romdev name.now tokens.old) }
{
    let size = tokens.size()?;
    let device = device(tokens)?;
    tokens.ends_after_options(device.ops.big)?;
    Ok(Command::Region {
        name: new_name(alloc, name)?,
        size,
        kind: RegionKind::RomDevice(device),
    })
}

// io SIZE DEVICE
fn io(alloc: Global, name: &[u8], tokens: &mut Tokens) -> Result<Command, LineStop>
    ensures { Reads result (io name.now tokens.old) }
{
    let size = tokens.size()?;
    let device = device(tokens)?;
    tokens.ends_after_options(device.ops.big)?;
    Ok(Command::Region {
        name: new_name(alloc, name)?,
        size,
        kind: RegionKind::Io(device),
    })
}

// iommu SIZE
fn iommu(alloc: Global, name: &[u8], tokens: &mut Tokens) -> Result<Command, LineStop>
    ensures { Reads result (iommu name.now tokens.old) }
{
    let size = tokens.size()?;
    tokens.ends()?;
    Ok(Command::Region {
        name: new_name(alloc, name)?,
        size,
        kind: RegionKind::Iommu,
    })
}

// alias SIZE REGION OFFSET
fn alias(alloc: Global, name: &[u8], tokens: &mut Tokens) -> Result<Command, LineStop>
    ensures { Reads result (alias name.now tokens.old) }
{
    let size = tokens.size()?;
    let target = tokens.name()?;
    let offset = tokens.address()?;
    tokens.ends()?;
    Ok(Command::Region {
        name: new_name(alloc, name)?,
        size,
        kind: RegionKind::Alias {
            target: new_name(alloc, target)?,
            offset,
        },
    })
}

// reserve SIZE
fn reserve(alloc: Global, name: &[u8], tokens: &mut Tokens) -> Result<Command, LineStop>
    ensures { Reads result (reserve name.now tokens.old) }
{
    let size = tokens.size()?;
    tokens.ends()?;
    Ok(Command::Region {
        name: new_name(alloc, name)?,
        size,
        kind: RegionKind::Reserve,
    })
}

// The region that a kind and the tokens after it say.
fn region_of_kind(
    alloc: Global,
    name: &[u8],
    kind: &[u8],
    tokens: &mut Tokens,
) -> Result<Command, LineStop>
    ensures { Reads result (chosen (value_in (region_forms name.now) kind.now) tokens.old) }
{
    if kind == b"container".as_slice() {
        container(alloc, name, tokens)
    } else if kind == b"ram".as_slice() {
        ram(alloc, name, tokens)
    } else if kind == b"rom".as_slice() {
        rom(alloc, name, tokens)
    } else if kind == b"romdev".as_slice() {
        romdev(alloc, name, tokens)
    } else if kind == b"io".as_slice() {
        io(alloc, name, tokens)
    } else if kind == b"iommu".as_slice() {
        iommu(alloc, name, tokens)
    } else if kind == b"alias".as_slice() {
        alias(alloc, name, tokens)
    } else if kind == b"reserve".as_slice() {
        reserve(alloc, name, tokens)
    } else {
        Err(LineStop::Bad(Cause::Word))
    }
}

/// `region NAME`, and the kind with what it takes.
pub fn region(alloc: Global, tokens: &mut Tokens) -> Result<Command, LineStop>
    ensures { Reads result (region tokens.old) }
{
    let name = tokens.name()?;
    let kind = tokens.token()?;
    region_of_kind(alloc, name, kind, tokens)
}
