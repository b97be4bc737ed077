// The regions that are read as memory.
ghost use Rattle.std.specs.Prelude.{◌≡◌, ◌++◌, ◌∷◌, IfOk, List, OnOk};
ghost use Rattle.mem_base.specs.script.Scripts.{Line};
ghost use Rattle.script_memory.specs.Regions.{asks_device, asks_region, device_by, is_refused_at, makes_region, memory_from, memory_of};

use crate::comments::{is_commented_at, lines_commented};
use mem_base::{Command, RegionId, RegionKind};
use script_map::RefusedLine;
use std::alloc::{AllocError, Global};

// Whether a command asks for a region.
fn asks_region(command: &Command) -> bool
    ensures { result ≡ asks_region command.now }
{
    matches!(command, Command::Region { .. })
}

// Whether a command asks for a device.
fn asks_device(command: &Command) -> bool
    ensures { result ≡ asks_device command.now }
{
    matches!(
        command,
        Command::Region {
            kind: RegionKind::Io(_),
            ..
        }
    )
}

// Whether the command of a line was refused.
fn is_refused_at(refused: &[RefusedLine], number: u32) -> bool
    ensures { result ≡ is_refused_at refused.now number }
{
    refused.iter().any(|one| one.line() == number)
}

// Whether the command of a line made a region.
fn makes_region(refused: &[RefusedLine], number: u32, command: &Command) -> bool
    ensures { result ≡ makes_region refused.now (number, command.now) }
{
    asks_region(command) && !is_refused_at(refused, number)
}

// Adds the region with this number, where the line that made it makes a device and ends with the comment.
fn add_device(
    found: &mut Vec<RegionId>,
    commented: &[bool],
    count: u32,
    number: u32,
    command: &Command,
) -> Result<(), AllocError>
    ensures { OnOk result (found.new.items ≡ found.old.items ++ device_by commented.now count (number, command.now)) }
{
    if asks_device(command) && is_commented_at(commented, number) {
        found.push(RegionId(count))?;
    }
    Ok(())
}

// One line more, after those that made `count` regions; it answers how many there are then. There are never 2^32.
fn take_line(
    found: &mut Vec<RegionId>,
    commented: &[bool],
    refused: &[RefusedLine],
    count: u32,
    number: u32,
    command: &Command,
) -> Result<u32, AllocError>
    ensures { (rest : List Line) → IfOk result (λ next. found.new.items ++ memory_from commented.now refused.now next rest
        ≡ found.old.items ++ memory_from commented.now refused.now count ((number, command.now) ∷ rest)) }
{
    if !makes_region(refused, number, command) {
        return Ok(count);
    }
    let Some(next) = count.checked_add(1) else {
        return Err(AllocError);
    };
    add_device(found, commented, count, number, command)?;
    Ok(next)
}

// Those that some lines make.
fn memory_among(
    alloc: Global,
    commented: &[bool],
    refused: &[RefusedLine],
    lines: &[(u32, Command)],
) -> Result<Vec<RegionId>, AllocError>
    ensures { IfOk result (λ found. found.items ≡ memory_from commented.now refused.now 0 lines.now) }
{
    let mut found = Vec::new(alloc);
    let mut count = 0;
    for (number, command) in lines {
        count = take_line(&mut found, commented, refused, count, *number, command)?;
    }
    Ok(found)
}

/// The regions that are read as memory, by a script's text, its commands, and those of them that were refused.
pub(crate) fn memory_of(
    alloc: Global,
    text: &[u8],
    refused: &[RefusedLine],
    lines: &[(u32, Command)],
) -> Result<Vec<RegionId>, AllocError>
    ensures { IfOk result (λ found. found.items ≡ memory_of text.now refused.now lines.now) }
{
    let commented = lines_commented(alloc, text)?;
    memory_among(alloc, &commented, refused, lines)
}
