// The whole script.
ghost use Rattle.std.specs.Prelude.{◌≡◌, IfOk};
ghost use Rattle.mem_base.specs.script.Make.{made_of};
ghost use Rattle.script_make.specs.Texts.{commands_of_seed};

use crate::accesses::draw_accesses;
use crate::draws::name_of;
use crate::regions::{draw_regions, size_of};
use mem_base::{Command, RegionKind};
use rand_pcg::Lcg64Xsh32;
use std::alloc::{AllocError, Global};

// The commands of the parts of a script, in their places.
fn made_of(
    alloc: Global,
    mut regions: Vec<Command>,
    mut accesses: Vec<Command>,
) -> Result<Vec<Command>, AllocError>
    ensures { IfOk result (λ commands. commands.items ≡ made_of regions.items accesses.items) }
{
    let mut commands = Vec::new(alloc);
    commands.push(Command::Machine {
        size: size_of(0x1000000),
    })?;
    commands.push(Command::Region {
        name: name_of(alloc, b"sys")?,
        size: size_of(0x40000000),
        kind: RegionKind::Container,
    })?;
    commands.push(Command::Begin)?;
    commands.push(Command::Space {
        name: name_of(alloc, b"s")?,
        root: name_of(alloc, b"sys")?,
    })?;
    commands.append(&mut regions)?;
    commands.push(Command::Commit)?;
    commands.append(&mut accesses)?;
    commands.push(Command::Show {
        space: name_of(alloc, b"s")?,
    })?;
    Ok(commands)
}

/// The commands of the script of a seed, by the words of `Lcg64Xsh32::new(seed, 54)`.
pub fn generated(alloc: Global, seed: u64) -> Result<Vec<Command>, AllocError>
    ensures { IfOk result (λ commands. commands.items ≡ commands_of_seed seed) }
{
    let mut rng = Lcg64Xsh32::new(seed, 54);
    let regions = draw_regions(alloc, &mut rng, 2000)?;
    let accesses = draw_accesses(alloc, &mut rng, 20_000)?;
    let commands = made_of(alloc, regions, accesses)?;
    Ok(commands)
}
