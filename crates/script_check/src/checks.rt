// The spaces of a script beside the monitor's text.
ghost use Rattle.std.specs.Prelude.{◌≡◌, ◌++◌, ◌||◌, IfErr, IfOk, List, OnOk, ℕ};
ghost use Rattle.script_check.specs.Checks.{Explains, IsChecked, IsToldOf, IsToldOfText, ReadsBlocks, compared_with, is_other, some_differs};
ghost use Rattle.script_check.specs.Checks.{some_differ, space_text, space_verdict, spaces_text, told_text};
ghost use Rattle.script_check.specs.declared.faults.CheckFault.TheVariants.{Memory};

use crate::blocks::{Block, blocks_of};
use crate::faults::CheckFault;
use crate::lines::add_verdict;
use crate::missed::add_all_missed;
use crate::verdicts::{Verdict, verdict_of};
use mem_base::{RegionId, SpaceId};
use monitor_text::{MonitorFault, read_flat};
use race_lines::ranges_in;
use script_lines::Line;
use script_memory::{MapStop, ToldMap, read_told};
use std::alloc::{AllocError, Global};

/// What is told of all spaces and views, and whether a space is not told as the same, or a view is missed.
#[derive(Drop)]
pub struct Checked {
    pub text: Line,
    pub differs: bool,
}

// Whether a space is not told as the same.
fn is_other(verdict: Verdict) -> bool
    ensures { result ≡ is_other verdict }
{
    match verdict {
        Verdict::Differs { .. } | Verdict::Unprinted => true,
        Verdict::Same => false,
    }
}

// Tells of one space, and answers whether it is not told as the same.
fn add_space(
    alloc: Global,
    text: &mut Line,
    map: &ToldMap,
    memory: &[RegionId],
    blocks: &[Block],
    space: SpaceId,
) -> Result<bool, AllocError>
    ensures text { let x = compared_with map.now memory.now blocks.now in OnOk result (text.new ≡ text.old ++ space_text x space) }
    ensures differs { let x = compared_with map.now memory.now blocks.now in IfOk result (λ d. d ≡ is_other (space_verdict x space)) }
{
    let names = map.names();
    let name = names.space_name(space);
    let view = ranges_in(map.generation(), space);
    let verdict = verdict_of(alloc, names, memory, blocks, name, view)?;
    add_verdict(text, names, name, view, blocks, verdict)?;
    Ok(is_other(verdict))
}

// Tells of some spaces, in order of making.
fn add_spaces(
    alloc: Global,
    text: &mut Line,
    map: &ToldMap,
    memory: &[RegionId],
    blocks: &[Block],
    spaces: &[(SpaceId, RegionId)],
) -> Result<bool, AllocError>
    ensures text { let x = compared_with map.now memory.now blocks.now in OnOk result (text.new ≡ text.old ++ spaces_text x spaces.now) }
    ensures differs { let x = compared_with map.now memory.now blocks.now in IfOk result (λ d. d ≡ some_differs x spaces.now) }
{
    let mut differs = false;
    for (space, _) in spaces {
        if add_space(alloc, text, map, memory, blocks, *space)? {
            differs = true;
        }
    }
    Ok(differs)
}

// The views of the monitor's text.
fn flat_blocks(alloc: Global, flat: &[u8]) -> Result<Vec<Block>, CheckFault>
    ensures { ReadsBlocks flat.now result }
{
    if flat.len() >= 1 << 31 {
        return Err(CheckFault::Long);
    }
    match read_flat(alloc, flat) {
        Ok(lines) => Ok(blocks_of(alloc, &lines)?),
        Err(MonitorFault::Bad { line }) => Err(CheckFault::Flat { line }),
        Err(MonitorFault::Memory) => Err(CheckFault::Memory),
    }
}

// Whether one of two holds.
fn one_of(a: bool, b: bool) -> bool
    ensures { result ≡ (a || b) }
{
    a || b
}

// What is told of all spaces of a script's map, by its regions that are read as memory.
fn tell_spaces(
    alloc: Global,
    map: &ToldMap,
    memory: &[RegionId],
    blocks: &[Block],
) -> Result<Checked, AllocError>
    ensures text { let x = compared_with map.now memory.now blocks.now in IfOk result (λ c. c.text ≡ told_text x) }
    ensures differs { let x = compared_with map.now memory.now blocks.now in IfOk result (λ c. c.differs ≡ some_differ x) }
{
    let generation = map.generation();
    let forest = generation.forest();
    let spaces = forest.spaces.as_slice();
    let mut text = Line::new(alloc);
    let differs = add_spaces(alloc, &mut text, map, memory, blocks, spaces)?;
    let missed = add_all_missed(alloc, &mut text, map, memory, blocks, spaces)?;
    Ok(Checked {
        text,
        differs: one_of(differs, missed),
    })
}

// The spaces of a script's map.
fn check_map(alloc: Global, blocks: &[Block], map: &ToldMap) -> Result<Checked, CheckFault>
    ensures told { IfOk result (λ c. IsToldOf map.now blocks.now c.text c.differs) }
    ensures fails { IfErr result (λ fault. fault ≡ Memory) }
{
    let checked = tell_spaces(alloc, map, map.memory(), blocks)?;
    Ok(checked)
}

// The spaces of a script beside the views that were printed.
fn check_blocks(alloc: Global, script: &[u8], blocks: &[Block]) -> Result<Checked, CheckFault>
    ensures told { IfOk result (λ c. IsToldOfText script.now blocks.now c.text c.differs) }
    ensures faults { (flat : List ℕ) → IfErr result (Explains script.now flat) }
{
    match read_told(alloc, script) {
        Ok(map) => {
            let checked = check_map(alloc, blocks, &map);
            drop(map);
            checked
        }
        Err(MapStop::Bad(bad)) => Err(CheckFault::Script(bad)),
        Err(MapStop::Memory) => Err(CheckFault::Memory),
    }
}

/// Whether a script's spaces show what `info mtree -f` printed: a line for each that does, or is not printed, and three for one that differs; then a
/// line for each view that was printed of a space, and that no space of the script has.
///
/// Where nothing differs, each space has, range by range, a view that was printed of a space of its name, and each view is that of a space.
pub fn check(alloc: Global, script: &[u8], flat: &[u8]) -> Result<Checked, CheckFault>
    ensures told { IfOk result (λ c. IsChecked script.now flat.now c.text c.differs) }
    ensures faults { IfErr result (Explains script.now flat.now) }
{
    match flat_blocks(alloc, flat) {
        Ok(blocks) => check_blocks(alloc, script, &blocks),
        Err(fault) => Err(fault),
    }
}
