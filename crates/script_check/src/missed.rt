// The views that were printed, and that no space of a script has.
ghost use Rattle.std.specs.Prelude.{◌≡◌, ◌++◌, IfOk, OnOk};
ghost use Rattle.script_check.specs.Checks.{compared_with, first_name, has_view, is_missed, missed_line, missed_part, missed_text, shows_view};
ghost use Rattle.script_check.specs.Checks.{name_line, some_missed};

use crate::blocks::Block;
use mem_base::{Name, RegionId, SpaceId};
use race_lines::ranges_in;
use script_lines::Line;
use script_memory::ToldMap;
use std::alloc::{AllocError, Global};
use view_check::first_difference;

// Whether the view of a space is one that was printed.
fn shows_view(
    alloc: Global,
    map: &ToldMap,
    memory: &[RegionId],
    blocks: &[Block],
    block: &Block,
    space: SpaceId,
) -> Result<bool, AllocError>
    ensures { let x = compared_with map.now memory.now blocks.now in IfOk result (λ s. s ≡ shows_view x block.now space) }
{
    let view = ranges_in(map.generation(), space);
    match first_difference(alloc, map.names(), memory, block.rows(), view)? {
        None => Ok(true),
        Some(_) => Ok(false),
    }
}

// Whether that of one of some spaces is.
fn has_view(
    alloc: Global,
    map: &ToldMap,
    memory: &[RegionId],
    blocks: &[Block],
    block: &Block,
    spaces: &[(SpaceId, RegionId)],
) -> Result<bool, AllocError>
    ensures { let x = compared_with map.now memory.now blocks.now in IfOk result (λ h. h ≡ has_view x block.now spaces.now) }
{
    for (space, _) in spaces {
        if shows_view(alloc, map, memory, blocks, block, *space)? {
            return Ok(true);
        }
    }
    Ok(false)
}

// Whether a view was printed of a space, and is that of none of some spaces.
fn is_missed(
    alloc: Global,
    map: &ToldMap,
    memory: &[RegionId],
    blocks: &[Block],
    block: &Block,
    spaces: &[(SpaceId, RegionId)],
) -> Result<bool, AllocError>
    ensures { let x = compared_with map.now memory.now blocks.now in IfOk result (λ m. m ≡ is_missed x spaces.now block.now) }
{
    if block.spaces().is_empty() {
        return Ok(false);
    }
    let found = has_view(alloc, map, memory, blocks, block, spaces)?;
    Ok(!found)
}

// The first of some names.
fn first_name(names: &[Name]) -> &[u8]
    ensures { result.now ≡ first_name names.now }
{
    match names {
        [first, ..] => first.as_bytes(),
        [] => b"".as_slice(),
    }
}

// `QEMU's view of NAME: no space of the script shows it`.
#[tactic(auto, unfolding(crate::specs::Checks::name_line))]
fn add_name_line(text: &mut Line, name: &[u8]) -> Result<(), AllocError>
    ensures { OnOk result (text.new ≡ text.old ++ name_line name.now) }
{
    text.named("QEMU's view of ", name)?;
    text.text(": no space of the script shows it")?;
    text.end()
}

// The same of a view, by its first name.
fn add_line(text: &mut Line, block: &Block) -> Result<(), AllocError>
    ensures { OnOk result (text.new ≡ text.old ++ missed_line block.now) }
{
    add_name_line(text, first_name(block.spaces()))
}

// Tells of a view where it is missed, and answers whether it is.
fn add_missed(
    alloc: Global,
    text: &mut Line,
    map: &ToldMap,
    memory: &[RegionId],
    blocks: &[Block],
    block: &Block,
    spaces: &[(SpaceId, RegionId)],
) -> Result<bool, AllocError>
    ensures text { let x = compared_with map.now memory.now blocks.now in
        OnOk result (text.new ≡ text.old ++ missed_part x spaces.now block.now) }
    ensures missed { let x = compared_with map.now memory.now blocks.now in IfOk result (λ m. m ≡ is_missed x spaces.now block.now) }
{
    let missed = is_missed(alloc, map, memory, blocks, block, spaces)?;
    if missed {
        add_line(text, block)?;
    }
    Ok(missed)
}

/// Tells of each view that was printed of a space, and is that of none of some spaces; answers whether there is one.
pub(crate) fn add_all_missed(
    alloc: Global,
    text: &mut Line,
    map: &ToldMap,
    memory: &[RegionId],
    blocks: &[Block],
    spaces: &[(SpaceId, RegionId)],
) -> Result<bool, AllocError>
    ensures text { let x = compared_with map.now memory.now blocks.now in
        OnOk result (text.new ≡ text.old ++ missed_text x spaces.now blocks.now) }
    ensures missed { let x = compared_with map.now memory.now blocks.now in IfOk result (λ m. m ≡ some_missed x spaces.now blocks.now) }
{
    let mut missed = false;
    for block in blocks {
        if add_missed(alloc, text, map, memory, blocks, block, spaces)? {
            missed = true;
        }
    }
    Ok(missed)
}
