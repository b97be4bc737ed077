// What a generation shows of a space.
ghost use Rattle.std.specs.Prelude.{◌≡◌, ◌<◌, ◌++◌, OnOk};
ghost use Rattle.mem_base.specs.map.Search.{look};
ghost use Rattle.mem_base.specs.script.Named.{space_name};
ghost use Rattle.mem_base.specs.script.SpotLines.{at_line, range_lines, view_line};
ghost use Rattle.mem_base.specs.views.Flattened.{view_of};
ghost use Rattle.script_names.specs.Tables.{printed_names};

use crate::lists::add_range_lines;
use generation::Generation;
use mem_base::{Edition, FlatRange, SpaceId, Spot};
use script_lines::{Line, add_at_line, add_view_line};
use script_names::Names;
use std::alloc::AllocError;
use std::marker::Brand;
use std::sync::ledger::{Blank, Ledger};
use step_counter::Steps;

/// What a space shows in a generation; no range where it is not there.
pub fn ranges_in(generation: &Generation, space: SpaceId) -> &[FlatRange]
    ensures { result.now ≡ view_of generation.now.forest space }
{
    match generation.atlas(space) {
        Some(atlas) => atlas.view().as_slice(),
        None => &[],
    }
}

/// What is found at an address of a space; the probes are not counted.
///
/// The caller hands in a blank of one share for the ledger that it picks.
pub fn found_in<L: Ledger>(
    generation: &Generation,
    space: SpaceId,
    addr: u64,
    blank: Blank,
) -> Option<Spot>
    requires name { blank.name ≡ L.name }
    requires parts { blank.parts ≡ L.parts }
    requires counts { 0 < L.parts }
    ensures { result ≡ look generation.now.forest space addr }
{
    generation.knows_forest();
    match generation.atlas(space) {
        Some(atlas) => atlas.at(addr, &mut Steps::<L>::new(blank)),
        None => None,
    }
}

/// Adds the lines of `show SPACE`: the view of a space in a generation.
pub fn add_shown(
    line: &mut Line,
    names: &Names,
    generation: &Generation,
    space: SpaceId,
) -> Result<(), AllocError>
    ensures { OnOk result (line.new ≡ line.old ++ (view_line (space_name (printed_names names.now) space) generation.now.number
        ++ range_lines (printed_names names.now) (view_of generation.now.forest space))) }
{
    add_view_line(line, names.space_name(space), generation.number())?;
    add_range_lines(line, names, ranges_in(generation, space))
}

/// Adds the line of `at SPACE ADDR`: what is found at an address of a space in a generation.
pub fn add_found(
    line: &mut Line,
    names: &Names,
    generation: &Generation,
    space: SpaceId,
    addr: u64,
) -> Result<(), AllocError>
    ensures { OnOk result (line.new ≡ line.old
        ++ at_line (printed_names names.now) (space_name (printed_names names.now) space) addr (look generation.now.forest space addr)) }
{
    let found = found_in::<Brand>(generation, space, addr, Blank::new(1));
    add_at_line(line, names, names.space_name(space), addr, found)
}
