// `draw`.
ghost use Rattle.std.specs.Prelude.{◌≡◌, ◌^◌, true, false, is_some, IfOk, IfErr, OnOk, None, Some};
ghost use Rattle.mem_base.specs.script.Shows.{shown_forest};
ghost use Rattle.mem_base.specs.script.States.{space_named};
ghost use Rattle.mem_base.specs.views.Flattened.{view_of};
ghost use Rattle.view_picture.specs.Rows.{Tiles, ranges_of};
ghost use Rattle.scope_run.specs.Scripts.{FailsIn, FailsOn, OfScript, told_by};

use crate::answers::{Answer, Fault, Which, stopped, told};
use crate::views::{root_in, view_in};
use mem_base::{Name, SpaceId};
use scope_words::Style;
use script_lines::Line;
use script_memory::{ToldMap, read_told};
use script_names::Names;
use std::alloc::{AllocError, Global};
use view_picture::{Row, Window, add_picture, add_svg, rows_of, windows_of};

// The windows of the tree under a space.
fn windows_in(alloc: Global, map: &ToldMap, space: SpaceId) -> Result<Vec<Window>, AllocError> {
    let generation = map.generation();
    match root_in(generation, space) {
        Some(root) => windows_of(alloc, &generation.forest().nodes, root),
        None => Ok(Vec::new(alloc)),
    }
}

/// The rows of a space's view, from the first address to the last.
pub fn rows_in(alloc: Global, map: &ToldMap, space: SpaceId) -> Result<Vec<Row>, AllocError>
    ensures tiles { IfOk result (λ rows. Tiles 0 (2 ^ 64) rows.items) }
    ensures ranges { IfOk result (λ rows. ranges_of rows.items ≡ view_of (shown_forest map.now.state) space) }
{
    let view = view_in(alloc, map.generation(), space)?;
    rows_of(alloc, &view)
}

// Adds rows and windows as a picture.
fn add_drawing(
    alloc: Global,
    text: &mut Line,
    names: &Names,
    rows: &[Row],
    windows: &[Window],
    style: Style,
) -> Result<(), AllocError> {
    match style {
        Style::Text => add_picture(alloc, text, names, rows, windows),
        Style::Svg => add_svg(alloc, text, names, rows, windows),
    }
}

// Adds the picture of a space.
fn add_space(
    alloc: Global,
    text: &mut Line,
    map: &ToldMap,
    space: SpaceId,
    style: Style,
) -> Result<(), AllocError> {
    let rows = rows_in(alloc, map, space)?;
    let windows = windows_in(alloc, map, space)?;
    add_drawing(
        alloc,
        text,
        map.names(),
        rows.as_slice(),
        windows.as_slice(),
        style,
    )
}

fn picture_of(
    alloc: Global,
    map: &ToldMap,
    space: SpaceId,
    style: Style,
) -> Result<Line, AllocError> {
    let mut text = Line::new(alloc);
    add_space(alloc, &mut text, map, space, style)?;
    Ok(text)
}

fn draw_in(alloc: Global, map: &ToldMap, space: &Name, style: Style) -> Result<Answer, Fault>
    ensures named { OnOk result (is_some (space_named map.now.state space.now) ≡ true) }
    ensures nothing { IfOk result (λ a. a.something ≡ false) }
    ensures fails { IfErr result (λ fault. FailsIn map.now.state (Some space.now) None fault) }
{
    let Some(space) = map.space(space) else {
        return Err(Fault::NoSpace);
    };
    let text = picture_of(alloc, map, space, style)?;
    Ok(told(text))
}

/// A picture of the view of a space in the map that a script leaves. How it is drawn is not said here; its rows are those of the view.
///
/// There is never something to mend. It answers `Script` where the text is no script, `NoSpace` where the script leaves no space of the name.
pub fn draw(alloc: Global, script: &[u8], space: &Name, style: Style) -> Result<Answer, Fault>
    ensures named { OnOk result (OfScript script.now (λ lines. is_some (space_named (told_by script.now lines) space.now) ≡ true)) }
    ensures nothing { IfOk result (λ a. a.something ≡ false) }
    ensures fails { IfErr result (λ fault. FailsOn script.now (Some space.now) None fault) }
{
    match read_told(alloc, script) {
        Ok(map) => {
            let answer = draw_in(alloc, &map, space, style);
            drop(map);
            answer
        }
        Err(stop) => Err(stopped(Which::First, stop)),
    }
}
