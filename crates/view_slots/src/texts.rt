// The lines of slots.
ghost use Rattle.std.specs.Prelude.{◌≡◌, ◌++◌, OnOk};
ghost use Rattle.script_names.specs.Tables.{printed_names};
ghost use Rattle.view_slots.specs.Texts.{header_line, range_of, sign_text, slot_line, step_line};

use mem_base::{FlatRange, RangeEvent};
use script_lines::{Line, add_range_line};
use script_names::Names;
use std::alloc::AllocError;

/// `slots SPACE gN`, which the slots of that generation follow.
pub fn add_header(line: &mut Line, space: &[u8], generation: u64) -> Result<(), AllocError>
    ensures { OnOk result (line.new ≡ line.old ++ header_line space.now generation) }
{
    line.named("slots ", space)?;
    line.counted(" g", generation)?;
    line.end()
}

/// `slot N RANGE`: a slot by its number, with the range that it shows.
pub fn add_slot(
    line: &mut Line,
    number: u64,
    names: &Names,
    range: FlatRange,
) -> Result<(), AllocError>
    ensures { OnOk result (line.new ≡ line.old ++ slot_line number (printed_names names.now) range) }
{
    line.counted("slot ", number)?;
    line.text(" ")?;
    add_range_line(line, names, range)
}

fn sign(step: RangeEvent) -> &'static str
    ensures { result.now ≡ sign_text step }
{
    match step {
        RangeEvent::Delete(_) => "- ",
        RangeEvent::Add(_) => "+ ",
        RangeEvent::Keep(_) => "  ",
        RangeEvent::LogStart { .. } | RangeEvent::LogStop { .. } => "l ",
    }
}

fn range_of(step: RangeEvent) -> FlatRange
    ensures { result ≡ range_of step }
{
    match step {
        RangeEvent::Delete(range) => range,
        RangeEvent::Add(range) => range,
        RangeEvent::Keep(range) => range,
        RangeEvent::LogStart { range, .. } => range,
        RangeEvent::LogStop { range, .. } => range,
    }
}

/// One step as a line: `-` before a slot that goes, `+` before one that comes, two spaces before one that stays, and `l` where
/// only its logging mask changes.
pub fn add_step(
    line: &mut Line,
    number: u64,
    names: &Names,
    step: RangeEvent,
) -> Result<(), AllocError>
    ensures { OnOk result (line.new ≡ line.old ++ step_line number (printed_names names.now) step) }
{
    line.text(sign(step))?;
    add_slot(line, number, names, range_of(step))
}
