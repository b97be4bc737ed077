// The lines of a difference.
ghost use Rattle.std.specs.Prelude.{◌≡◌, ◌++◌, OnOk};
ghost use Rattle.mem_base.specs.script.SpotLines.{attrs_text, flag_text, log_text};
ghost use Rattle.view_diff.specs.Lines.{range_text, signed_line, step_text};

use mem_base::{Attrs, FlatRange, RangeEvent};
use script_lines::Line;
use script_names::NameTable;
use std::alloc::AllocError;

fn add_flag(line: &mut Line, on: bool, word: &str) -> Result<(), AllocError>
    ensures { OnOk result (line.new ≡ line.old ++ flag_text on word.now) }
{
    if on { line.text(word) } else { Ok(()) }
}

fn add_log(line: &mut Line, log: u8) -> Result<(), AllocError>
    ensures { OnOk result (line.new ≡ line.old ++ log_text log) }
{
    if log == 0 {
        Ok(())
    } else {
        line.counted(" log=", u64::from(log))
    }
}

fn add_attrs(line: &mut Line, attrs: Attrs) -> Result<(), AllocError>
    ensures { OnOk result (line.new ≡ line.old ++ attrs_text attrs) }
{
    add_flag(line, attrs.readonly, " ro")?;
    add_flag(line, attrs.nonvolatile, " nv")?;
    add_flag(line, attrs.romd, " romd")?;
    add_flag(line, attrs.unmergeable, " um")?;
    add_log(line, attrs.log)
}

/// The range: its addresses, the name and the kind of its leaf, the offset there and its flags.
pub fn add_range(line: &mut Line, labels: &NameTable, range: FlatRange) -> Result<(), AllocError>
    ensures { OnOk result (line.new ≡ line.old ++ range_text labels.now.made range) }
{
    line.hex(range.start)?;
    line.placed("-", range.last)?;
    line.named(" ", labels.name_at(range.leaf.0))?;
    line.placed(" @", range.offset)?;
    add_attrs(line, range.attrs)
}

fn add_signed(
    line: &mut Line,
    sign: &str,
    labels: &NameTable,
    range: FlatRange,
) -> Result<(), AllocError>
    ensures { OnOk result (line.new ≡ line.old ++ signed_line sign.now labels.now.made range) }
{
    line.text(sign)?;
    add_range(line, labels, range)?;
    line.end()
}

/// One step as a line: `-` before a range of the first view alone, `+` before one of the second alone, two spaces before
/// one of both, and `l` where only the logging mask differs, with the mask of the second view.
pub fn add_step(line: &mut Line, labels: &NameTable, step: RangeEvent) -> Result<(), AllocError>
    ensures { OnOk result (line.new ≡ line.old ++ step_text labels.now.made step) }
{
    match step {
        RangeEvent::Delete(range) => add_signed(line, "- ", labels, range),
        RangeEvent::Add(range) => add_signed(line, "+ ", labels, range),
        RangeEvent::Keep(range) => add_signed(line, "  ", labels, range),
        RangeEvent::LogStart { range, .. } => add_signed(line, "l ", labels, range),
        RangeEvent::LogStop { range, .. } => add_signed(line, "l ", labels, range),
    }
}
