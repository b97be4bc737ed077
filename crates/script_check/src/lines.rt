// What is told of a space.
ghost use Rattle.std.specs.Prelude.{◌≡◌, ◌++◌, OnOk};
ghost use Rattle.std.specs.List.{slice_get};
ghost use Rattle.mem_base.specs.script.RefusalLines.{line_feed};
ghost use Rattle.script_names.specs.Tables.{printed_names};
ghost use Rattle.script_check.specs.Told.{kind_word, range_or_none, row_in, row_or_none, row_text, two_lines, verdict_text, volatile_word};

use crate::blocks::Block;
use crate::verdicts::Verdict;
use mem_base::FlatRange;
use monitor_text::{FlatRow, RowKind};
use script_lines::{Line, add_range_line};
use script_names::Names;
use std::alloc::AllocError;

fn kind_word(kind: RowKind) -> &'static str
    ensures { result.now ≡ kind_word kind }
{
    match kind {
        RowKind::Ram => "ram",
        RowKind::Rom => "rom",
        RowKind::RomDevice => "romd",
        RowKind::RamDevice => "ramd",
        RowKind::Io => "i/o",
    }
}

// What stands before the word of a kind.
fn volatile_word(nonvolatile: bool) -> &'static str
    ensures { result.now ≡ volatile_word nonvolatile }
{
    if nonvolatile { " nv-" } else { " " }
}

// `START-LAST NAME @OFFSET KIND`.
fn add_row(text: &mut Line, row: &FlatRow) -> Result<(), AllocError>
    ensures { OnOk result (text.new ≡ text.old ++ row_text row.now) }
{
    text.hex(row.start)?;
    text.placed("-", row.last)?;
    text.named(" ", row.name.as_bytes())?;
    text.placed(" @", row.offset)?;
    text.text(volatile_word(row.nonvolatile))?;
    add_line(text, kind_word(row.kind))
}

// A text as a line.
fn add_line(text: &mut Line, said: &str) -> Result<(), AllocError>
    ensures { OnOk result (text.new ≡ text.old ++ (said.now ++ line_feed)) }
{
    text.text(said)?;
    text.end()
}

// The range with this number, counted from 0, of those that were printed.
fn add_row_at(text: &mut Line, rows: &[FlatRow], at: usize) -> Result<(), AllocError>
    ensures { OnOk result (text.new ≡ text.old ++ row_or_none (slice_get rows.now at)) }
{
    match rows.get(at) {
        Some(row) => add_row(text, row),
        None => add_line(text, "nothing more"),
    }
}

// The same of the view with this number.
fn add_row_in(text: &mut Line, blocks: &[Block], block: usize, at: usize) -> Result<(), AllocError>
    ensures { OnOk result (text.new ≡ text.old ++ row_or_none (row_in (slice_get blocks.now block) at)) }
{
    match blocks.get(block) {
        Some(block) => add_row_at(text, block.rows(), at),
        None => add_line(text, "nothing more"),
    }
}

// The range with this number that the script shows.
fn add_range_at(
    text: &mut Line,
    names: &Names,
    view: &[FlatRange],
    at: usize,
) -> Result<(), AllocError>
    ensures { OnOk result (text.new ≡ text.old ++ range_or_none (printed_names names.now) (slice_get view.now at)) }
{
    match view.get(at) {
        Some(range) => add_range_line(text, names, *range),
        None => add_line(text, "nothing more"),
    }
}

// A range as QEMU's monitor and as the script has it.
fn add_two_lines(
    text: &mut Line,
    names: &Names,
    view: &[FlatRange],
    blocks: &[Block],
    block: usize,
    at: usize,
) -> Result<(), AllocError>
    ensures { OnOk result
        (text.new ≡ text.old ++ two_lines (printed_names names.now) view.now (slice_get blocks.now block) at) }
{
    text.text("  QEMU:   ")?;
    add_row_in(text, blocks, block, at)?;
    text.text("  script: ")?;
    add_range_at(text, names, view, at)
}

// A name, and what is said of it, as a line.
fn add_said(text: &mut Line, name: &[u8], said: &str) -> Result<(), AllocError>
    ensures { OnOk result (text.new ≡ text.old ++ (name.now ++ (said.now ++ line_feed))) }
{
    text.bytes(name)?;
    text.text(said)?;
    text.end()
}

/// `NAME same`; or `NAME differs`, and the first range that differs, as QEMU and as the script has it; or that no view names the space.
pub(crate) fn add_verdict(
    text: &mut Line,
    names: &Names,
    name: &[u8],
    view: &[FlatRange],
    blocks: &[Block],
    verdict: Verdict,
) -> Result<(), AllocError>
    ensures { OnOk result
        (text.new ≡ text.old ++ verdict_text (printed_names names.now) name.now view.now blocks.now verdict) }
{
    match verdict {
        Verdict::Same => add_said(text, name, " same"),
        Verdict::Unprinted => add_said(text, name, " is not in the monitor's text"),
        Verdict::Differs { block, at } => {
            add_said(text, name, " differs")?;
            add_two_lines(text, names, view, blocks, block, at)
        }
    }
}
