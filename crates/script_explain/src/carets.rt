// A line of a script with what is at fault in it.
ghost use Rattle.std.specs.Prelude.{◌≡◌, ◌++◌, codes, drop, take, flat_map, IfOk, OnOk};
ghost use Rattle.script_explain.specs.Faults.{blank, caret_text, carets, number_text, shown_text, source_text, under_text};

use script_lines::Line;
use script_marks::Mark;
use std::alloc::{AllocError, Global};

// The first bytes, as many as a count says.
pub(crate) fn first_of(text: &[u8], count: usize) -> &[u8]
    ensures { result.now ≡ take count text.now }
{
    text.split_at(text.len().min(count)).0
}

// What stands after the first bytes.
pub(crate) fn after_first(text: &[u8], count: usize) -> &[u8]
    ensures { result.now ≡ drop count text.now }
{
    text.split_at(text.len().min(count)).1
}

// A blank as wide as a byte.
fn blank_of(byte: u8) -> &'static str
    ensures { result.now ≡ blank byte }
{
    if byte == b'\t' { "\t" } else { " " }
}

// A blank for each byte, as wide as it.
fn add_blanks(out: &mut Line, bytes: &[u8]) -> Result<(), AllocError>
    ensures { OnOk result (out.new ≡ out.old ++ flat_map blank bytes.now) }
{
    for byte in bytes {
        out.text(blank_of(*byte))?;
    }
    Ok(())
}

// A caret for each byte.
fn add_each_caret(out: &mut Line, bytes: &[u8]) -> Result<(), AllocError>
    ensures { OnOk result (out.new ≡ out.old ++ flat_map (λ b. codes "^") bytes.now) }
{
    for _ in bytes {
        out.text("^")?;
    }
    Ok(())
}

// The same, and one where there is no byte.
fn add_carets(out: &mut Line, bytes: &[u8]) -> Result<(), AllocError>
    ensures { OnOk result (out.new ≡ out.old ++ carets bytes.now) }
{
    if bytes.is_empty() {
        out.text("^")
    } else {
        add_each_caret(out, bytes)
    }
}

// What stands before a line: its number.
fn number_of(alloc: Global, number: u32) -> Result<Line, AllocError>
    ensures { IfOk result (λ line. line ≡ number_text number) }
{
    let mut line = Line::new(alloc);
    line.counted("  ", u64::from(number))?;
    Ok(line)
}

// A line with its number.
fn add_source(out: &mut Line, number: &Line, line: &[u8]) -> Result<(), AllocError>
    ensures { OnOk result (out.new ≡ out.old ++ source_text number.now line.now) }
{
    out.bytes(number.as_bytes())?;
    out.text(" | ")?;
    out.bytes(line)?;
    out.end()
}

// Carets below what is marked of the line.
fn add_caret_line(out: &mut Line, number: &Line, line: &[u8], mark: Mark) -> Result<(), AllocError>
    ensures { OnOk result (out.new ≡ out.old ++ caret_text number.now line.now mark) }
{
    add_blanks(out, number.as_bytes())?;
    out.text(" | ")?;
    add_blanks(out, first_of(line, mark.start))?;
    add_carets(out, first_of(after_first(line, mark.start), mark.len))?;
    out.end()
}

// What is marked of the line, if something is.
fn add_marked(
    out: &mut Line,
    number: &Line,
    line: &[u8],
    mark: Option<Mark>,
) -> Result<(), AllocError>
    ensures { OnOk result (out.new ≡ out.old ++ under_text number.now line.now mark) }
{
    match mark {
        Some(mark) => add_caret_line(out, number, line, mark),
        None => Ok(()),
    }
}

/// A line of a script with its number, and what is marked of it; nothing where the number is 0.
pub(crate) fn add_shown(
    alloc: Global,
    out: &mut Line,
    number: u32,
    line: &[u8],
    mark: Option<Mark>,
) -> Result<(), AllocError>
    ensures { OnOk result (out.new ≡ out.old ++ shown_text number line.now mark) }
{
    if number == 0 {
        return Ok(());
    }
    let head = number_of(alloc, number)?;
    add_source(out, &head, line)?;
    add_marked(out, &head, line, mark)
}
