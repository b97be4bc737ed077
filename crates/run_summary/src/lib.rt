//! The summary of what a run wrote: seven numbers, counted over its lines. This project's own.
//!
//! The layer above may rely on it that `summary` is the defined one for every text.
#![tactic(auto)]

ghost use Rattle.std.specs.Prelude.{◌≡◌, ◌<◌, ◌^◌, ◌++◌, IfOk, OnOk, length, position, IfSome, ◌==◌};
ghost use Rattle.mem_base.specs.script.Summary.{lines_in, number_line, summary};
ghost use Rattle.run_summary.specs.Counted.{counted, kinds_of, view_of};

mod counts;
mod kinds;

use crate::counts::Counts;
use script_lines::Line;
use std::alloc::{AllocError, Global};

// Where the first line ends.
fn line_end(text: &[u8]) -> Option<usize>
    ensures value { result ≡ position (λ b. b == 10) text.now }
    ensures bound { IfSome result (λ i. i < length text.now) }
{
    text.iter().position(|byte| *byte == b'\n')
}

// Counts the lines of a text; what stands after the last line feed is no line.
fn counts_of(text: &[u8]) -> Counts
    requires { length text.now < 2 ^ 63 }
    ensures { result ≡ counted (lines_in text.now) }
{
    let mut counts = Counts::new();
    let mut rest = text;
    while let Some(end) = line_end(rest) {
        let (line, after) = rest.split_at(end);
        counts.add(line);
        rest = after.split_at(1).1;
    }
    counts
}

// A number with its name, as one line.
fn add_number(line: &mut Line, name: &str, number: u64) -> Result<(), AllocError>
    ensures { OnOk result (line.new ≡ line.old ++ number_line name.now number) }
{
    line.text(name)?;
    line.text(" ")?;
    line.decimal(number)?;
    line.end()
}

// How many lines there are, and of which kinds.
fn add_kinds(line: &mut Line, counts: &Counts) -> Result<(), AllocError>
    ensures { OnOk result (line.new ≡ line.old ++ kinds_of counts.now) }
{
    add_number(line, "lines", counts.lines())?;
    add_number(line, "refused", counts.refused())?;
    add_number(line, "ok", counts.ok())?;
    add_number(line, "error", counts.error())?;
    add_number(line, "decode", counts.decode())
}

// The last view.
fn add_view(line: &mut Line, counts: &Counts) -> Result<(), AllocError>
    ensures { OnOk result (line.new ≡ line.old ++ view_of counts.now) }
{
    add_number(line, "ranges", counts.ranges())?;
    add_number(line, "generation", counts.generation())
}

/// The summary of a run's text, as seven lines: how many lines it has; how many of them tell a refusal, an access without a
/// fault, one with an error, one with a decode error; how many lines follow the beginning of the last view, and that view's
/// generation.
///
/// It fails only where memory runs out.
pub fn summary(alloc: Global, text: &[u8]) -> Result<Line, AllocError>
    ensures { IfOk result (λ line. line ≡ summary text.now) }
{
    let counts = counts_of(text);
    let mut line = Line::new(alloc);
    add_kinds(&mut line, &counts)?;
    add_view(&mut line, &counts)?;
    Ok(line)
}
