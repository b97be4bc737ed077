// Lines that are refused become comments.

use script_lines::Line;
use script_map::RefusedLine;
use std::alloc::{AllocError, Global};

// The refusal of a line, if it is refused.
fn refusal_of(refused: &[RefusedLine], number: u32) -> Option<&RefusedLine> {
    for refusal in refused {
        if refusal.line() == number {
            return Some(refusal);
        }
    }
    None
}

// Adds a line, as a comment where it is refused.
fn add_line(
    text: &mut Line,
    refused: &[RefusedLine],
    number: u32,
    line: &[u8],
) -> Result<(), AllocError> {
    if let Some(refusal) = refusal_of(refused, number) {
        text.named("# refused (", refusal.words())?;
        text.text("): ")?;
    }
    text.bytes(line)
}

/// A text with a comment in the place of each refused line.
pub(crate) fn without_refused(
    alloc: Global,
    text: &[u8],
    refused: &[RefusedLine],
) -> Result<Line, AllocError> {
    let mut kept = Line::new(alloc);
    let mut number = 0u32;
    for line in text.split(|byte| *byte == b'\n') {
        if number > 0 {
            kept.end()?;
        }
        number = number.saturating_add(1);
        add_line(&mut kept, refused, number, line)?;
    }
    Ok(kept)
}
