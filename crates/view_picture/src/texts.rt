// A picture as text for a terminal.

use crate::rows::Row;
use crate::shapes::{add_filled, add_repeated, add_size, kind_of};
use crate::windows::Window;
use mem_base::FlatRange;
use script_lines::Line;
use script_names::Names;
use std::alloc::{AllocError, Global};

// How wide a box is.
const WIDTH: usize = 40;

// The edge above a box: the address, and a rule.
fn add_edge(out: &mut Line, alloc: Global, addr: u64) -> Result<(), AllocError> {
    let mut digits = Line::new(alloc);
    digits.hex(addr)?;
    add_repeated(out, " ", 16usize.saturating_sub(digits.as_bytes().len()))?;
    out.bytes(digits.as_bytes())?;
    out.text(" +")?;
    add_repeated(out, "-", WIDTH)?;
    out.text("+")
}

// What stands in the box of a range: its leaf, the offset there, the kind, the flags and the size.
fn range_label(alloc: Global, names: &Names, range: FlatRange) -> Result<Line, AllocError> {
    let mut label = Line::new(alloc);
    label.named(" ", names.region_name(range.leaf))?;
    if range.offset != 0 {
        label.placed(" @", range.offset)?;
    }
    label.named(" ", kind_of(names, range.leaf).as_bytes())?;
    if range.attrs.readonly {
        label.text(" ro")?;
    }
    if range.attrs.romd {
        label.text(" romd")?;
    }
    label.text("  ")?;
    add_size(&mut label, range.last.saturating_sub(range.start))?;
    Ok(label)
}

// What stands in the fold of a hole: its size.
fn hole_label(alloc: Global, start: u64, last: u64) -> Result<Line, AllocError> {
    let mut label = Line::new(alloc);
    if last == u64::MAX {
        label.text(" (nothing to the end)")?;
    } else {
        label.text(" (nothing)  ")?;
        add_size(&mut label, last.saturating_sub(start))?;
    }
    Ok(label)
}

// The line within a box.
fn add_inside(out: &mut Line, alloc: Global, names: &Names, row: Row) -> Result<(), AllocError> {
    add_repeated(out, " ", 16)?;
    match row {
        Row::Range(range) => {
            let label = range_label(alloc, names, range)?;
            out.text(" |")?;
            add_filled(out, label.as_bytes(), WIDTH)?;
            out.text("|")
        }
        Row::Hole { start, last } => {
            let label = hole_label(alloc, start, last)?;
            out.text(" :")?;
            add_filled(out, label.as_bytes(), WIDTH)?;
            out.text(":")
        }
    }
}

// A line of a box, on which windows may be told.
fn add_lead(
    out: &mut Line,
    alloc: Global,
    names: &Names,
    row: Row,
    line: usize,
) -> Result<(), AllocError> {
    match line {
        0 => add_edge(out, alloc, row.start()),
        1 => add_inside(out, alloc, names, row),
        _ => {
            add_repeated(out, " ", 17)?;
            let side = if let Row::Hole { .. } = row { ":" } else { "|" };
            out.text(side)?;
            add_repeated(out, " ", WIDTH)?;
            out.text(side)
        }
    }
}

// A window of the tree: indented by what it stands in, with its addresses, a priority that is not 0, and what an alias shows.
fn add_window(out: &mut Line, names: &Names, window: Window) -> Result<(), AllocError> {
    out.text("  ")?;
    add_repeated(out, "  ", window.depth as usize)?;
    out.bytes(names.region_name(window.region))?;
    out.placed(" ", window.first)?;
    out.placed("-", window.last)?;
    if window.priority != 0 {
        out.text(" prio ")?;
        if window.priority < 0 {
            out.text("-")?;
        }
        out.decimal(u64::from(window.priority.unsigned_abs()))?;
    }
    match window.target {
        Some(target) => out.named(" -> ", names.region_name(target)),
        None => Ok(()),
    }
}

// A row: its box, and beside it the windows that begin in it.
fn add_row(
    out: &mut Line,
    alloc: Global,
    names: &Names,
    row: Row,
    windows: &[Window],
) -> Result<(), AllocError> {
    let mut line = 0usize;
    for window in windows {
        if row.start() <= window.first && window.first <= row.last() {
            add_lead(out, alloc, names, row, line)?;
            add_window(out, names, *window)?;
            out.end()?;
            line = line.saturating_add(1);
        }
    }
    for index in line..2 {
        add_lead(out, alloc, names, row, index)?;
        out.end()?;
    }
    Ok(())
}

/// A picture as text: for each row the address at which it begins and a box with what answers there, and beside it the windows
/// of the tree that begin there, each indented by what it stands in. A hole is folded, however long.
pub fn add_picture(
    alloc: Global,
    out: &mut Line,
    names: &Names,
    rows: &[Row],
    windows: &[Window],
) -> Result<(), AllocError> {
    for row in rows {
        add_row(out, alloc, names, *row, windows)?;
    }
    add_repeated(out, " ", 17)?;
    out.text("+")?;
    add_repeated(out, "-", WIDTH)?;
    out.text("+\n")
}
