// A picture as SVG.

use crate::layout::layout_of;
use crate::rows::Row;
use crate::shapes::{add_size, kind_of};
use crate::windows::Window;
use script_lines::Line;
use script_names::Names;
use std::alloc::{AllocError, Global};

// A line is 26 high; the boxes of the view are 300 wide from 150 on, and those of windows 240, one column for each depth.
const HIGH: u64 = 26;

const LEFT: u64 = 150;

const WIDE: u64 = 300;

const COLUMN: u64 = 240;

// The color of a kind: memory green, ROM yellow, devices blue, what translates violet, all else grey.
fn color(kind: &str) -> &'static str {
    match kind.as_bytes() {
        b"ram" | b"host" => "#b9e3b4",
        b"rom" | b"romdev" => "#f3e2a0",
        b"io" => "#b6d4f2",
        b"iommu" => "#dcc2ee",
        _ => "#e4e4e4",
    }
}

// The upper edge of a line.
fn edge_of(line: u64) -> u64 {
    line.saturating_mul(HIGH).saturating_add(30)
}

// A box with a color.
fn add_box(
    out: &mut Line,
    x: u64,
    y: u64,
    wide: u64,
    high: u64,
    fill: &str,
) -> Result<(), AllocError> {
    out.counted("<rect x=\"", x)?;
    out.counted("\" y=\"", y)?;
    out.counted("\" width=\"", wide)?;
    out.counted("\" height=\"", high)?;
    out.text("\" fill=\"")?;
    out.text(fill)?;
    out.text("\" stroke=\"#555\"/>\n")
}

// Where a text begins.
fn begin_text(out: &mut Line, x: u64, y: u64, class: &str) -> Result<(), AllocError> {
    out.counted("<text x=\"", x)?;
    out.counted("\" y=\"", y)?;
    out.text("\" class=\"")?;
    out.text(class)?;
    out.text("\">")
}

// What a range or a hole says.
fn add_label(out: &mut Line, names: &Names, row: Row) -> Result<(), AllocError> {
    match row {
        Row::Range(range) => {
            out.bytes(names.region_name(range.leaf))?;
            if range.offset != 0 {
                out.placed(" @", range.offset)?;
            }
            out.named(" ", kind_of(names, range.leaf).as_bytes())?;
            out.text(if range.attrs.readonly { " ro " } else { " " })?;
        }
        Row::Hole { last: u64::MAX, .. } => return out.text("nothing to the end"),
        Row::Hole { .. } => out.text("nothing ")?,
    }
    add_size(out, row.last().saturating_sub(row.start()))
}

// A row of the view: its address and its box, from its first line to the one below it.
fn add_row(
    out: &mut Line,
    names: &Names,
    row: Row,
    line: u64,
    below: u64,
) -> Result<(), AllocError> {
    let y = edge_of(line);
    begin_text(out, LEFT - 8, y.saturating_add(12), "a")?;
    out.hex(row.start())?;
    out.text("</text>\n")?;
    let fill = match row {
        Row::Range(range) => color(kind_of(names, range.leaf)),
        Row::Hole { .. } => "none",
    };
    let high = edge_of(below).saturating_sub(y);
    add_box(out, LEFT, y, WIDE, high, fill)?;
    begin_text(out, LEFT + 8, y.saturating_add(17), "t")?;
    add_label(out, names, row)?;
    out.text("</text>\n")
}

// The name of a window, and of what an alias shows.
fn add_name(
    out: &mut Line,
    names: &Names,
    window: Window,
    x: u64,
    y: u64,
) -> Result<(), AllocError> {
    begin_text(out, x.saturating_add(6), y.saturating_add(17), "w")?;
    out.bytes(names.region_name(window.region))?;
    if let Some(target) = window.target {
        out.named(" -&gt; ", names.region_name(target))?;
    }
    out.text("</text>\n")
}

// A window of the tree, in the column of its depth, from its line to the one below it. An alias has the color of what it shows.
fn add_window(
    out: &mut Line,
    names: &Names,
    window: Window,
    line: u64,
    below: u64,
) -> Result<(), AllocError> {
    let x = u64::from(window.depth)
        .saturating_mul(COLUMN)
        .saturating_add(LEFT + WIDE + 20);
    let y = edge_of(line);
    let high = edge_of(below).saturating_sub(y);
    let shown = window.target.unwrap_or(window.region);
    add_box(out, x, y, COLUMN - 4, high, color(kind_of(names, shown)))?;
    add_name(out, names, window, x, y)
}

// The greatest depth of some windows.
fn deepest(windows: &[Window]) -> u32 {
    let mut depth = 0;
    for window in windows {
        depth = depth.max(window.depth);
    }
    depth
}

// The head of the file: how large the picture is, and how its texts look.
fn add_head(out: &mut Line, windows: &[Window], lines: u64) -> Result<(), AllocError> {
    let wide = u64::from(deepest(windows))
        .saturating_add(1)
        .saturating_mul(COLUMN)
        .saturating_add(LEFT + WIDE + 30);
    out.counted("<svg xmlns=\"http://www.w3.org/2000/svg\" width=\"", wide)?;
    out.counted("\" height=\"", edge_of(lines).saturating_add(20))?;
    out.text(
        "\">\n<style>text{font:13px monospace}.a{text-anchor:end;fill:#555}.w{fill:#222}</style>\n",
    )?;
    out.text("<rect width=\"100%\" height=\"100%\" fill=\"#fff\"/>\n")
}

/// A picture as SVG: the rows of the view at the left, a hole folded to one row, and at the right the windows of the tree, a
/// column for each depth. A row has a line for each window that begins in it, and a window reaches from its line down to where it
/// ends.
pub fn add_svg(
    alloc: Global,
    out: &mut Line,
    names: &Names,
    rows: &[Row],
    windows: &[Window],
) -> Result<(), AllocError> {
    let layout = layout_of(alloc, rows, windows)?;
    add_head(out, windows, layout.top_of(rows.len()))?;
    for (index, row) in rows.iter().enumerate() {
        let below = layout.top_of(index.saturating_add(1));
        add_row(out, names, *row, layout.top_of(index), below)?;
    }
    for (index, window) in windows.iter().enumerate() {
        let line = layout.line_of(index);
        add_window(
            out,
            names,
            *window,
            line,
            layout.line_below(rows, windows, index),
        )?;
    }
    out.text("</svg>\n")
}
