// Where the boxes of a picture stand, in lines from its top.

use crate::rows::Row;
use crate::windows::Window;
use std::alloc::{AllocError, Global};

/// Where the boxes of a picture stand: a row has a line for each window that begins in it, in the order in which windows are told,
/// and at least one.
#[derive(Drop)]
pub(crate) struct Layout {
    // The first line of each row, and the line below the last row.
    tops: Vec<u64>,
    // The line of each window.
    lines: Vec<u64>,
}

impl Layout {
    /// The first line of the row with an index; of the index after the last row, how many lines there are.
    pub(crate) fn top_of(&self, index: usize) -> u64 {
        self.tops.get(index).copied().unwrap_or(0)
    }

    /// The line of the window with an index.
    pub(crate) fn line_of(&self, index: usize) -> u64 {
        self.lines.get(index).copied().unwrap_or(0)
    }

    /// The line at which the window with an index has ended: in the row that holds its last address the first line below its own
    /// of a window that begins after that address, or else the line below that row.
    pub(crate) fn line_below(&self, rows: &[Row], windows: &[Window], index: usize) -> u64 {
        let Some(window) = windows.get(index) else {
            return 0;
        };
        let line = self.line_of(index);
        let last = row_at(rows, window.last);
        let mut below = self.top_of(last.saturating_add(1));
        if rows.get(last).is_some_and(|row| row.last() == window.last) {
            return below;
        }
        for (at, other) in windows.iter().enumerate() {
            let begins = self.line_of(at);
            if window.last < other.first && line < begins && row_at(rows, other.first) == last {
                below = below.min(begins);
            }
        }
        below
    }
}

// The index of the row that holds an address.
fn row_at(rows: &[Row], addr: u64) -> usize {
    rows.partition_point(|row| row.last() < addr)
}

// How many windows begin in each row.
fn counts_of(alloc: Global, rows: &[Row], windows: &[Window]) -> Result<Vec<u64>, AllocError> {
    let mut counts = Vec::new(alloc);
    for _ in rows {
        counts.push(0u64)?;
    }
    for window in windows {
        if let Some(count) = counts.get_mut(row_at(rows, window.first)) {
            *count = count.saturating_add(1);
        }
    }
    Ok(counts)
}

// The first line of each row, and the line below the last one.
fn tops_of(alloc: Global, counts: &[u64]) -> Result<Vec<u64>, AllocError> {
    let mut tops = Vec::new(alloc);
    let mut next = 0u64;
    for count in counts {
        tops.push(next)?;
        next = next.saturating_add((*count).max(1));
    }
    tops.push(next)?;
    Ok(tops)
}

/// Where the boxes of these rows and windows stand.
pub(crate) fn layout_of(
    alloc: Global,
    rows: &[Row],
    windows: &[Window],
) -> Result<Layout, AllocError> {
    let counts = counts_of(alloc, rows, windows)?;
    let tops = tops_of(alloc, &counts)?;
    let mut next = tops.to_vec(alloc)?;
    let mut lines = Vec::new(alloc);
    for window in windows {
        if let Some(line) = next.get_mut(row_at(rows, window.first)) {
            lines.push(*line)?;
            *line = line.saturating_add(1);
        }
    }
    Ok(Layout { tops, lines })
}
