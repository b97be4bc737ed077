// The rows of a picture.
ghost use Rattle.std.specs.Prelude.{◌≡◌, ◌+◌, ◌^◌, ◌<◌, ◌≤◌, ◌++◌, OnOk, IfOk};
ghost use Rattle.view_picture.specs.Rows.{Tiles, ranges_of, with_hole};

use mem_base::{FlatRange, View};
use std::alloc::{AllocError, Global};

/// A row of a picture, from one address to another, both inclusive.
#[derive(Clone, Copy, Debug, PartialEq, Eq)]
pub enum Row {
    /// A range of the view.
    Range(FlatRange),
    /// Addresses where nothing answers.
    Hole { start: u64, last: u64 },
}

impl Row {
    /// Its first address.
    pub fn start(&self) -> u64 {
        match self {
            Row::Range(range) => range.start,
            Row::Hole { start, .. } => *start,
        }
    }

    /// Its last address.
    pub fn last(&self) -> u64 {
        match self {
            Row::Range(range) => range.last,
            Row::Hole { last, .. } => *last,
        }
    }
}

// The hole before a range, if there is one, and the range.
fn add_range(rows: &mut Vec<Row>, next: u128, range: FlatRange) -> Result<(), AllocError>
    requires { next ≤ range.start }
    ensures { OnOk result (rows.new.items ≡ rows.old.items ++ with_hole next range) }
{
    if next < u128::from(range.start) {
        rows.push(Row::Hole {
            start: next as u64,
            last: range.start - 1,
        })?;
    }
    rows.push(Row::Range(range))?;
    Ok(())
}

/// The rows of a view: its ranges, and the holes before, between and after them.
pub fn rows_of(alloc: Global, view: &View) -> Result<Vec<Row>, AllocError>
    ensures tiles { IfOk result (λ rows. Tiles 0 (2 ^ 64) rows.items) }
    ensures ranges { IfOk result (λ rows. ranges_of rows.items ≡ view.now) }
{
    let mut rows = Vec::new(alloc);
    let mut next = 0u128;
    for range in view.as_slice() {
        add_range(&mut rows, next, *range)?;
        next = u128::from(range.last) + 1;
    }
    if next < 1 << 64 {
        rows.push(Row::Hole {
            start: next as u64,
            last: u64::MAX,
        })?;
    }
    Ok(rows)
}
