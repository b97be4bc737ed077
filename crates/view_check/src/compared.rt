// A view beside the monitor's lines.
ghost use Rattle.std.specs.Prelude.{◌≡◌, ◌<◌, ◌==◌, IfOk, None, Some, length};
ghost use Rattle.std.specs.List.{slice_get};
ghost use Rattle.script_names.specs.Tables.{printed_names};
ghost use Rattle.view_check.specs.Shown.{AreShown, first_difference, is_memory, is_shown, same_place};

use crate::kinds::{fits, told_kind};
use mem_base::{FlatRange, RegionId};
use monitor_text::{FlatRow, is_named_after};
use script_names::Names;
use std::alloc::{AllocError, Global};

// Whether a region is one of those that stand for memory.
fn is_memory(memory: &[RegionId], region: RegionId) -> bool
    ensures { result ≡ is_memory memory.now region }
{
    memory.iter().any(|other| other.0 == region.0)
}

// Whether a line tells these addresses, this offset, and whether it is volatile.
fn same_place(row: &FlatRow, range: &FlatRange) -> bool
    ensures { result ≡ same_place row.now range.now }
{
    row.start == range.start
        && row.last == range.last
        && row.offset == range.offset
        && row.nonvolatile == range.attrs.nonvolatile
}

/// Whether a line of the monitor tells a range, by the names of a script. The regions in `memory` stand for memory, of any kind.
pub fn is_shown(
    alloc: Global,
    names: &Names,
    memory: &[RegionId],
    row: &FlatRow,
    range: &FlatRange,
) -> Result<bool, AllocError>
    ensures { IfOk result (λ shown. shown ≡ is_shown (printed_names names.now) memory.now row.now range.now) }
{
    let kind = told_kind(names.kind_of(range.leaf), range.attrs);
    if !same_place(row, range) || !fits(row.kind, kind, is_memory(memory, range.leaf)) {
        return Ok(false);
    }
    is_named_after(alloc, names.region_name(range.leaf), row.name.as_bytes())
}

fn row_at(rows: &[FlatRow], at: usize) -> &FlatRow
    requires { at < length rows.now }
    ensures { slice_get rows.now at ≡ Some result.now }
{
    &rows[at]
}

fn range_at(view: &[FlatRange], at: usize) -> &FlatRange
    requires { at < length view.now }
    ensures { slice_get view.now at ≡ Some result.now }
{
    &view[at]
}

/// The number, counted from 0, of the first of the monitor's lines that tells another range than the view has there, or of the first
/// that one of them has and the other has not; none where the view is the one that the lines tell.
pub fn first_difference(
    alloc: Global,
    names: &Names,
    memory: &[RegionId],
    rows: &[FlatRow],
    view: &[FlatRange],
) -> Result<Option<usize>, AllocError>
    ensures first { IfOk result (λ at. at ≡ first_difference (printed_names names.now) memory.now 0 rows.now view.now) }
    ensures same { IfOk result (λ at. at ≡ None → AreShown (printed_names names.now) memory.now rows.now view.now) }
{
    let mut at = 0usize;
    while at < rows.len() && at < view.len() {
        let row = row_at(rows, at);
        let range = range_at(view, at);
        if !is_shown(alloc, names, memory, row, range)? {
            return Ok(Some(at));
        }
        at += 1;
    }
    if rows.len() == view.len() {
        Ok(None)
    } else {
        Ok(Some(at))
    }
}
