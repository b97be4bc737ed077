// Ranges that are cut at edges.
ghost use Rattle.std.specs.Prelude.{◌≡◌, ◌+◌, ◌-◌, ◌^◌, ◌<◌, ◌≤◌, ◌++◌, List, OnOk};
ghost use Rattle.mem_base.specs.declared.views.flat.FlatRange.{FlatRange};
ghost use Rattle.view_slots.specs.Slots.{CutsInto, before, from_on};

use crate::edges::next_edge;
use mem_base::FlatRange;
use std::alloc::AllocError;

// The part of a range before an address in it.
fn before(range: FlatRange, edge: u64) -> FlatRange
    requires { range.start < edge }
    ensures { result ≡ before range edge }
{
    FlatRange {
        last: edge - 1,
        ..range
    }
}

// The part of a range from an address in it on.
fn from_on(range: FlatRange, edge: u64) -> FlatRange
    requires inside { (range.start < edge) × (edge ≤ range.last) }
    requires fits { range.offset + (range.last - range.start) < 2 ^ 64 }
    ensures { result ≡ from_on range edge }
{
    FlatRange {
        start: edge,
        offset: range.offset + (edge - range.start),
        ..range
    }
}

/// Adds the pieces into which a range is cut at edges.
pub(crate) fn cut(
    edges: &[u64],
    range: FlatRange,
    pieces: &mut Vec<FlatRange>,
) -> Result<(), AllocError>
    requires order { range.start ≤ range.last }
    requires fits { range.offset + (range.last - range.start) < 2 ^ 64 }
    ensures { OnOk result ((ps : List FlatRange) × (pieces.new.items ≡ pieces.old.items ++ ps) × CutsInto edges.now range ps) }
{
    match next_edge(edges, range.start, range.last) {
        None => {
            pieces.push(range)?;
            Ok(())
        }
        Some(edge) => {
            pieces.push(before(range, edge))?;
            cut(edges, from_on(range, edge), pieces)?;
            Ok(())
        }
    }
}
