// Which neighbouring ranges merge, by pages worked out by hand.
ghost use Rattle.std.specs.Prelude.{◌≡◌, ◌+◌, ◌<◌, ◌^◌};

use flat_simplify::simplify;
use mem_base::{Attrs, FlatRange, Note, Paths, Pieces, RegionId, View};
use std::alloc::{AllocError, Global};

/// A page of a leaf.
fn page(start: u64, leaf: u32, offset: u64, log: u8, unmergeable: bool) -> FlatRange
    requires { start < 2 ^ 32 }
    ensures start { result.start ≡ start }
    ensures last { result.last ≡ start + 4095 }
    ensures offset { result.offset ≡ offset }
{
    FlatRange {
        start,
        last: start + 0xfff,
        leaf: RegionId(leaf),
        offset,
        attrs: Attrs {
            readonly: false,
            nonvolatile: false,
            romd: false,
            unmergeable,
            log,
        },
    }
}

/// Notes of paths through one container each to a leaf: the path at index i has the number 2 i + 2.
fn notes(alloc: Global, paths: &[(u32, u32)]) -> Result<Vec<Note>, AllocError> {
    let mut notes = Vec::new(alloc);
    for (container, leaf) in paths {
        notes.push(Note {
            region: RegionId(*container),
            before: 0,
        })?;
        let before = notes.len();
        notes.push(Note {
            region: RegionId(*leaf),
            before,
        })?;
    }
    Ok(notes)
}

/// Two pages that go on, then one each with another logging mask, with another leaf, after a hole and at another
/// offset, and one that goes on there: each on a path of its own, which mergeable pages do not mind.
fn seven_pages(alloc: Global) -> Result<Pieces, AllocError> {
    let ranges = vec![in alloc;
        page(0x0000, 1, 0x0000, 0, false),
        page(0x1000, 1, 0x1000, 0, false),
        page(0x2000, 1, 0x2000, 1, false),
        page(0x3000, 2, 0x3000, 1, false),
        page(0x5000, 2, 0x5000, 1, false),
        page(0x6000, 2, 0x5000, 1, false),
        page(0x7000, 2, 0x6000, 1, false),
    ]?;
    let notes = notes(
        alloc,
        &[
            (10, 1),
            (11, 1),
            (12, 1),
            (13, 2),
            (14, 2),
            (15, 2),
            (16, 2),
        ],
    )?;
    let numbers = vec![in alloc; 2, 4, 6, 8, 10, 12, 14]?;
    Ok(Pieces::new(ranges, Paths::new(notes, numbers)))
}

/// Whether a view has ranges of just these first and last addresses, leaves and offsets.
fn shows(view: &View, wanted: &[(u64, u64, u32, u64)]) -> bool {
    for (i, want) in wanted.iter().enumerate() {
        let Some(range) = view.as_slice().get(i) else {
            return false;
        };
        if (range.start, range.last, range.leaf.0, range.offset) != *want {
            return false;
        }
    }
    view.as_slice().len() == wanted.len()
}

static MERGED: [(u64, u64, u32, u64); 5] = [
    (0x0000, 0x1fff, 1, 0x0000),
    (0x2000, 0x2fff, 1, 0x2000),
    (0x3000, 0x3fff, 2, 0x3000),
    (0x5000, 0x5fff, 2, 0x5000),
    (0x6000, 0x7fff, 2, 0x5000),
];

/// Whether the pages merge so.
fn merge(alloc: Global) -> Result<bool, AllocError> {
    let pieces = seven_pages(alloc)?;
    let view = simplify(pieces);
    Ok(shows(&view, &MERGED))
}

#[test]
fn only_neighbours_that_go_on_merge(rt: HostRuntime) {
    assert!(rt; merge(rt.alloc()) == Ok(true));
}
