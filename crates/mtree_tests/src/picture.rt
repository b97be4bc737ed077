// The paths of the picture of QEMU's manual, "The memory API", "Overlapping regions and priority", in the search and in the
// rendering.
use crate::maps::{add, latch, region, space};
use crate::trees::{rendered, run};
use mem_base::{Kind, Path, Pieces, Refusal, SpaceId};
use region_tree::Tree;
use std::alloc::Global;
use tree_find::find_path;

/// Makes containers A and B and devices C, D and E, numbered from 0.
fn build(tree: &mut Tree) -> Result<(), Refusal> {
    run(
        tree,
        &[
            region(Kind::Container, 0x8000),
            region(Kind::Container, 0x4000),
            region(latch(), 0x6000),
            region(latch(), 0x1000),
            region(latch(), 0x1000),
            add(0, 0x2000, 1, 2),
            add(0, 0, 2, 1),
            add(1, 0, 3, 0),
            add(1, 0x2000, 4, 0),
            space(0, 0),
        ],
    )
}

/// The first two regions of a path, and the last.
fn ends(path: &Path) -> (u32, u32, u32) {
    let at = |i: usize| path.as_slice().get(i).map_or(u32::MAX, |region| region.0);
    (at(0), at(1), at(path.len().saturating_sub(1)))
}

/// Addresses, and the ends of their paths.
static FOUND: [(u64, Option<(u32, u32, u32)>); 4] = [
    (0x1fff, Some((0, 2, 2))),
    (0x2000, Some((0, 1, 3))),
    (0x4abc, Some((0, 1, 4))),
    (0x6000, None),
];

/// Whether each address is found on its path.
pub(crate) fn are_found(tree: &mut Tree) -> Result<bool, Refusal> {
    build(tree)?;
    for (addr, want) in &FOUND {
        let found = match find_path(tree, SpaceId(0), *addr) {
            Some((_, path)) => Some(ends(&path)),
            None => None,
        };
        if found != *want {
            return Ok(false);
        }
    }
    Ok(true)
}

/// Pieces: first and last address, leaf, offset in it, and the second region of the path.
static PIECES: [(u64, u64, u32, u64, u32); 5] = [
    (0x0000, 0x1fff, 2, 0x0000, 2),
    (0x2000, 0x2fff, 3, 0x0000, 1),
    (0x3000, 0x3fff, 2, 0x3000, 2),
    (0x4000, 0x4fff, 4, 0x0000, 1),
    (0x5000, 0x5fff, 2, 0x5000, 2),
];

/// Whether the pieces are these, each with its path.
fn are_pieces(pieces: &Pieces) -> bool {
    for (i, (start, last, leaf, offset, second)) in PIECES.iter().enumerate() {
        let (Some(range), Some(path)) = (pieces.ranges().get(i), pieces.path(i)) else {
            return false;
        };
        let shape = (range.start, range.last, range.leaf.0, range.offset);
        if shape != (*start, *last, *leaf, *offset) || ends(&path) != (0, *second, *leaf) {
            return false;
        }
    }
    pieces.ranges().len() == PIECES.len()
}

/// Whether the picture is rendered so.
pub(crate) fn are_rendered(alloc: Global, tree: &mut Tree) -> Result<bool, Refusal> {
    build(tree)?;
    let pieces = rendered(alloc, tree, SpaceId(0))?;
    Ok(are_pieces(&pieces))
}
