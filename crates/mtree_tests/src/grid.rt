// The addresses at which drawn maps may change: the first pages of a space and the last.
use crate::plain::Plain;
use mem_base::{FlatRange, SpaceId};
use std::alloc::{AllocError, Global};

/// How many pages at each end.
const PAGES: u64 = 40;

/// The stretches between these addresses.
pub(crate) const STRETCHES: u64 = 2 * PAGES;

/// The first address of a stretch.
pub(crate) fn start_of(stretch: u64) -> u64 {
    if stretch <= PAGES {
        stretch.wrapping_mul(0x1000)
    } else {
        0u64.wrapping_sub(STRETCHES.wrapping_sub(stretch).wrapping_mul(0x1000))
    }
}

/// The last address of a stretch.
pub(crate) fn last_of(stretch: u64) -> u64 {
    start_of(stretch.wrapping_add(1)).wrapping_sub(1)
}

/// What a space shows on a stretch, by the plain search at its first address, and a number for the path there.
fn range_on(plain: &Plain, space: SpaceId, stretch: u64) -> Option<(FlatRange, u64)> {
    let start = start_of(stretch);
    let (spot, path) = plain.find(space, start)?;
    let range = FlatRange {
        start,
        last: last_of(stretch),
        leaf: spot.leaf,
        offset: spot.offset,
        attrs: spot.attrs,
    };
    Some((range, path))
}

/// Whether a range goes on where another ends.
fn goes_on(range: &FlatRange, next: &FlatRange) -> bool {
    range.last.wrapping_add(1) == next.start
        && range.leaf == next.leaf
        && range.attrs == next.attrs
        && range
            .offset
            .wrapping_add(next.start.wrapping_sub(range.start))
            == next.offset
}

/// Puts one range more after the others, or makes the last one longer: not where they are unmergeable and the path
/// is another.
fn join(view: &mut Vec<FlatRange>, next: FlatRange, same_path: bool) -> Result<(), AllocError> {
    let count = view.len();
    if count > 0 && goes_on(&view[count - 1], &next) && (same_path || !next.attrs.unmergeable) {
        view[count - 1].last = next.last;
        return Ok(());
    }
    view.push(next)?;
    Ok(())
}

/// The view of a space, by the plain search on each stretch.
pub(crate) fn plain_view(
    alloc: Global,
    plain: &Plain,
    space: SpaceId,
) -> Result<Vec<FlatRange>, AllocError> {
    let mut view = Vec::new(alloc);
    let mut last_path = 0;
    for stretch in 0..STRETCHES {
        if let Some((range, path)) = range_on(plain, space, stretch) {
            join(&mut view, range, path == last_path)?;
            last_path = path;
        }
    }
    Ok(view)
}
