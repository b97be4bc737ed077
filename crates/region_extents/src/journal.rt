// Extents that are replaced, and what they were before.

ghost use Rattle.std.specs.Prelude.{◌≡◌, ◌<◌, length, false, slice_set, IfOk, IfSome};
ghost use Rattle.mem_base.specs.lists.Every.{Every};
ghost use Rattle.region_extents.specs.Kept.{undone, IsShort};

use crate::extents::Extent;
use mem_base::{MOST_DEPTH, MOST_WEIGHT};
use std::alloc::AllocError;

/// What the extent at a place was before it was replaced.
#[derive(Clone, Copy, Debug)]
pub(crate) struct Before {
    pub(crate) at: usize,
    pub(crate) extent: Extent,
}

/// Puts an extent at a place, notes in the journal what stood there, and says whether that was another; or `None`
/// where the extent is above a limit.
pub(crate) fn replace(
    journal: &mut Vec<Before>,
    known: &mut [Extent],
    at: usize,
    extent: Extent,
) -> Result<Option<bool>, AllocError>
    requires { at < length known.old }
    ensures short { Every IsShort known.old → Every IsShort known.new }
    ensures undone { undone journal.new.items known.new ≡ undone journal.old.items known.old }
    ensures all { length known.new ≡ length known.old }
    ensures set { IfOk result (λ o. IfSome o (λ changed. known.new ≡ slice_set known.old at extent)) }
    ensures same { IfOk result (λ o. IfSome o (λ changed. changed ≡ false → known.new ≡ known.old)) }
{
    if extent.depth > MOST_DEPTH || extent.weight > MOST_WEIGHT {
        return Ok(None);
    }
    let before = known[at];
    if extent.depth == before.depth && extent.weight == before.weight {
        return Ok(Some(false));
    }
    journal.push(Before { at, extent: before })?;
    known[at] = extent;
    Ok(Some(true))
}

/// Puts back all that the journal notes, the last first.
pub(crate) fn undo(journal: &[Before], known: &mut [Extent])
    ensures { known.new ≡ undone journal.now known.old }
{
    let mut left = journal.len();
    while left > 0 {
        left -= 1;
        let before = journal[left];
        if before.at < known.len() {
            known[before.at] = before.extent;
        }
    }
}
