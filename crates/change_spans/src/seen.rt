// Where a change of some regions may be seen.
ghost use Rattle.std.specs.Prelude.{IfOk, IfSome};
ghost use Rattle.mem_base.specs.map.Forest.{IsMade};
ghost use Rattle.change_laws.specs.Meeting.{OthersStay};
ghost use Rattle.change_spans.specs.Reaches.{ShowsWithin};

use crate::alike::move_alone;
use crate::closing::are_closed;
use crate::guessing::guess;
use crate::reaches::Reach;
use mem_base::{Forest, RegionId};
use region_tree::Tree;
use std::alloc::{AllocError, Global};

/// Spans within which a change of some regions may be seen, from a forest to a tree: wherever they have nothing of the root of a space, a search in
/// it finds what it found. `None` where there would be more than 64.
///
/// Where the regions changed in their places alone, what an alias shows of them, or they show as roots, stays: then only what their containers
/// have of them is followed. It fails only where memory runs out.
pub fn spans_of(
    alloc: Global,
    before: &Forest,
    after: &Tree,
    changed: &[RegionId],
) -> Result<Option<Vec<Reach>>, AllocError>
    requires before { IsMade before.now }
    requires after { IsMade after.now }
    requires others { OthersStay before.now after.now changed.now }
    ensures { IfOk result (λ spans. IfSome spans (λ spans. ShowsWithin before.now after.now spans.items)) }
{
    let placed = move_alone(before, after, changed);
    let Some(spans) = guess(alloc, placed, before, after, changed)? else {
        return Ok(None);
    };
    if !are_closed(spans.as_slice(), placed, before, after, changed) {
        return Ok(None);
    }
    Ok(Some(spans))
}
