// Small maps by drawn calls, accepted and refused ones of every kind.
use crate::cases::{Case, agree};
use crate::draws::any_call;
use crate::grid::plain_view;
use crate::maps::{region, space};
use crate::trees::viewed;
use mem_base::{Call, FlatRange, Kind, Refusal, SpaceId};
use region_tree::Tree;
use std::alloc::{AllocError, Global};

/// How many calls a map is drawn of.
const CALLS: u32 = 60;

/// Makes a space over a container of 16 pages, and does drawn calls.
pub(crate) fn draw_map(case: &mut Case) -> Result<(), Refusal> {
    case.call(&region(Kind::Container, 0x1_0000))?;
    case.call(&space(0, 0))?;
    for _ in 0..CALLS {
        let call = next_call(case);
        case.call(&call)?;
    }
    Ok(())
}

/// The next call.
fn next_call(case: &mut Case) -> Call {
    any_call(&mut case.rng, case.plain.made())
}

/// Whether these are the ranges that the plain program gives a space, and all find the same in it.
fn is_view(
    alloc: Global,
    case: &Case,
    at: SpaceId,
    ranges: &[FlatRange],
) -> Result<bool, AllocError> {
    let want = plain_view(alloc, &case.plain, at)?;
    Ok(ranges == want.as_slice() && agree(case, ranges, at))
}

/// Whether the tree, its view and the plain program agree on a space of a map; the ranges are counted.
pub(crate) fn is_shown(alloc: Global, case: &mut Case, at: SpaceId) -> Result<bool, AllocError> {
    let view = viewed(alloc, &case.tree, at)?;
    let is_so = is_view(alloc, case, at, view.as_slice());
    case.count(0, view.as_slice().len());
    is_so
}

/// The same of all three spaces of a drawn map.
pub(crate) fn are_all_shown(alloc: Global, case: &mut Case) -> Result<bool, Refusal> {
    draw_map(case)?;
    for at in [SpaceId(0), SpaceId(1), SpaceId(2)] {
        if !is_shown(alloc, case, at)? {
            return Ok(false);
        }
    }
    Ok(true)
}

/// All that is known of a forest, as text.
pub(crate) fn text(alloc: Global, tree: &Tree) -> Result<String, AllocError> {
    format!(in alloc; "{:?}", tree.forest()?)
}

/// Whether that is this text.
pub(crate) fn has_text(alloc: Global, tree: &Tree, before: &str) -> Result<bool, AllocError> {
    let now = text(alloc, tree)?;
    Ok(now.as_str() == before)
}

/// Whether a call is refused and leaves the forest as it was.
fn is_refused(alloc: Global, tree: &mut Tree, call: &Call) -> Result<bool, AllocError> {
    let before = text(alloc, tree)?;
    let refused = tree.apply(call).is_err();
    let same = has_text(alloc, tree, before.as_str());
    Ok(same? && refused)
}

/// Whether each drawn call that is refused leaves the forest as it was; these are counted.
pub(crate) fn leave_it(alloc: Global, case: &mut Case) -> Result<bool, Refusal> {
    for _ in 0..CALLS {
        let call = next_call(case);
        if case.tree.refusal_of(&call)?.is_none() {
            case.call(&call)?;
        } else if is_refused(alloc, &mut case.tree, &call)? {
            case.count(0, 1);
        } else {
            return Ok(false);
        }
    }
    Ok(true)
}
