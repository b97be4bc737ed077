// How deep and how wide regions are, and which of them lead to one another, against a plain walk.
use crate::cases::Case;
use crate::generated::draw_map;
use crate::maps::add;
use mem_base::{Refusal, RegionId};
use std::alloc::AllocError;

/// Whether depth and weight of all regions are those of the plain walk.
pub(crate) fn are_judged(case: &Case) -> bool {
    for number in 0..case.plain.made() {
        let id = RegionId(number);
        if case.tree.node(id).is_some()
            && (case.tree.depth(id) != case.plain.depth(id)
                || case.tree.weight(id) != case.plain.weight(id))
        {
            return false;
        }
    }
    true
}

/// Whether placing a region in another is refused as a loop that names the container, just where the region leads to
/// it by the plain walk and nothing else is against it.
fn is_loop_told(case: &Case, parent: RegionId, child: RegionId) -> Result<bool, AllocError> {
    let refusal = case.tree.refusal_of(&add(parent.0, 0, child.0, 0))?;
    let want = case.plain.may_hold(parent, child) && case.plain.reaches(child, parent);
    Ok(match refusal {
        Some(Refusal::Loop(named)) => want && named == parent,
        _ => !want,
    })
}

/// Whether that is so of each region that may become a child of this one.
fn are_loops_told(case: &Case, parent: RegionId) -> Result<bool, AllocError> {
    if case.tree.node(parent).is_none() {
        return Ok(true);
    }
    for number in 0..case.plain.made() {
        let child = RegionId(number);
        if case.tree.node(child).is_some() && !is_loop_told(case, parent, child)? {
            return Ok(false);
        }
    }
    Ok(true)
}

/// How many regions lead to more than themselves, where that is so of all that may become a container.
fn leading(case: &Case) -> Result<Option<usize>, AllocError> {
    let mut leading: usize = 0;
    for number in 0..case.plain.made() {
        let region = RegionId(number);
        if !are_loops_told(case, region)? {
            return Ok(None);
        }
        if case.plain.weight(region) > 1 {
            leading = leading.saturating_add(1);
        }
    }
    Ok(Some(leading))
}

/// Whether all regions of a drawn map are judged as by the plain walk; those that lead to more than themselves are counted.
pub(crate) fn is_judged(case: &mut Case) -> Result<bool, Refusal> {
    draw_map(case)?;
    match leading(case)? {
        Some(count) => case.count(0, count),
        None => return Ok(false),
    }
    Ok(are_judged(case))
}
