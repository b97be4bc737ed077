// Which regions the spaces of a script reach.

use crate::choices::{Choice, Fate};
use crate::plans::Plans;
use crate::trees::Trees;
use std::alloc::{AllocError, Global};

// Marks a region, and answers whether it was not marked before.
fn mark(reached: &mut [bool], region: usize) -> bool {
    match reached.get_mut(region) {
        Some(mark) if !*mark => {
            *mark = true;
            true
        }
        _ => false,
    }
}

// Marks what stands in a region, and what the aliases there show; what is marked for the first time is put on the list.
fn mark_below(
    trees: &Trees<'_>,
    plans: &Plans,
    reached: &mut [bool],
    list: &mut Vec<usize>,
    at: usize,
) -> Result<(), AllocError> {
    for below in 0..trees.family(at).len() {
        let node = at.saturating_add(below);
        let region = plans.regions.get(node).copied().unwrap_or(node);
        if mark(reached, region) {
            list.push(region)?;
        }
        let target = match plans.of(node) {
            Some(plan) => plan.target,
            None => None,
        };
        if let Some(target) = target {
            if mark(reached, target) {
                list.push(target)?;
            }
        }
    }
    Ok(())
}

// Marks all that one of the regions of a list reaches.
fn mark_all(
    trees: &Trees<'_>,
    plans: &Plans,
    reached: &mut [bool],
    list: &mut Vec<usize>,
) -> Result<(), AllocError> {
    for _ in 0..trees.nodes.len().saturating_add(1) {
        match list.pop() {
            Some(at) => mark_below(trees, plans, reached, list, at)?,
            None => return Ok(()),
        }
    }
    Ok(())
}

// The roots of the spaces that are kept, as the nodes that stand for their regions.
fn roots_of(
    alloc: Global,
    trees: &Trees<'_>,
    plans: &Plans,
    spaces: &[Choice<'_>],
) -> Result<Vec<usize>, AllocError> {
    let mut found = Vec::new(alloc);
    for space in spaces {
        if let (Fate::Kept, Some(root)) = (space.fate, trees.root(space.tree)) {
            found.push(plans.regions.get(root).copied().unwrap_or(root))?;
        }
    }
    Ok(found)
}

// Whether a tree is the root of a space that is kept.
fn is_kept(spaces: &[Choice<'_>], tree: usize) -> bool {
    for space in spaces {
        if space.tree == tree && matches!(space.fate, Fate::Kept) {
            return true;
        }
    }
    false
}

/// Whether the root of some space is that of no space that is kept.
pub(crate) fn leaves_some(trees: &Trees<'_>, spaces: &[Choice<'_>]) -> bool {
    for tree in 0..trees.trees.len() {
        if trees.has_space(tree) && !is_kept(spaces, tree) {
            return true;
        }
    }
    false
}

/// For each node, whether a space that is kept reaches the region for which it stands.
pub(crate) fn reached_by(
    alloc: Global,
    trees: &Trees<'_>,
    plans: &Plans,
    spaces: &[Choice<'_>],
) -> Result<Vec<bool>, AllocError> {
    let mut reached = Vec::new(alloc);
    for _ in 0..trees.nodes.len() {
        reached.push(false)?;
    }
    let mut list = Vec::new(alloc);
    for root in roots_of(alloc, trees, plans, spaces)? {
        if mark(&mut reached, root) {
            list.push(root)?;
        }
    }
    mark_all(trees, plans, &mut reached, &mut list)?;
    Ok(reached)
}
