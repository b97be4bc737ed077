// Aliases that show a container that they stand in. A map may not have them; each is made a container, with an alias for each region inside
// the one that it shows.

use crate::names::Given;
use crate::trees::{Node, Trees};
use mem_base::Name;
use monitor_text::Window;
use std::alloc::{AllocError, Global};

/// What an alias that is taken apart shows of one region.
#[derive(Debug, Drop)]
pub(crate) struct Part {
    pub(crate) name: Name,
    /// The node of the alias, and that of the region.
    pub(crate) alias: usize,
    pub(crate) target: usize,
    /// What it shows of the region, and where it stands in the alias.
    pub(crate) offset: u64,
    pub(crate) size: u128,
    pub(crate) place: u64,
    pub(crate) priority: i32,
}

/// Whether a node or a container of it is printed of a region.
pub(crate) fn is_inside(trees: &Trees<'_>, regions: &[usize], at: usize, region: usize) -> bool {
    let mut at = at;
    for _ in 0..trees.nodes.len() {
        if regions.get(at).copied() == Some(region) {
            return true;
        }
        match trees.nodes.get(at) {
            Some(
                Node {
                    parent: Some(parent),
                    ..
                },
            ) => at = *parent,
            _ => return false,
        }
    }
    false
}

// The first and the last offset in its container that a window shows of a node.
fn overlap(window: &Window, container: &Node<'_>, node: &Node<'_>) -> Option<(u64, u64)> {
    let start = node.row.start.wrapping_sub(container.row.start);
    let last = node.row.last.wrapping_sub(container.row.start);
    let first = start.max(window.first);
    let end = last.min(window.last);
    if first <= end {
        Some((first, end))
    } else {
        None
    }
}

// Adds what an alias shows of one region inside its target.
fn add_part(
    alloc: Global,
    given: &mut Given,
    parts: &mut Vec<Part>,
    alias: usize,
    window: &Window,
    container: &Node<'_>,
    target: usize,
    node: &Node<'_>,
) -> Result<(), AllocError> {
    let Some((first, last)) = overlap(window, container, node) else {
        return Ok(());
    };
    parts.push(Part {
        name: given.name_for(alloc, node.row.name.as_bytes())?,
        alias,
        target,
        offset: first.wrapping_sub(node.row.start.wrapping_sub(container.row.start)),
        size: u128::from(last.saturating_sub(first)).saturating_add(1),
        place: first.saturating_sub(window.first),
        priority: node.row.priority,
    })?;
    Ok(())
}

/// Adds what an alias shows of the regions inside its target, but for the one that it stands in.
pub(crate) fn add_parts(
    alloc: Global,
    trees: &Trees<'_>,
    regions: &[usize],
    given: &mut Given,
    parts: &mut Vec<Part>,
    alias: usize,
    target: usize,
) -> Result<(), AllocError> {
    let (Some(own), Some(container)) = (trees.nodes.get(alias), trees.nodes.get(target)) else {
        return Ok(());
    };
    let Some(window) = &own.row.window else {
        return Ok(());
    };
    for child in trees.children(alloc, target)? {
        let region = regions.get(child).copied().unwrap_or(child);
        if let Some(node) = trees.nodes.get(child) {
            if !is_inside(trees, regions, alias, region) {
                add_part(alloc, given, parts, alias, window, container, region, node)?;
            }
        }
    }
    Ok(())
}
