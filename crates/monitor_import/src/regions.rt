// Which lines tell one region: a region is printed in its container, and once more as a root.

use crate::trees::{Node, Trees};
use monitor_text::Window;
use std::alloc::{AllocError, Global};

fn same_window(a: &Option<Window>, b: &Option<Window>) -> bool {
    match (a, b) {
        (None, None) => true,
        (Some(a), Some(b)) => {
            a.target.as_bytes() == b.target.as_bytes() && a.first == b.first && a.last == b.last
        }
        _ => false,
    }
}

// Whether two lines tell the same, but for where the region stands.
fn same_region(a: &Node<'_>, b: &Node<'_>) -> bool {
    a.row.priority == b.row.priority
        && a.row.kind == b.row.kind
        && a.row.nonvolatile == b.row.nonvolatile
        && a.row.disabled == b.row.disabled
        && a.size() == b.size()
        && a.is_named(&b.row.name)
        && same_window(&a.row.window, &b.row.window)
}

// Whether a node stands in its root as another in its own: the root's number and row are taken off.
fn same_place(a: &Node<'_>, of_a: &Node<'_>, b: &Node<'_>, of_b: &Node<'_>) -> bool {
    a.row.start.wrapping_sub(of_a.row.start) == b.row.start.wrapping_sub(of_b.row.start)
        && a.row.depth.wrapping_sub(of_a.row.depth) == b.row.depth.wrapping_sub(of_b.row.depth)
}

// Whether two families tell the same.
fn same_family(a: &[Node<'_>], b: &[Node<'_>]) -> bool {
    let (Some(of_a), Some(of_b)) = (a.first(), b.first()) else {
        return false;
    };
    if a.len() != b.len() {
        return false;
    }
    for (x, y) in a.iter().zip(b.iter()) {
        if !same_region(x, y) || !same_place(x, of_a, y, of_b) {
            return false;
        }
    }
    true
}

// Whether a node may be the region at the root of another tree: one below a container, or the root of a space where that is no space's.
fn may_be_root(trees: &Trees<'_>, node: &Node<'_>, tree: usize) -> bool {
    node.tree != tree
        && (node.parent.is_some() || (!trees.has_space(tree) && trees.has_space(node.tree)))
}

// Where else the root of a tree is printed.
fn printed_at(trees: &Trees<'_>, tree: usize) -> Option<usize> {
    let first = trees.root(tree)?;
    let root = trees.nodes.get(first)?;
    for (at, node) in trees.nodes.iter().enumerate() {
        if node.is_named(&root.row.name)
            && may_be_root(trees, node, tree)
            && same_family(trees.family(first), trees.family(at))
        {
            return Some(at);
        }
    }
    None
}

// For each tree, the node that its root is printed as elsewhere, if it is.
fn printed_twice(alloc: Global, trees: &Trees<'_>) -> Result<Vec<Option<usize>>, AllocError> {
    let mut found = Vec::new(alloc);
    for tree in 0..trees.trees.len() {
        found.push(printed_at(trees, tree))?;
    }
    Ok(found)
}

// The node that a node's region is printed as elsewhere.
fn other_print(trees: &Trees<'_>, twice: &[Option<usize>], at: usize) -> Option<usize> {
    let node = trees.nodes.get(at)?;
    let first = trees.trees.get(node.tree)?.first;
    let root = twice.get(node.tree).copied()??;
    Some(root.saturating_add(at.saturating_sub(first)))
}

// The node that stands for a node's region, by what stands for the roots.
fn stands_for(trees: &Trees<'_>, twice: &[Option<usize>], at: usize) -> usize {
    let mut at = at;
    for _ in 0..trees.trees.len() {
        match other_print(trees, twice, at) {
            Some(other) => at = other,
            None => return at,
        }
    }
    at
}

/// For each node, the one that stands for its region.
pub(crate) fn regions_of(alloc: Global, trees: &Trees<'_>) -> Result<Vec<usize>, AllocError> {
    let twice = printed_twice(alloc, trees)?;
    let mut found = Vec::new(alloc);
    for at in 0..trees.nodes.len() {
        found.push(stands_for(trees, &twice, at))?;
    }
    Ok(found)
}
