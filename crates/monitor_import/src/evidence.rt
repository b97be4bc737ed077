// What flat views tell of the regions that they show.

use crate::flats::{View, is_shown_in, shows_at, view_of};
use crate::trees::{Node, Trees};
use monitor_text::{FlatRow, RowKind, Window};

// Of the regions in a container that are tried before one of them, the last address of one that may be what a range shows at an address.
fn sibling_to(
    trees: &Trees<'_>,
    container: usize,
    node: &Node<'_>,
    row: &FlatRow,
    addr: u64,
) -> Option<u64> {
    for (below, other) in trees.family(container).iter().enumerate() {
        if other.parent == Some(container)
            && other.row.priority > node.row.priority
            && !other.row.disabled
            && other.row.start <= addr
            && addr <= other.row.last
            && shows_at(trees, container.saturating_add(below), row, addr, addr)
        {
            return Some(other.row.last);
        }
    }
    None
}

// The last address of a region that is tried before a node, and may be what a range shows at an address.
fn covered_to(trees: &Trees<'_>, at: usize, row: &FlatRow, addr: u64) -> Option<u64> {
    let mut at = at;
    for _ in 0..trees.nodes.len() {
        let node = trees.nodes.get(at)?;
        let container = node.parent?;
        if let Some(last) = sibling_to(trees, container, node, row, addr) {
            return Some(last);
        }
        at = container;
    }
    None
}

// Whether a range that may show a node has an address there at which nothing that is tried before the node may be what it shows.
fn tells_of(trees: &Trees<'_>, at: usize, node: &Node<'_>, row: &FlatRow) -> bool {
    let last = row.last.min(node.row.last);
    let mut addr = row.start.max(node.row.start);
    for _ in 0..trees.nodes.len().saturating_add(1) {
        match covered_to(trees, at, row, addr) {
            None => return true,
            Some(end) if end >= last => return false,
            Some(end) => addr = end.saturating_add(1),
        }
    }
    false
}

/// Whether a view shows a window read-only where its target is RAM: all of its ranges that may show the window are read-only, but for those
/// that regions cover which are tried before it, and may be shown there.
pub(crate) fn is_readonly(trees: &Trees<'_>, view: &View<'_>, at: usize, node: &Node<'_>) -> bool {
    if node.row.window.is_none() || node.row.kind != RowKind::Ram || node.row.disabled {
        return false;
    }
    let mut is_rom = false;
    for row in view.rows.iter() {
        if is_shown_in(node, *row) && tells_of(trees, at, node, *row) {
            if row.kind != RowKind::Rom {
                return false;
            }
            is_rom = true;
        }
    }
    is_rom
}

// Whether a region of this name is printed that is no device.
fn has_other_kind(trees: &Trees<'_>, node: &Node<'_>) -> bool {
    for other in trees.nodes.iter() {
        if other.is_named(&node.row.name) && other.row.kind != RowKind::Io {
            return true;
        }
    }
    false
}

// Whether all ranges of the views that show a region of a name are read-only, and there are some.
fn all_readonly(views: &[View<'_>], node: &Node<'_>) -> bool {
    let mut is_rom = false;
    for view in views {
        for row in view.rows.iter() {
            if row.name.as_bytes() == node.row.name.as_bytes() {
                if row.kind != RowKind::Rom {
                    return false;
                }
                is_rom = true;
            }
        }
    }
    is_rom
}

/// Whether the views show a device read-only: all ranges of regions of its name are, and all these are devices.
pub(crate) fn is_readonly_device(
    trees: &Trees<'_>,
    views: &[View<'_>],
    at: usize,
    node: &Node<'_>,
) -> bool {
    node.row.window.is_none()
        && node.row.kind == RowKind::Io
        && !trees.is_parent(at)
        && all_readonly(views, node)
        && !has_other_kind(trees, node)
}

// How many ranges of a view, in what an alias shows, may be what a target has there.
fn shown_of(
    trees: &Trees<'_>,
    view: &View<'_>,
    alias: &Node<'_>,
    first: u64,
    target: usize,
) -> i64 {
    let mut count = 0i64;
    for row in view.rows.iter() {
        if row.last >= alias.row.start && row.start <= alias.row.last {
            let addr = row.start.max(alias.row.start);
            let inside = first.wrapping_add(addr.wrapping_sub(alias.row.start));
            if shows_at(trees, target, *row, addr, inside) {
                count = count.saturating_add(1);
            }
        }
    }
    count
}

// How many regions of a target begin where a view has a hole, in what an alias shows.
fn missed_of(
    trees: &Trees<'_>,
    view: &View<'_>,
    alias: &Node<'_>,
    first: u64,
    target: usize,
) -> i64 {
    let mut count = 0i64;
    for (below, node) in trees.family(target).iter().enumerate() {
        let at = target.saturating_add(below);
        let addr = alias
            .row
            .start
            .wrapping_add(node.row.start.wrapping_sub(first));
        if !node.row.disabled
            && !trees.is_parent(at)
            && addr >= alias.row.start
            && addr <= alias.row.last
            && view.at(addr).is_none()
        {
            count = count.saturating_add(1);
        }
    }
    count
}

/// How well a node fits as what an alias shows, by the view of the alias's space: what the view shows of it there, less what it does not.
pub(crate) fn fit_of(
    trees: &Trees<'_>,
    views: &[View<'_>],
    alias: &Node<'_>,
    window: &Window,
    target: usize,
) -> i64 {
    let Some(view) = view_of(views, trees, alias.tree) else {
        return 0;
    };
    let Some(node) = trees.nodes.get(target) else {
        return 0;
    };
    let first = node.row.start.wrapping_add(window.first);
    let shown = shown_of(trees, view, alias, first, target);
    shown.saturating_sub(missed_of(trees, view, alias, first, target))
}
