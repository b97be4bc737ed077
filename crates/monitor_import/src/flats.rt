// The flat views of a text.

use crate::trees::{Node, Trees};
use indexmap::IndexMap;
use mem_base::Name;
use monitor_text::{FlatLine, FlatRow};
use std::alloc::{AllocError, Global};

/// A flat view, and the spaces that show it.
#[derive(Debug, Drop)]
pub(crate) struct View<'a> {
    pub(crate) spaces: Vec<&'a Name>,
    pub(crate) rows: Vec<&'a FlatRow>,
}

// One more view at the end.
fn open(alloc: Global, views: &mut Vec<View<'_>>) -> Result<(), AllocError> {
    views.push(View {
        spaces: Vec::new(alloc),
        rows: Vec::new(alloc),
    })?;
    Ok(())
}

// A space that shows the last view.
fn add_space<'a>(views: &mut Vec<View<'a>>, name: &'a Name) -> Result<(), AllocError> {
    match views.last_mut() {
        Some(view) => Ok(view.spaces.push(name)?),
        None => Ok(()),
    }
}

// A range of the last view.
fn add_row<'a>(views: &mut Vec<View<'a>>, row: &'a FlatRow) -> Result<(), AllocError> {
    match views.last_mut() {
        Some(view) => Ok(view.rows.push(row)?),
        None => Ok(()),
    }
}

/// The views of a text's lines. What stands before the first view is none.
pub(crate) fn views_of<'a>(
    alloc: Global,
    lines: &'a [(u32, FlatLine)],
) -> Result<Vec<View<'a>>, AllocError> {
    let mut views = Vec::new(alloc);
    for (_, line) in lines {
        match line {
            FlatLine::View => open(alloc, &mut views)?,
            FlatLine::Space { name } => add_space(&mut views, name)?,
            FlatLine::Row(row) => add_row(&mut views, row)?,
            FlatLine::Other | FlatLine::Empty => {}
        }
    }
    Ok(views)
}

// Whether one of these spaces has this name.
fn is_among(spaces: &[&Name], name: &Name) -> bool {
    for space in spaces {
        if space.as_bytes() == name.as_bytes() {
            return true;
        }
    }
    false
}

/// The view of a tree: the first that names the first of its spaces.
pub(crate) fn view_of<'v, 'a>(
    views: &'v [View<'a>],
    trees: &Trees<'_>,
    tree: usize,
) -> Option<&'v View<'a>> {
    let name = trees.trees.get(tree)?.spaces.first()?;
    for view in views {
        if is_among(&view.spaces, name) {
            return Some(view);
        }
    }
    None
}

/// The view of a tree, where all views that name the first of its spaces show the same: several spaces may have one name.
pub(crate) fn sure_view_of<'v, 'a>(
    views: &'v [View<'a>],
    trees: &Trees<'_>,
    tree: usize,
) -> Option<&'v View<'a>> {
    let name = trees.trees.get(tree)?.spaces.first()?;
    let first = view_of(views, trees, tree)?;
    for view in views {
        if is_among(&view.spaces, name) && !view.is_same(first) {
            return None;
        }
    }
    Some(first)
}

impl<'a> View<'a> {
    /// The range that has an address.
    pub(crate) fn at(&self, addr: u64) -> Option<&'a FlatRow> {
        for row in self.rows.iter() {
            if row.start <= addr && addr <= row.last {
                return Some(row);
            }
        }
        None
    }
}

// The offset in its region of an address of a range.
fn offset_at(row: &FlatRow, addr: u64) -> u64 {
    row.offset.wrapping_add(addr.wrapping_sub(row.start))
}

/// Whether a node, or what it shows, may be the region of this name at this offset, at an address of its tree.
pub(crate) fn may_show(node: &Node<'_>, name: &Name, offset: u64, addr: u64) -> bool {
    if addr < node.row.start || addr > node.row.last {
        return false;
    }
    let inside = addr.wrapping_sub(node.row.start);
    match &node.row.window {
        Some(window) => {
            window.target.as_bytes() == name.as_bytes()
                && window.first.wrapping_add(inside) == offset
        }
        None => node.is_named(name) && inside == offset,
    }
}

/// Whether a node, or what it shows, is what a range shows at an address of the space.
pub(crate) fn may_be_shown(node: &Node<'_>, row: &FlatRow, addr: u64) -> bool {
    may_show(node, &row.name, offset_at(row, addr), addr)
}

/// Whether a node, or one below it, may be what a range shows at an address of the space, which is this one in the node's tree.
pub(crate) fn shows_at(
    trees: &Trees<'_>,
    at: usize,
    row: &FlatRow,
    addr: u64,
    inside: u64,
) -> bool {
    let offset = offset_at(row, addr);
    for node in trees.family(at) {
        if !node.row.disabled && may_show(node, &row.name, offset, inside) {
            return true;
        }
    }
    false
}

/// Whether a range may show a node.
pub(crate) fn is_shown_in(node: &Node<'_>, row: &FlatRow) -> bool {
    row.last >= node.row.start && may_be_shown(node, row, row.start.max(node.row.start))
}

// Whether two ranges tell the same.
fn is_same_row(a: &FlatRow, b: &FlatRow) -> bool {
    a.start == b.start
        && a.last == b.last
        && a.kind == b.kind
        && a.nonvolatile == b.nonvolatile
        && a.offset == b.offset
        && a.name.as_bytes() == b.name.as_bytes()
}

impl View<'_> {
    /// Whether it shows what another shows.
    pub(crate) fn is_same(&self, other: &View<'_>) -> bool {
        if self.rows.len() != other.rows.len() {
            return false;
        }
        for (a, b) in self.rows.iter().zip(other.rows.iter()) {
            if !is_same_row(*a, *b) {
                return false;
            }
        }
        true
    }

    /// Whether one of its ranges may show a node.
    pub(crate) fn has(&self, node: &Node<'_>) -> bool {
        for row in self.rows.iter() {
            if is_shown_in(node, *row) {
                return true;
            }
        }
        false
    }
}

/// Which regions are shown, by name: of all ranges that show a region of that name, the least size that the region has by them.
#[derive(Drop)]
pub(crate) struct Shown {
    sizes: IndexMap<Vec<u8>, u128>,
}

impl Shown {
    /// By all views.
    pub(crate) fn by(alloc: Global, views: &[View<'_>]) -> Result<Shown, AllocError> {
        let mut shown = Shown {
            sizes: IndexMap::new(alloc),
        };
        for view in views {
            shown.add_rows(alloc, &view.rows)?;
        }
        Ok(shown)
    }

    fn add_rows(&mut self, alloc: Global, rows: &[&FlatRow]) -> Result<(), AllocError> {
        for row in rows {
            self.add(alloc, row)?;
        }
        Ok(())
    }

    fn add(&mut self, alloc: Global, row: &FlatRow) -> Result<(), AllocError> {
        let size = u128::from(row.offset)
            .saturating_add(u128::from(row.last.saturating_sub(row.start)))
            .saturating_add(1);
        match self.sizes.get(row.name.as_bytes()).copied() {
            Some(other) if other <= size => Ok(()),
            _ => {
                let key = row.name.as_bytes().to_vec(alloc)?;
                self.sizes.insert(key, size)?;
                Ok(())
            }
        }
    }

    /// Whether a view shows a region of this name that may have this size.
    pub(crate) fn has(&self, name: &Name, size: u128) -> bool {
        match self.sizes.get(name.as_bytes()).copied() {
            Some(least) => least <= size,
            None => false,
        }
    }
}
