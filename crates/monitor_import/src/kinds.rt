// What the regions of a script are made as.

use crate::flats::{Shown, View, view_of};
use crate::trees::{Node, Trees};
use mem_base::{MOST_BYTES, PAGE_SIZE};
use monitor_text::RowKind;

/// What a region is made as.
#[derive(Clone, Copy, Debug, PartialEq, Eq)]
pub(crate) enum Made {
    Container,
    Io,
    /// A device that stands for memory that the machine of a script cannot have.
    Memory,
    Ram,
    Rom,
    RomDevice,
    Alias,
    /// A container with the parts of an alias that is taken apart.
    Apart,
}

impl Made {
    /// The word of the script language.
    pub(crate) fn word(self) -> &'static str {
        match self {
            Made::Container | Made::Apart => " container 0x",
            Made::Io | Made::Memory => " io 0x",
            Made::Ram => " ram 0x",
            Made::Rom => " rom 0x",
            Made::RomDevice => " romdev 0x",
            Made::Alias => " alias 0x",
        }
    }

    /// What stands behind the size.
    pub(crate) fn ending(self) -> &'static str {
        match self {
            Made::Io | Made::RomDevice => " latch",
            Made::Memory => " latch # memory",
            Made::Apart => " # an alias of what it stands in, taken apart",
            _ => "",
        }
    }

    /// The words of 8 bytes that a region of this size takes in the machine, with the marks of its pages.
    pub(crate) fn words(self, size: u128) -> u128 {
        let marks = (size / u128::from(PAGE_SIZE)).saturating_add(63) / 64;
        let words = (size / 8).saturating_add(marks.saturating_mul(3));
        match self {
            Made::Ram | Made::Rom => words,
            Made::RomDevice => words.saturating_add(1),
            Made::Io | Made::Memory => 1,
            Made::Container | Made::Alias | Made::Apart => 0,
        }
    }
}

// Whether the machine of a script can have memory of this size.
fn may_be_memory(size: u128) -> bool {
    size % u128::from(PAGE_SIZE) == 0 && size <= u128::from(MOST_BYTES)
}

// Whether a node is switched off, or a container of it.
fn is_off(trees: &Trees<'_>, at: usize) -> bool {
    let mut at = at;
    for _ in 0..trees.nodes.len() {
        let Some(node) = trees.nodes.get(at) else {
            return false;
        };
        if node.row.disabled {
            return true;
        }
        let Some(parent) = node.parent else {
            return false;
        };
        at = parent;
    }
    false
}

// Whether another node below a node has its name.
fn has_namesake(trees: &Trees<'_>, at: usize, node: &Node<'_>) -> bool {
    let mut count = 0usize;
    for other in trees.family(at) {
        if other.is_named(&node.row.name) {
            count = count.saturating_add(1);
        }
    }
    count > 1
}

// Whether another region has the name of the one for which a node stands.
fn is_shared(trees: &Trees<'_>, regions: &[usize], at: usize, node: &Node<'_>) -> bool {
    for (other, region) in trees.nodes.iter().zip(regions.iter()) {
        if *region != at && other.row.window.is_none() && other.is_named(&node.row.name) {
            return true;
        }
    }
    false
}

// Whether the view of its tree shows a node that has others below it; where the tree has no view, or no other region has its name, a region
// of that name in any view is it.
fn is_shown(
    trees: &Trees<'_>,
    views: &[View<'_>],
    regions: &[usize],
    at: usize,
    node: &Node<'_>,
) -> bool {
    match view_of(views, trees, node.tree) {
        Some(view) => view.has(node) || !is_shared(trees, regions, at, node),
        None => true,
    }
}

// Whether what is printed as `i/o` is a device. A view that shows the region tells that it is, where no other below it has its name;
// without views, what has others below it only groups them.
fn is_device(
    trees: &Trees<'_>,
    views: &[View<'_>],
    shown: &Option<Shown>,
    regions: &[usize],
    at: usize,
    node: &Node<'_>,
) -> bool {
    match shown {
        Some(shown) => {
            if trees.is_parent(at) {
                shown.has(&node.row.name, node.size())
                    && !has_namesake(trees, at, node)
                    && is_shown(trees, views, regions, at, node)
            } else {
                shown.has(&node.row.name, node.size()) || is_off(trees, at)
            }
        }
        None => !trees.is_parent(at),
    }
}

/// What a node's region is made as.
pub(crate) fn made_as(
    trees: &Trees<'_>,
    views: &[View<'_>],
    shown: &Option<Shown>,
    regions: &[usize],
    at: usize,
    node: &Node<'_>,
) -> Made {
    if node.row.window.is_some() {
        return Made::Alias;
    }
    match node.row.kind {
        RowKind::Io if is_device(trees, views, shown, regions, at, node) => Made::Io,
        RowKind::Io => Made::Container,
        _ if !may_be_memory(node.size()) => Made::Memory,
        RowKind::Rom => Made::Rom,
        RowKind::RomDevice => Made::RomDevice,
        RowKind::Ram | RowKind::RamDevice => Made::Ram,
    }
}
