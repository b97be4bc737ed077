// The way of each address through the map, found by itself: the searches, and the translations between them.
use mem_base::{Entry, Kind, MOST_TRANSLATIONS, Path, Perm, SpaceId, Spot};
use region_tree::Tree;
use std::alloc::{AllocError, Global};
use tree_find::find_path;

/// One search: what it finds, on which path, and the translation that is used there.
#[derive(Drop)]
struct Search {
    spot: Spot,
    path: Path,
    used: Option<Entry>,
}

/// All searches for one address, and the leaf that answers it, if any.
#[derive(Drop)]
pub(crate) struct Trail {
    searches: Vec<Search>,
    pub(crate) leaf: Option<Spot>,
}

impl Trail {
    /// Whether a translation is used.
    pub(crate) fn is_translated(&self) -> bool {
        self.searches.len() > 1
    }

    /// How many translations are used.
    pub(crate) fn count(&self) -> usize {
        let mut count: usize = 0;
        for search in &self.searches {
            if search.used.is_some() {
                count = count.saturating_add(1);
            }
        }
        count
    }

    /// Whether the n-th translation that is used is this one.
    pub(crate) fn uses(&self, n: usize, entry: &Entry) -> bool {
        match self.searches.as_slice().get(n) {
            Some(search) => search.used == Some(*entry),
            None => false,
        }
    }

    /// Whether the next address shares the route: each search finds the next byte of the same leaf, with the same attributes,
    /// the same translation and, where ranges are kept apart, on the same path; and both end in a leaf, or neither does.
    fn goes_on(&self, next: &Trail) -> bool {
        if self.searches.len() != next.searches.len() {
            return false;
        }
        for i in 0..self.searches.len().min(next.searches.len()) {
            if !is_next(&self.searches[i], &next.searches[i]) {
                return false;
            }
        }
        self.leaf.is_some() == next.leaf.is_some()
    }
}

/// Whether the second search finds the byte after the first one's.
fn is_next(one: &Search, next: &Search) -> bool {
    one.spot.leaf == next.spot.leaf
        && one.spot.attrs == next.spot.attrs
        && one.spot.offset.checked_add(1) == Some(next.spot.offset)
        && one.used == next.used
        && (!one.spot.attrs.unmergeable || one.path.as_slice() == next.path.as_slice())
}

/// How many of the first trails share a route.
pub(crate) fn sharing(trails: &[Trail]) -> usize {
    let mut count: usize = 1;
    for i in 1..trails.len() {
        if !trails[i - 1].goes_on(&trails[i]) {
            return count;
        }
        count = i + 1;
    }
    count
}

/// The translation for an offset that lets the access through.
fn used(entries: &[Entry], offset: u64, write: bool) -> Option<Entry> {
    for entry in entries {
        if offset & !entry.mask == entry.iova {
            return match (entry.perm, write) {
                (Perm::Both, _) | (Perm::Read, false) | (Perm::Write, true) => Some(*entry),
                _ => None,
            };
        }
    }
    None
}

/// What is done with an address that leads to a spot: the translation that is used, or `None` where the spot is no IOMMU
/// region.
fn at(tree: &Tree, spot: &Spot, write: bool) -> Option<Option<Entry>> {
    let node = tree.node(spot.leaf)?;
    match node.kind {
        Kind::Iommu => Some(used(node.entries.as_slice(), spot.offset, write)),
        _ => None,
    }
}

/// The trail of an address.
pub(crate) fn trail_of(
    alloc: Global,
    tree: &Tree,
    space: SpaceId,
    addr: u64,
    write: bool,
) -> Result<Trail, AllocError> {
    let mut searches = Vec::new(alloc);
    let (mut space, mut addr) = (space, addr);
    let mut leaf = None;
    for i in 0..=MOST_TRANSLATIONS {
        let Some((spot, path)) = find_path(tree, space, addr) else {
            break;
        };
        let here = at(tree, &spot, write);
        let used = if i < MOST_TRANSLATIONS {
            here.flatten()
        } else {
            None
        };
        searches.push(Search { spot, path, used })?;
        if here.is_none() {
            leaf = Some(spot);
        }
        let Some(entry) = used else {
            break;
        };
        space = entry.space;
        addr = (entry.translated & !entry.mask) | (spot.offset & entry.mask);
    }
    Ok(Trail { searches, leaf })
}

/// Adds the trails of this many addresses, but for those past 2^64 - 1.
pub(crate) fn put_trails(
    alloc: Global,
    trails: &mut Vec<Trail>,
    tree: &Tree,
    (space, addr, write): (SpaceId, u64, bool),
    count: usize,
) -> Result<(), AllocError> {
    for i in 0..count {
        let Some(at) = addr.checked_add(i as u64) else {
            break;
        };
        let trail = trail_of(alloc, tree, space, at, write)?;
        trails.push(trail)?;
    }
    Ok(())
}
