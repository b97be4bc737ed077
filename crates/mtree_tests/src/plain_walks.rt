// The same by programs that compare everything with everything.
use mem_base::{FlatRange, Live, RangeEvent, Spot};
use region_tree::Tree;
use std::alloc::{AllocError, Global};

/// A range but for its logging mask.
fn unlogged(range: &FlatRange) -> FlatRange {
    let mut plain = *range;
    plain.attrs.log = 0;
    plain
}

/// The range of a view that is the same but for its logging mask.
fn same_in(ranges: &[FlatRange], range: &FlatRange) -> Option<FlatRange> {
    for other in ranges {
        if unlogged(other) == unlogged(range) {
            return Some(*other);
        }
    }
    None
}

/// Steps that were told, which of them the plain program comes to next, and whether all before it were as they have to be.
#[derive(Drop)]
struct Told<'a> {
    steps: &'a [RangeEvent],
    at: usize,
    good: bool,
}

impl Told<'_> {
    /// The next step has to be this one.
    fn next(&mut self, step: &RangeEvent) {
        self.good = self.good && self.steps.get(self.at) == Some(step);
        self.at = self.at.saturating_add(1);
    }

    /// A range that is kept, and how its logging mask changes.
    fn keep(&mut self, from: u8, range: FlatRange) {
        let to = range.attrs.log;
        self.next(&RangeEvent::Keep(range));
        if to & !from != 0 {
            self.next(&RangeEvent::LogStart { range, from, to });
        }
        if from & !to != 0 {
            self.next(&RangeEvent::LogStop { range, from, to });
        }
    }
}

/// Whether these steps are the walk from one view to another: each old range is looked for in the new view, and then each new one in the
/// old.
pub(crate) fn is_plain_walk(steps: &[RangeEvent], old: &[FlatRange], new: &[FlatRange]) -> bool {
    let mut told = Told {
        steps,
        at: 0,
        good: true,
    };
    for range in old {
        if same_in(new, range).is_none() {
            told.next(&RangeEvent::Delete(*range));
        }
    }
    for range in new {
        match same_in(old, range) {
            Some(other) => told.keep(other.attrs.log, *range),
            None => told.next(&RangeEvent::Add(*range)),
        }
    }
    told.good && told.at == steps.len()
}

/// Whether a range shows one of these bytes of its leaf, byte by byte.
fn shows(range: &FlatRange, offset: u64, size: u8) -> bool {
    for byte in 0..size {
        let at = offset.wrapping_add(u64::from(byte));
        if range.offset <= at
            && at.wrapping_sub(range.offset) <= range.last.wrapping_sub(range.start)
        {
            return true;
        }
    }
    false
}

/// Puts one more at the end, unless it is there.
fn put(list: &mut Vec<Live>, live: Live) -> Result<(), AllocError> {
    if !list.as_slice().contains(&live) {
        list.push(live)?;
    }
    Ok(())
}

/// The ioeventfds that a range shows, at their addresses in the space.
fn put_ioeventfds(list: &mut Vec<Live>, tree: &Tree, range: &FlatRange) -> Result<(), AllocError> {
    let Some(leaf) = tree.node(range.leaf) else {
        return Ok(());
    };
    let base = i128::from(range.start).wrapping_sub(i128::from(range.offset));
    for event in leaf.events.as_slice() {
        if shows(range, event.offset, event.size) {
            put(
                list,
                Live {
                    addr: base.wrapping_add(i128::from(event.offset)),
                    size: event.size,
                    matched: event.matched,
                    value: event.value,
                    number: event.number,
                },
            )?;
        }
    }
    Ok(())
}

/// The ioeventfds that the ranges show, each once, in the order in which they are met.
pub(crate) fn plain_ioeventfds(
    alloc: Global,
    tree: &Tree,
    ranges: &[FlatRange],
) -> Result<Vec<Live>, AllocError> {
    let mut list = Vec::new(alloc);
    for range in ranges {
        put_ioeventfds(&mut list, tree, range)?;
    }
    Ok(list)
}

/// Whether these are those of the first list that the second has not.
pub(crate) fn are_without(found: &[Live], list: &[Live], others: &[Live]) -> bool {
    let mut at: usize = 0;
    for live in list {
        if !others.contains(live) {
            if found.get(at) != Some(live) {
                return false;
            }
            at = at.saturating_add(1);
        }
    }
    at == found.len()
}

/// How many ranges begin at an address or below it, by halving.
fn begun(ranges: &[FlatRange], addr: u64) -> usize {
    let mut low: usize = 0;
    let mut high = ranges.len();
    for _ in 0..64 {
        if low >= high {
            return low;
        }
        let middle = low.wrapping_add(high) / 2;
        match ranges.get(middle) {
            Some(range) if range.start <= addr => low = middle.wrapping_add(1),
            _ => high = middle,
        }
    }
    low
}

/// The last range that begins at an address or below it.
fn reached(ranges: &[FlatRange], addr: u64) -> Option<FlatRange> {
    let count = begun(ranges, addr);
    ranges.get(count.checked_sub(1)?).copied()
}

/// What the ranges show at an address.
pub(crate) fn plain_at(ranges: &[FlatRange], addr: u64) -> Option<Spot> {
    let range = reached(ranges, addr)?;
    if addr > range.last {
        return None;
    }
    Some(Spot {
        leaf: range.leaf,
        offset: range.offset.wrapping_add(addr.wrapping_sub(range.start)),
        attrs: range.attrs,
    })
}

/// The last address of the range or the hole that holds an address.
pub(crate) fn plain_run_to(ranges: &[FlatRange], addr: u64) -> u64 {
    if let Some(range) = reached(ranges, addr) {
        if addr <= range.last {
            return range.last;
        }
    }
    match ranges.get(begun(ranges, addr)) {
        Some(range) => range.start.wrapping_sub(1),
        None => u64::MAX,
    }
}
