// A tree beside the plain program, and how the two are compared.

use crate::grid::{STRETCHES, last_of, start_of};
use crate::plain::Plain;
use mem_base::{Call, FlatRange, Refusal, SpaceId, Spot};
use rand_pcg::Lcg64Xsh32;
use region_tree::Tree;
use std::alloc::Global;
use tree_find::find;

/// How many kinds of things a trial may count.
pub(crate) const KINDS: usize = 7;

/// One forest, kept twice, and what draws the calls that make it.
#[derive(Drop)]
pub(crate) struct Case {
    pub(crate) tree: Tree,
    pub(crate) plain: Plain,
    pub(crate) rng: Lcg64Xsh32,
    pub(crate) seed: u64,
    /// How many calls were refused.
    pub(crate) refused: u64,
    pub(crate) counts: [u64; KINDS],
}

impl Case {
    /// An empty map, with what was counted before.
    pub(crate) fn new(alloc: Global, seed: u64, counts: [u64; KINDS]) -> Case {
        Case {
            tree: Tree::new(alloc),
            plain: Plain::new(alloc),
            rng: Lcg64Xsh32::new(seed, 54),
            seed,
            refused: 0,
            counts,
        }
    }

    /// Does a call in the tree, and in the plain program where the tree accepts it.
    pub(crate) fn call(&mut self, call: &Call) -> Result<(), Refusal> {
        match self.tree.apply(call) {
            Ok(_) => self.plain.accept(call)?,
            Err(Refusal::Memory) => return Err(Refusal::Memory),
            Err(_) => self.refused = self.refused.saturating_add(1),
        }
        Ok(())
    }

    /// Does these calls.
    pub(crate) fn run(&mut self, calls: &[Call]) -> Result<(), Refusal> {
        for call in calls {
            self.call(call)?;
        }
        Ok(())
    }

    /// Counts some things more of a kind.
    pub(crate) fn count(&mut self, kind: usize, more: usize) {
        add_to(&mut self.counts, kind, more);
    }
}

/// Counts some things more of a kind.
fn add_to(counts: &mut [u64; KINDS], kind: usize, more: usize) {
    if let Some(count) = counts.get_mut(kind) {
        *count = count.saturating_add(more as u64);
    }
}

/// What some ranges show at an address.
fn shown(ranges: &[FlatRange], addr: u64) -> Option<Spot> {
    for range in ranges {
        if range.start <= addr && addr <= range.last {
            return Some(Spot {
                leaf: range.leaf,
                offset: range.offset.wrapping_add(addr - range.start),
                attrs: range.attrs,
            });
        }
    }
    None
}

/// Whether the tree, the plain program and the ranges of its view find the same at these addresses.
fn agree_at(case: &Case, ranges: &[FlatRange], space: SpaceId, addrs: [u64; 3]) -> bool {
    for addr in addrs {
        let want = case.plain.look(space, addr);
        if find(&case.tree, space, addr) != want || shown(ranges, addr) != want {
            return false;
        }
    }
    true
}

/// Whether they find the same at and beside each boundary of the grid.
pub(crate) fn agree(case: &Case, ranges: &[FlatRange], space: SpaceId) -> bool {
    for stretch in 0..STRETCHES {
        let start = start_of(stretch);
        let addrs = [start, start.wrapping_add(1), last_of(stretch)];
        if !agree_at(case, ranges, space, addrs) {
            return false;
        }
    }
    true
}
