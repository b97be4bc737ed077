// Flat ranges: what an address space shows, without the tree.
ghost use Rattle.std.specs.Prelude.{◌≡◌, ◌↔◌, max, min, ◌+◌, ◌-◌, ◌^◌, ◌<◌, ◌≤◌, ℕ, None, IsTrue, IfSome, IfNone, length, option_map};
ghost use Rattle.std.specs.List.{slice_get};
ghost use Rattle.mem_base.specs.views.View.{holds, seen, between, GoesOn, IsRanges};
ghost use Rattle.mem_base.specs.views.Slices.{slices_of, ranges_of};

use crate::{Attrs, Path, Paths, RegionId, Spot};
use std::marker::Model;

/// A run of addresses that one leaf answers: `start` to `last` inclusive, from `offset` in the leaf on.
#[derive(Clone, Copy, Debug, PartialEq, Eq)]
pub struct FlatRange {
    pub start: u64,
    pub last: u64,
    pub leaf: RegionId,
    pub offset: u64,
    pub attrs: Attrs,
}

impl FlatRange {
    /// Whether an address is in the range.
    pub fn contains(&self, addr: u64) -> bool
        ensures { result ≡ holds self.now addr }
    {
        self.start <= addr && addr <= self.last
    }

    /// What the range shows at an address.
    pub fn spot(&self, addr: u64) -> Option<Spot>
        requires { self.now.offset + (self.now.last - self.now.start) < 2 ^ 64 }
        ensures { result ≡ seen self.now addr }
    {
        if !self.contains(addr) {
            return None;
        }
        Some(Spot {
            leaf: self.leaf,
            offset: self.offset + (addr - self.start),
            attrs: self.attrs,
        })
    }

    /// The part of the range from one address to another, both inclusive, if it has any address there.
    pub fn part(&self, start: u64, last: u64) -> Option<FlatRange>
        requires fits { self.now.offset + (self.now.last - self.now.start) < 2 ^ 64 }
        ensures shown { IfSome result (λ part. (a : ℕ) → seen part a ≡ between (seen self.now) start last a) }
        ensures none { IfNone result ((a : ℕ) → between (seen self.now) start last a ≡ None) }
        ensures ends { IfSome result (λ part. (part.start ≡ max start self.now.start) × (part.last ≡ min last self.now.last) × (part.start ≤ part.last)) }
        ensures fits { IfSome result (λ part. part.offset + (part.last - part.start) < 2 ^ 64) }
    {
        let start = start.max(self.start);
        let last = last.min(self.last);
        if start > last {
            return None;
        }
        Some(FlatRange {
            start,
            last,
            leaf: self.leaf,
            offset: self.offset + (start - self.start),
            attrs: self.attrs,
        })
    }

    /// Whether `next` goes on where the range ends: in addresses, leaf, offset and attributes.
    ///
    /// QEMU's core merges such neighbours in a flat view, unless they are unmergeable.
    pub fn goes_on(&self, next: &FlatRange) -> bool
        ensures { IsTrue result ↔ GoesOn self.now next.now }
    {
        self.last < next.start
            && next.start - self.last == 1
            && next.leaf == self.leaf
            && self.offset <= next.offset
            && next.offset - self.offset == next.start.saturating_sub(self.start)
            && next.attrs == self.attrs
    }
}

/// A range with the path on which each of its addresses is found.
#[derive(Debug, Drop)]
pub struct Slice {
    pub range: FlatRange,
    pub path: Path,
}

/// Slices as they are rendered: their ranges ascend, are disjoint and nonempty, and have offsets below 2^64.
///
/// The ranges stand side by side with their paths, so that a view is made of them without memory; a path is spelled
/// out only where it is asked for.
#[derive(Debug, Drop)]
pub struct Pieces {
    ranges: Vec<FlatRange>,
    paths: Paths,
}

impl Model for Pieces {
    ghost use Rattle.std.specs.Prelude.{◌≡◌, List, ◌^◌, length};
    ghost use Rattle.mem_base.specs.declared.views.flat.Slice.{Slice};
    ghost use Rattle.mem_base.specs.views.View.{IsRanges};
    ghost use Rattle.mem_base.specs.views.Slices.{slices_of};

    ghost Value = { List Slice };

    ghost view = { λ p. slices_of p.ranges.items p.paths };

    ghost invariant = { λ p. IsRanges 0 (2 ^ 64) p.ranges.items × (length p.paths ≡ length p.ranges.items) };
}

impl Pieces {
    /// These ranges, each with its path.
    pub fn new(ranges: Vec<FlatRange>, paths: Paths) -> Pieces
        requires ranges { IsRanges 0 (2 ^ 64) ranges.items }
        requires paths { length paths ≡ length ranges.items }
        ensures { result ≡ slices_of ranges.items paths }
    {
        Pieces { ranges, paths }
    }

    /// The ranges, ascending, and the path of each. It takes no memory.
    pub fn into_parts(self) -> (Vec<FlatRange>, Paths)
        ensures value { self ≡ slices_of result.0.items result.1 }
        ensures ranges { IsRanges 0 (2 ^ 64) result.0.items }
        ensures paths { length result.1 ≡ length result.0.items }
    {
        (self.ranges, self.paths)
    }

    /// The ranges, ascending.
    pub fn ranges(&self) -> &[FlatRange]
        ensures value { result.now ≡ ranges_of self.now }
        ensures ranges { IsRanges 0 (2 ^ 64) result.now }
    {
        self.ranges.as_slice()
    }

    /// The path of the range at an index, spelled out.
    pub fn path(&self, i: usize) -> Option<Path>
        ensures { result ≡ option_map (λ slice. slice.path) (slice_get self.now i) }
    {
        self.paths.get(i)
    }
}

/// A flat view: ranges that ascend, are disjoint and nonempty, and have offsets below 2^64.
///
/// That no two neighbours merge depends on the paths on which they are found, so `flat_simplify` says it.
#[derive(Debug, Drop)]
pub struct View {
    ranges: Vec<FlatRange>,
}

impl Model for View {
    ghost use Rattle.std.specs.Prelude.{List, ◌^◌};
    ghost use Rattle.mem_base.specs.declared.views.flat.FlatRange.{FlatRange};
    ghost use Rattle.mem_base.specs.views.View.{IsRanges};

    ghost Value = { List FlatRange };

    ghost view = { λ v. v.ranges.items };

    ghost invariant = { λ v. IsRanges 0 (2 ^ 64) v.ranges.items };
}

impl View {
    /// These ranges.
    pub fn new(ranges: Vec<FlatRange>) -> View
        requires { IsRanges 0 (2 ^ 64) ranges.items }
        ensures { result ≡ ranges.items }
    {
        View { ranges }
    }

    /// The ranges, ascending.
    pub fn as_slice(&self) -> &[FlatRange]
        ensures value { result.now ≡ self.now }
        ensures ranges { IsRanges 0 (2 ^ 64) self.now }
    {
        self.ranges.as_slice()
    }

    /// The ranges, in a vector. It takes no memory.
    pub fn into_vec(self) -> Vec<FlatRange>
        ensures value { result.items ≡ self }
        ensures ranges { IsRanges 0 (2 ^ 64) self }
    {
        self.ranges
    }
}
