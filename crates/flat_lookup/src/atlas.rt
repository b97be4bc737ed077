// A view with levels over the starts of its ranges.
ghost use Rattle.std.specs.Prelude.{◌≡◌, ◌+◌, ◌-◌, ◌≤◌, ◌^◌, ◌<◌, length, MatchResult, IfOk};
ghost use Rattle.mem_base.specs.views.View.{shown, IsRanges};
ghost use Rattle.mem_base.specs.views.Naming.{has_leaf};
ghost use Rattle.flat_lookup.specs.Leaves.{AreLeavesOf};
ghost use Rattle.flat_lookup.specs.Atlases.{HasLevels, starts_of, run_end, AreProbes, end_at, no_range};

use crate::leaves::Leaves;
use crate::levels::{Level, levels_over, place};
use mem_base::{FlatRange, RegionId, Spot, View};
use std::alloc::{AllocError, Global};
use std::marker::Model;
use std::sync::ledger::Ledger;
use step_counter::Steps;

/// A view in which an address is found quickly: QEMU's core has a radix tree of pages for this (`AddressSpaceDispatch`),
/// here there are levels over the starts of the ranges. The keys of a node lie together in memory.
#[derive(Debug, Drop)]
pub struct Atlas {
    ranges: View,
    levels: Vec<Level>,
    leaves: Leaves,
}

impl Model for Atlas {
    ghost use Rattle.std.specs.Prelude.{List};
    ghost use Rattle.mem_base.specs.declared.views.flat.FlatRange.{FlatRange};

    ghost Value = { List FlatRange };

    ghost use Rattle.flat_lookup.specs.Atlases.{IsAtlas};

    ghost view = { λ a. a.ranges };

    ghost invariant = { λ a. IsAtlas a.ranges a.levels.items a.leaves };
}

// The starts of ranges.
fn starts(alloc: Global, ranges: &[FlatRange]) -> Result<Vec<u64>, AllocError>
    ensures { IfOk result (λ keys. keys.items ≡ starts_of ranges.now) }
{
    ranges.iter().map(|range| range.start).collect(alloc)
}

// The levels over the starts of ranges, if there are any.
fn levels_of(alloc: Global, ranges: &[FlatRange]) -> Result<Vec<Level>, AllocError>
    requires ranges { IsRanges 0 (2 ^ 64) ranges.now }
    ensures { IfOk result (λ levels. HasLevels ranges.now levels.items) }
{
    if ranges.is_empty() {
        return Ok(Vec::new(alloc));
    }
    let keys = starts(alloc, ranges)?;
    let levels = levels_over(alloc, keys)?;
    Ok(levels)
}

// What an atlas keeps beside its ranges.
fn parts(alloc: Global, ranges: &[FlatRange]) -> Result<(Vec<Level>, Leaves), AllocError>
    requires ranges { IsRanges 0 (2 ^ 64) ranges.now }
    ensures levels { IfOk result (λ parts. HasLevels ranges.now parts.0.items) }
    ensures leaves { IfOk result (λ parts. AreLeavesOf ranges.now parts.1) }
{
    let levels = levels_of(alloc, ranges)?;
    let leaves = Leaves::of(alloc, ranges)?;
    Ok((levels, leaves))
}

impl Atlas {
    /// The atlas of a view. Out of memory, the view is given back. It takes time linear in the ranges, but for leaves whose
    /// numbers are at least sixteen times as high as the ranges are many: those are sorted.
    pub fn new(alloc: Global, view: View) -> Result<Atlas, (AllocError, View)>
        ensures value { MatchResult result (λ atlas. atlas ≡ view) (λ e. e.1 ≡ view) }
    {
        match parts(alloc, view.as_slice()) {
            Ok((levels, leaves)) => Ok(Atlas {
                ranges: view,
                levels,
                leaves,
            }),
            Err(e) => Err((e, view)),
        }
    }

    /// The view that the look-ups are made in.
    pub fn view(&self) -> &View
        ensures { result.now ≡ self.now }
    {
        &self.ranges
    }

    /// What the view shows at an address: `None` exactly where no range holds it.
    ///
    /// It takes no memory. A probe reads one node of at most 16 keys, and there are at most k probes where 16^k is at
    /// least twice the number of ranges and one.
    pub fn at<L: Ledger>(&self, addr: u64, steps: &mut Steps<L>) -> Option<Spot>
        ensures value { result ≡ shown self.now addr }
        ensures probes { AreProbes (steps.new - steps.old) (length self.now) }
    {
        let ranges = self.ranges.as_slice();
        if ranges.is_empty() {
            return None;
        }
        if addr < ranges[0].start {
            return None;
        }
        let at = place(self.levels.as_slice(), addr, steps);
        ranges[at].spot(addr)
    }

    /// The last address of the range that holds an address, or else of the hole that does.
    ///
    /// It takes no memory, and keeps within the same bound on probes as `at`.
    pub fn run_to<L: Ledger>(&self, addr: u64, steps: &mut Steps<L>) -> u64
        ensures value { result ≡ run_end self.now addr }
        ensures probes { AreProbes (steps.new - steps.old) (length self.now) }
    {
        let ranges = self.ranges.as_slice();
        if ranges.is_empty() {
            return u64::MAX;
        }
        if addr < ranges[0].start {
            return ranges[0].start - 1;
        }
        let at = place(self.levels.as_slice(), addr, steps);
        end_after(ranges, at, addr)
    }

    /// What `at` and `run_to` answer together, by one search: what the view shows at an address, and the last address of the
    /// range or hole that holds it.
    ///
    /// It takes no memory, and keeps within the same bound on probes as `at`.
    pub fn run_at<L: Ledger>(&self, addr: u64, steps: &mut Steps<L>) -> (Option<Spot>, u64)
        ensures spot { result.0 ≡ shown self.now addr }
        ensures last { result.1 ≡ run_end self.now addr }
        ensures holds { addr ≤ result.1 }
        ensures probes { AreProbes (steps.new - steps.old) (length self.now) }
    {
        let ranges = self.ranges.as_slice();
        if ranges.is_empty() {
            return (None, u64::MAX);
        }
        if addr < ranges[0].start {
            return (None, ranges[0].start - 1);
        }
        let at = place(self.levels.as_slice(), addr, steps);
        (ranges[at].spot(addr), end_after(ranges, at, addr))
    }

    /// Whether some range has this leaf. It takes no memory, and one look where the region's number is low; at most the time that
    /// grows with the logarithm of the ranges.
    pub fn has_leaf(&self, region: RegionId) -> bool
        ensures { result ≡ has_leaf region self.now }
    {
        self.leaves.has(region)
    }
}

// The end of the run at a place.
fn end_after(ranges: &[FlatRange], at: usize, addr: u64) -> u64
    requires { at < length ranges.now }
    ensures { result ≡ end_at ranges.now addr at no_range }
{
    let last = ranges[at].last;
    if addr <= last {
        return last;
    }
    if at + 1 < ranges.len() {
        return ranges[at + 1].start.saturating_sub(1);
    }
    u64::MAX
}
