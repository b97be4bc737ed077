// The leaves of a view, by marks beside the numbers of regions.
ghost use Rattle.std.specs.Prelude.{◌≡◌, ◌==◌, ◌||◌, ℕ, false, IfOk, OnOk, length, slice_index_or};
ghost use Rattle.std.specs.List.Sorted.{IsNonDecreasingBy};
ghost use Rattle.flat_lookup.specs.Leaves.{has_number, leaf_numbers, is_noted, AreLeavesOf};

use mem_base::{FlatRange, RegionId};
use std::alloc::{AllocError, Global};
use std::marker::Model;

/// The most marks for each range: where the numbers of regions are high, the marks take no more memory than that.
const MOST_MARKS: usize = 16;

/// Numbers of regions: those below a limit by marks, the others in order. It is seen as the marks and the others.
#[derive(Debug, Drop)]
pub(crate) struct Leaves {
    // by number
    marks: Vec<bool>,
    // the numbers past all marks, ascending; one may stand there more than once
    others: Vec<u32>,
}

impl Model for Leaves {
    ghost use Rattle.std.specs.Prelude.{ℕ, Bool, List};
    ghost use Rattle.std.specs.List.Sorted.{IsNonDecreasingBy};

    ghost Value = { List Bool × List ℕ };

    ghost view = { λ l. (l.marks.items, l.others.items) };

    ghost invariant = { λ l. IsNonDecreasingBy (λ (n : ℕ). n) l.others.items };
}

impl Leaves {
    /// The leaves of some ranges.
    pub(crate) fn of(alloc: Global, ranges: &[FlatRange]) -> Result<Leaves, AllocError>
        ensures { IfOk result (λ leaves. AreLeavesOf ranges.now leaves) }
    {
        let mut marks = vec![in alloc; false; limit(ranges)]?;
        let mut others = noted(alloc, marks.as_mut_slice(), ranges)?;
        others.sort_unstable();
        Ok(Leaves { marks, others })
    }

    /// Whether a region is one of them.
    pub(crate) fn has(&self, region: RegionId) -> bool
        ensures { result ≡ is_noted self.now.0 self.now.1 region.0 }
    {
        let number = region.0 as usize;
        if number < self.marks.len() {
            return self.marks[number];
        }
        is_among(self.others.as_slice(), region)
    }
}

// How many marks there are to be: one for each number up to the highest of a leaf, unless that were too many.
fn limit(ranges: &[FlatRange]) -> usize {
    let mut most: usize = 0;
    for range in ranges {
        most = most.max(range.leaf.0 as usize);
    }
    most.saturating_add(1)
        .min(ranges.len().saturating_mul(MOST_MARKS))
}

// Whether a region's number is among some that ascend.
fn is_among(numbers: &[u32], region: RegionId) -> bool
    requires { IsNonDecreasingBy (λ (n : ℕ). n) numbers.now }
    ensures { result ≡ has_number region.0 numbers.now }
{
    match numbers.binary_search(&region.0) {
        Ok(_) => true,
        Err(_) => false,
    }
}

// Notes a leaf: by its mark, if it has one.
fn note(marks: &mut [bool], others: &mut Vec<u32>, leaf: RegionId) -> Result<(), AllocError>
    ensures noted { OnOk result ((n : ℕ) → is_noted marks.new others.new.items n ≡ (is_noted marks.old others.old.items n || leaf.0 == n)) }
    ensures length { length marks.new ≡ length marks.old }
{
    let number = leaf.0 as usize;
    if number < marks.len() {
        marks[number] = true;
        return Ok(());
    }
    others.push(leaf.0)?;
    Ok(())
}

// Marks the leaves of some ranges where they have a mark, and answers the numbers of the others.
fn noted(alloc: Global, marks: &mut [bool], ranges: &[FlatRange]) -> Result<Vec<u32>, AllocError>
    requires unmarked { (n : ℕ) → slice_index_or marks.old n false ≡ false }
    ensures noted { IfOk result (λ others. (n : ℕ) → is_noted marks.new others.items n ≡ has_number n (leaf_numbers ranges.now)) }
    ensures length { length marks.new ≡ length marks.old }
{
    let mut others = Vec::new(alloc);
    for range in ranges {
        note(marks, &mut others, range.leaf)?;
    }
    Ok(others)
}
