// Which regions are leaves, by marks beside their numbers.
ghost use Rattle.std.specs.Prelude.{◌≡◌, ◌==◌, IfOk, length};
ghost use Rattle.std.specs.List.{list_any};
ghost use Rattle.std.specs.Arc.{arc_value};
ghost use Rattle.mem_base.specs.views.Naming.{has_leaf};
ghost use Rattle.transact.specs.Marks.{is_leaf_number, Marks, AreLeafMarks};

use flat_lookup::Atlas;
use generation::is_leaf_among;
use mem_base::{FlatRange, RegionId, SpaceId};
use std::alloc::{AllocError, Global};
use std::sync::Arc;

// Marks a region, if its number is below that of the marks.
fn mark(marks: &mut [bool], region: RegionId)
    ensures marks { Marks marks.old (λ n. region.0 == n) marks.new }
    ensures length { length marks.new ≡ length marks.old }
{
    let number = region.0 as usize;
    if number < marks.len() {
        marks[number] = true;
    }
}

// Marks the leaves of some ranges.
fn mark_leaves(marks: &mut [bool], ranges: &[FlatRange])
    ensures marks { Marks marks.old (is_leaf_number ranges.now) marks.new }
    ensures length { length marks.new ≡ length marks.old }
{
    for range in ranges {
        mark(marks, range.leaf);
    }
}

/// A mark for each region with a number below `regions`: whether it is a leaf in the view of one of these atlases.
pub(crate) fn leaf_marks(
    alloc: Global,
    atlases: &[(SpaceId, Arc<Atlas, Global>)],
    regions: usize,
) -> Result<Vec<bool>, AllocError>
    ensures { IfOk result (λ marks. AreLeafMarks arc_value atlases.now marks.items) }
{
    let mut marks = vec![in alloc; false; regions]?;
    for (_, atlas) in atlases {
        mark_leaves(marks.as_mut_slice(), atlas.view().as_slice());
    }
    Ok(marks)
}

/// Whether a region is a leaf in the view of one of these atlases: by its mark, if it has one.
pub(crate) fn is_leaf(
    atlases: &[(SpaceId, Arc<Atlas, Global>)],
    marks: &[bool],
    region: RegionId,
) -> bool
    requires { AreLeafMarks arc_value atlases.now marks.now }
    ensures { result ≡ list_any (λ p. has_leaf region (arc_value p.1)) atlases.now }
{
    let number = region.0 as usize;
    if number < marks.len() {
        return marks[number];
    }
    is_leaf_among(atlases, region)
}
