//! Simplifying: two neighbouring ranges become one where the second goes on in the same leaf at the next offset.
//!
//! The last step of QEMU's rendering of an address space: of all lists of ranges that show the same, the view is
//! the one in which no two neighbours merge. The layer above may rely on it that of all lists on the same paths that show the
//! same, just one is a view.
#![tactic(auto)]

ghost use Rattle.std.specs.Prelude.{◌≡◌, ◌+◌, ◌-◌, ◌^◌, ◌<◌, ◌↔◌, ℕ, List, Some, true, IsTrue, take, length};
ghost use Rattle.std.specs.List.{slice_get};
ghost use Rattle.mem_base.specs.declared.map.ids.RegionId.{RegionId};
ghost use Rattle.mem_base.specs.declared.views.flat.FlatRange.{FlatRange};
ghost use Rattle.mem_base.specs.declared.map.forests.Forest.{Forest};
ghost use Rattle.mem_base.specs.declared.map.ids.SpaceId.{SpaceId};
ghost use Rattle.mem_base.specs.lists.Every.{Every};
ghost use Rattle.mem_base.specs.views.View.{shown, IsRanges, IsOnOnePath, IsMerged, Merges, IsView};
ghost use Rattle.mem_base.specs.views.Slices.{ranges_of, slices_of, path_told, Tells};

use mem_base::{FlatRange, Paths, Pieces, View};

/// Whether the paths at an index and before it let two ranges merge: any do where the ranges are mergeable.
fn may_join(unmergeable: bool, paths: &Paths, i: usize) -> bool
    requires some { 0 < i }
    requires within { i < length paths.now }
    ensures { IsTrue result ↔ (unmergeable ≡ true → slice_get paths.now i ≡ slice_get paths.now (i - 1)) }
{
    !unmergeable || paths.is_same(i, i - 1)
}

/// Whether the range at an index merges with the one before it, by the paths there.
fn merges(range: &FlatRange, next: &FlatRange, paths: &Paths, i: usize) -> bool
    requires some { 0 < i }
    requires within { i < length paths.now }
    ensures { (told : ℕ → List RegionId) → slice_get paths.now (i - 1) ≡ Some (told range.now.last)
        → slice_get paths.now i ≡ Some (told next.now.start) → IsTrue result ↔ Merges told range.now next.now }
{
    range.goes_on(next) && may_join(range.attrs.unmergeable, paths, i)
}

/// Merges neighbours in place by their paths, and answers how many ranges there are then.
fn merge(ranges: &mut [FlatRange], paths: &Paths) -> usize
    requires ranges { IsRanges 0 (2 ^ 64) ranges.old }
    requires paths { length paths.now ≡ length ranges.old }
    ensures ranges { IsRanges 0 (2 ^ 64) (take result ranges.new) }
    ensures merged { IsMerged (path_told (slices_of ranges.old paths.now)) (take result ranges.new) }
    ensures paths { Every (IsOnOnePath (path_told (slices_of ranges.old paths.now))) (take result ranges.new) }
    ensures shown { (a : ℕ) → shown (take result ranges.new) a ≡ shown ranges.old a }
{
    if ranges.is_empty() {
        return 0;
    }
    let mut current = ranges[0];
    let mut kept = 0;
    for i in 1..ranges.len() {
        let next = ranges[i];
        if merges(&current, &next, paths, i) {
            current.last = next.last;
        } else {
            ranges[kept] = current;
            kept += 1;
            current = next;
        }
    }
    ranges[kept] = current;
    kept + 1
}

/// The ranges with neighbours merged. It takes no memory.
fn merged(mut ranges: Vec<FlatRange>, paths: &Paths) -> Vec<FlatRange>
    requires ranges { IsRanges 0 (2 ^ 64) ranges.items }
    requires paths { length paths.now ≡ length ranges.items }
    ensures ranges { IsRanges 0 (2 ^ 64) result.items }
    ensures merged { IsMerged (path_told (slices_of ranges.items paths.now)) result.items }
    ensures paths { Every (IsOnOnePath (path_told (slices_of ranges.items paths.now))) result.items }
    ensures shown { (a : ℕ) → shown result.items a ≡ shown ranges.items a }
{
    let kept = merge(&mut ranges, paths);
    ranges.truncate(kept);
    ranges
}

/// The one view that shows what the pieces show, and in which no two neighbours merge.
///
/// Two neighbours merge where the second starts one past the last address of the first, leaf, consecutive offset and
/// all attributes agree (QEMU's core) and, where they are unmergeable, the pieces' paths are the same at the first's
/// last address and at the second's start (this project's own rule). It is one pass in place, takes no memory, and
/// cannot fail.
pub fn simplify(pieces: Pieces) -> View
    ensures shown { (a : ℕ) → shown result a ≡ shown (ranges_of pieces) a }
    ensures merged { IsMerged (path_told pieces) result }
    ensures paths { Every (IsOnOnePath (path_told pieces)) result }
    ensures ranges { IsRanges 0 (2 ^ 64) result }
    ensures view { (f : Forest) (s : SpaceId) → Tells f s pieces → IsView f s result }
    ensures only { (other : List FlatRange) → IsRanges 0 (2 ^ 64) other → IsMerged (path_told pieces) other
        → Every (IsOnOnePath (path_told pieces)) other → ((a : ℕ) → a < 2 ^ 64 → shown other a ≡ shown (ranges_of pieces) a)
        → other ≡ result }
{
    let (ranges, paths) = pieces.into_parts();
    View::new(merged(ranges, &paths))
}
