// In which of two views a range stands.
ghost use Rattle.std.specs.Prelude.{◌≡◌, drop};
ghost use Rattle.mem_base.specs.views.Walk.{is_same_range};
ghost use Rattle.view_walk.specs.Sides.{first_of, side_of};

use mem_base::FlatRange;

/// Which of two views have a range.
#[derive(Clone, Copy, Debug, PartialEq, Eq)]
pub(crate) enum Side {
    OldOnly(FlatRange),
    /// A range of both views, with the logging mask that each gives it.
    Both { old: FlatRange, new: FlatRange },
    NewOnly(FlatRange),
}

// Whether all but the logging mask agrees.
fn is_same(range: &FlatRange, other: &FlatRange) -> bool
    ensures { result ≡ is_same_range range.now other.now }
{
    range.start == other.start
        && range.last == other.last
        && range.leaf == other.leaf
        && range.offset == other.offset
        && range.attrs.readonly == other.attrs.readonly
        && range.attrs.nonvolatile == other.attrs.nonvolatile
        && range.attrs.romd == other.attrs.romd
        && range.attrs.unmergeable == other.attrs.unmergeable
}

/// The first of the ranges from index `i` on.
pub(crate) fn range_at(ranges: &[FlatRange], i: usize) -> Option<FlatRange>
    ensures { result ≡ first_of (drop i ranges.now) }
{
    ranges.get(i).copied()
}

/// The range that comes next in two views, by the next range of each: where they are not the same, the one that begins
/// first, and of two that begin together the old one.
pub(crate) fn next_side(old: Option<FlatRange>, new: Option<FlatRange>) -> Option<Side>
    ensures { result ≡ side_of old new }
{
    match (old, new) {
        (None, None) => None,
        (Some(old), None) => Some(Side::OldOnly(old)),
        (None, Some(new)) => Some(Side::NewOnly(new)),
        (Some(old), Some(new)) => {
            if is_same(&old, &new) {
                Some(Side::Both { old, new })
            } else if old.start <= new.start {
                Some(Side::OldOnly(old))
            } else {
                Some(Side::NewOnly(new))
            }
        }
    }
}
