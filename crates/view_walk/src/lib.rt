//! The walk from an old view to a new one: what listeners are told of the ranges of an address space.
//!
//! QEMU's core, `address_space_update_topology_pass`: a range that is in the old view only is deleted, one that is in
//! both is kept, one that is in the new view only is added; all deletes come first. The layer above may rely on it that
//! the walk, replayed on the old view, gives the new one.
#![tactic(auto)]

ghost use Rattle.std.specs.Prelude.{◌≡◌, ◌++◌, IfOk, OnOk, Some};
ghost use Rattle.mem_base.specs.views.Walk.{added_or_kept, walk};

mod sides;

use crate::sides::{Side, next_side, range_at};
use mem_base::{FlatRange, RangeEvent, View, Walk};
use std::alloc::{AllocError, Global};

/// Keeps a range that is in both views, and tells how its logging mask differs.
fn keep(steps: &mut Vec<RangeEvent>, old: FlatRange, new: FlatRange) -> Result<(), AllocError>
    ensures { OnOk result (steps.new.items ≡ steps.old.items ++ added_or_kept new (Some old)) }
{
    let (from, to) = (old.attrs.log, new.attrs.log);
    steps.push(RangeEvent::Keep(new))?;
    if from | to != from {
        steps.push(RangeEvent::LogStart {
            range: new,
            from,
            to,
        })?;
    }
    if to | from != to {
        steps.push(RangeEvent::LogStop {
            range: new,
            from,
            to,
        })?;
    }
    Ok(())
}

/// The walk from a view to itself, as `walk` gives it: a Keep for each range. Nothing is compared.
pub fn keep_all(alloc: Global, view: &View) -> Result<Walk, AllocError>
    ensures value { IfOk result (λ steps. steps ≡ walk view.now view.now) }
{
    let ranges = view.as_slice();
    let mut steps = Vec::with_capacity(alloc, ranges.len())?;
    for range in ranges {
        steps.push(RangeEvent::Keep(*range))?;
    }
    Ok(Walk::new(steps))
}

/// The walk from one view to another, in one pass over both.
///
/// First a Delete for each old range that is no range of the new view, ascending. Then for each new range, ascending: an
/// Add where it is no range of the old view, else a Keep, followed by a LogStart where its logging mask has gained bits,
/// and by a LogStop where it has lost some. Ranges are compared by all but their logging mask.
pub fn walk(alloc: Global, old: &View, new: &View) -> Result<Walk, AllocError>
    ensures value { IfOk result (λ steps. steps ≡ walk old.now new.now) }
{
    let (olds, news) = (old.as_slice(), new.as_slice());
    let mut steps = Vec::new(alloc);
    let mut shown = Vec::with_capacity(alloc, news.len())?;
    let (mut i, mut j) = (0, 0);
    while let Some(next) = next_side(range_at(olds, i), range_at(news, j)) {
        match next {
            Side::OldOnly(old) => {
                steps.push(RangeEvent::Delete(old))?;
                i += 1;
            }
            Side::Both { old, new } => {
                keep(&mut shown, old, new)?;
                i += 1;
                j += 1;
            }
            Side::NewOnly(new) => {
                shown.push(RangeEvent::Add(new))?;
                j += 1;
            }
        }
    }
    steps.append(&mut shown)?;
    Ok(Walk::new(steps))
}
