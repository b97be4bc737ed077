// What an access reaches where a route ends.
ghost use Rattle.std.specs.Prelude.{◌≡◌, ◌≤◌, ◌<◌, ◌+◌, ◌^◌, IfOk, length, true};
ghost use Rattle.mem_base.specs.access.AccessSteps.{part};
ghost use Rattle.mem_base.specs.access.Marks.{marks_of};
ghost use Rattle.mem_base.specs.access.Plans.{in_memory, reached};
ghost use Rattle.access_base.specs.Leaves.{IsTargetRun};
ghost use Rattle.access_plan.specs.HostPlans.{answerer_with_host};
ghost use Rattle.access_plan.specs.Lists.{Adds, marks_in, moved};

use crate::answerers::{Answerer, answerer_of};
use crate::devices::device;
use crate::lists::Reach;
use dirty_log::marks_of;
use generation::Generation;
use mem_base::{RegionId, Spot, Target};
use std::alloc::AllocError;

// The pages that a write of some bytes marks, from an offset on, for each client of a logging mask.
fn marks(
    list: &mut Vec<Reach>,
    region: RegionId,
    log: u8,
    offset: u64,
    bytes: &[u8],
    at: usize,
    len: usize,
) -> Result<(), AllocError>
    ensures { IfOk result (λ _. Adds (moved true bytes.now) list.old.items list.new.items (marks_in region (marks_of log offset len)) at at) }
{
    let mut marks = marks_of(log, offset, len as u64);
    while let Some((page, client)) = marks.next() {
        list.push(Reach::Mark {
            region,
            client,
            page,
        })?;
    }
    Ok(())
}

// What bytes of memory reach: the memory, and after a write the marks of its pages.
fn memory(
    list: &mut Vec<Reach>,
    spot: &Spot,
    write: bool,
    bytes: &[u8],
    at: usize,
    len: usize,
) -> Result<(), AllocError>
    requires within { write ≡ true → at + len ≤ length bytes.now }
    ensures { IfOk result (λ _. Adds (moved write bytes.now) list.old.items list.new.items (in_memory spot.now (part at len (moved write bytes.now)))
        at (at + len)) }
{
    list.push(Reach::Memory {
        region: spot.leaf,
        offset: spot.offset,
        at,
        len,
    })?;
    if write {
        marks(
            list,
            spot.leaf,
            spot.attrs.log,
            spot.offset,
            bytes,
            at + len,
            len,
        )?;
    }
    Ok(())
}

/// What some bytes of an access reach where they lead. They lie in the leaf's region.
pub(crate) fn target(
    list: &mut Vec<Reach>,
    g: &Generation,
    target: &Target,
    write: bool,
    bytes: &[u8],
    at: usize,
    len: usize,
) -> Result<(), AllocError>
    requires run { IsTargetRun g.now.forest target.now len }
    requires within { write ≡ true → at + len ≤ length bytes.now }
    requires bound { at + len < 2 ^ 64 }
    ensures { IfOk result (λ _. Adds (moved write bytes.now) list.old.items list.new.items
        (reached (answerer_with_host g.now.forest write target.now) (part at len (moved write bytes.now))) at (at + len)) }
{
    if let Target::Leaf(spot) = target {
        match answerer_of(g, spot, write) {
            Answerer::Memory => return memory(list, spot, write, bytes, at, len),
            Answerer::Device(ops) => {
                return device(list, g, spot.leaf, &ops, spot.offset, write, bytes, at, len);
            }
            Answerer::Nobody => {}
        }
    }
    list.push(Reach::Nothing { at, len })?;
    Ok(())
}
