// All that the writer keeps of the map between two calls.
ghost use Rattle.std.specs.Prelude.{◌≡◌, ◌<◌, [], IfOk, vec_len, vec_capacity};
ghost use Rattle.mem_base.specs.lists.Sorting.{put_by};
ghost use Rattle.mem_base.specs.machine.Desk.{region_order};
ghost use Rattle.writer_desk.specs.Writers.{dropped_with, first_state};
ghost use Rattle.writer_desk.specs.Listened.{resting};

use crate::listened::ListenedDesk;
use mem_base::{Call, Config, RegionId};
use std::alloc::{AllocError, Global};

/// All that the writer keeps of the map between two calls: nothing is due then.
#[derive(Drop)]
pub struct IdleDesk {
    /// The map with its pool, and who listens.
    pub listened: ListenedDesk,
    /// The regions that were dropped and are not released yet, ascending.
    pub dropped: Vec<RegionId>,
}

impl IdleDesk {
    /// An empty map over a pool of this many words, without listeners and dropped regions.
    ///
    /// It fails only where memory runs out.
    pub fn new(alloc: Global, words: usize) -> Result<IdleDesk, AllocError>
        ensures listened { IfOk result (λ desk. resting desk.listened ≡ first_state words) }
        ensures dropped { IfOk result (λ desk. desk.dropped.items ≡ []) }
    {
        Ok(IdleDesk {
            listened: ListenedDesk::new(alloc, words)?,
            dropped: Vec::new(alloc),
        })
    }
}

// Puts a region to its place among others that ascend. There is room for one more.
fn put(regions: &mut Vec<RegionId>, region: RegionId)
    requires room { vec_len regions.old < vec_capacity regions.old }
    ensures { regions.new.items ≡ put_by region_order region regions.old.items }
{
    let mut at = 0;
    while at < regions.len() && regions[at].0 <= region.0 {
        at += 1;
    }
    let _ = regions.insert(at, region);
}

/// The dropped regions, which ascend, after an accepted event: a region that it drops is one of them. There is room for one
/// more, so it takes no memory.
pub fn note_drop(dropped: &mut Vec<RegionId>, config: &Config)
    requires room { vec_len dropped.old < vec_capacity dropped.old }
    ensures { dropped.new.items ≡ dropped_with config.now dropped.old.items }
{
    if let Config::Call(Call::Drop { region }) = *config {
        put(dropped, region);
    }
}
