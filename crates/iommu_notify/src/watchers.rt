// One watcher.
ghost use Rattle.std.specs.Prelude.{◌≡◌, ◌≤◌, ◌++◌, IfOk, OnOk, []};
ghost use Rattle.mem_base.specs.script.Watching.{parts_shown, with_parts, notices_of};
ghost use Rattle.iommu_notify.specs.PartLists.{AreParts};
ghost use Rattle.iommu_notify.specs.Watchers.{joined, new_watcher};

use crate::differences::tell;
use crate::parts::parts_in;
use generation::Generation;
use mem_base::{Notice, Part, RegionId, WatcherId};
use std::alloc::{AllocError, Global};
use std::marker::Model;

/// A range of one region's table, from `first` to `last` inclusive, that is watched; and the parts of it that the watcher was
/// told of.
#[derive(Debug, Drop)]
pub(crate) struct Watcher {
    id: WatcherId,
    region: RegionId,
    first: u64,
    last: u64,
    parts: Vec<Part>,
    // how many notices there were when it joined
    since: usize,
}

impl Model for Watcher {
    ghost use Rattle.iommu_notify.specs.Watchers.{Joined, IsWatcher, seen};

    ghost Value = { Joined };

    ghost view = { λ w. seen w };

    ghost invariant = { λ w. IsWatcher (seen w).watcher };
}

impl Watcher {
    /// A watcher of a range, which was told of no part yet, when there were this many notices.
    pub(crate) fn new(
        alloc: Global,
        id: WatcherId,
        region: RegionId,
        first: u64,
        last: u64,
        since: usize,
    ) -> Watcher
        requires { first ≤ last }
        ensures { result ≡ joined (new_watcher id region first last) since }
    {
        Watcher {
            id,
            region,
            first,
            last,
            parts: Vec::new(alloc),
            since,
        }
    }

    /// Its id.
    pub(crate) fn id(&self) -> WatcherId
        ensures { result ≡ self.now.watcher.id }
    {
        self.id
    }

    /// The watcher when it has caught up with a generation; what it is told on the way there is added to the notices.
    pub(crate) fn caught_up(
        &self,
        alloc: Global,
        generation: &Generation,
        notices: &mut Vec<(WatcherId, Notice)>,
    ) -> Result<Watcher, AllocError>
        ensures watcher { IfOk result (λ w. w ≡ joined
            (with_parts (parts_shown generation.now.forest self.now.watcher) self.now.watcher) self.now.since) }
        ensures parts { IfOk result (λ w. AreParts w.watcher.parts) }
        ensures told { OnOk result (notices.new.items ≡ notices.old.items ++ notices_of
            (parts_shown generation.now.forest self.now.watcher) self.now.watcher) }
    {
        let parts = parts_in(alloc, generation, self.region, self.first, self.last)?;
        tell(notices, self.id, &self.parts, &parts)?;
        Ok(Watcher {
            id: self.id,
            region: self.region,
            first: self.first,
            last: self.last,
            parts,
            since: self.since,
        })
    }

    /// Tells it that all parts which it has are gone.
    pub(crate) fn taken_back(
        &self,
        notices: &mut Vec<(WatcherId, Notice)>,
    ) -> Result<(), AllocError>
        ensures { OnOk result (notices.new.items ≡ notices.old.items ++ notices_of [] self.now.watcher) }
    {
        tell(notices, self.id, &self.parts, &[])?;
        Ok(())
    }
}
