// All watchers, and all that they were told.
ghost use Rattle.std.specs.Prelude.{◌≡◌, ◌≢◌, ◌++◌, ◌∷◌, [], true, false, None, Some, map, flat_map, length, IfOk, OnOk, OnErr};
ghost use Rattle.std.specs.Prelude.{IfErr};
ghost use Rattle.std.specs.List.{list_any};
ghost use Rattle.mem_base.specs.declared.map.refusals.What.TheVariants as what;
ghost use Rattle.mem_base.specs.declared.map.refusals.Refusal.TheVariants.{Memory, Unknown};
ghost use Rattle.mem_base.specs.script.Watching.{notices_all, notices_of, caught_up, with_parts, parts_shown, with_number};
ghost use Rattle.mem_base.specs.script.Watching.{without_number};
ghost use Rattle.mem_base.specs.lists.Every.{Every};
ghost use Rattle.iommu_notify.specs.PartLists.{AreParts};
ghost use Rattle.iommu_notify.specs.Watchers.{caught, has_watcher, is_joined, join_refusal, joined, leaving, new_watcher, others};
ghost use Rattle.iommu_notify.specs.Watchers.{told, watchers_of, AreReplayed};

use crate::watchers::Watcher;
use generation::Generation;
use mem_base::{MOST_WATCHERS, Notice, Refusal, RegionId, WatcherId, What, Which};
use std::alloc::{AllocError, Global};
use std::marker::Model;

/// The watchers of IOMMU regions' tables, in order of joining, and all notices that they got, the oldest first.
///
/// Each watcher has a range of one region's table. Its notices since it joined, one after another, leave it just the parts
/// of the table that it was told of.
#[derive(Debug, Drop)]
pub struct Notices {
    alloc: Global,
    watchers: Vec<Watcher>,
    journal: Vec<(WatcherId, Notice)>,
}

impl Model for Notices {
    ghost use Rattle.iommu_notify.specs.Watchers.{NoticesState, AreReplayed};

    ghost Value = { NoticesState };

    ghost view = { λ n. record { joined = n.watchers.items; journal = n.journal.items } };

    ghost invariant = { λ n. AreReplayed (record { joined = n.watchers.items; journal = n.journal.items }) };
}

// Whether one of these watchers has an id.
fn has_id(watchers: &[Watcher], id: WatcherId) -> bool
    ensures { result ≡ list_any (is_joined id) watchers.now }
{
    watchers.iter().any(|watcher| watcher.id().0 == id.0)
}

// The watchers when they have caught up with a generation; what they are told on the way there is added to the notices.
fn all_caught_up(
    alloc: Global,
    watchers: &[Watcher],
    generation: &Generation,
    notices: &mut Vec<(WatcherId, Notice)>,
) -> Result<Vec<Watcher>, AllocError>
    ensures watchers { IfOk result (λ ws. ws.items ≡ map (caught generation.now.forest) watchers.now) }
    ensures parts { IfOk result (λ ws. Every (λ j. AreParts j.watcher.parts) ws.items) }
    ensures told { OnOk result (notices.new.items ≡ notices.old.items ++ flat_map (told generation.now.forest) watchers.now) }
{
    let mut caught_up = Vec::new(alloc);
    for watcher in watchers {
        caught_up.push(watcher.caught_up(alloc, generation, notices)?)?;
    }
    Ok(caught_up)
}

// Tells those of the watchers that have an id that their parts are gone.
fn take_back(
    watchers: &[Watcher],
    id: WatcherId,
    notices: &mut Vec<(WatcherId, Notice)>,
) -> Result<(), AllocError>
    ensures { OnOk result (notices.new.items ≡ notices.old.items ++ leaving id watchers.now) }
{
    for watcher in watchers {
        if watcher.id().0 == id.0 {
            watcher.taken_back(notices)?;
        }
    }
    Ok(())
}

impl Notices {
    /// No watcher and no notice.
    pub fn new(alloc: Global) -> Notices
        ensures joined { result.joined ≡ [] }
        ensures journal { result.journal ≡ [] }
    {
        Notices {
            alloc,
            watchers: Vec::new(alloc),
            journal: Vec::new(alloc),
        }
    }

    /// All notices, the oldest first, each with the watcher that got it.
    pub fn journal(&self) -> &[(WatcherId, Notice)]
        ensures { result.now ≡ self.now.journal }
    {
        self.journal.as_slice()
    }

    /// How many watch.
    pub fn len(&self) -> usize
        ensures { result ≡ length (watchers_of self.now) }
    {
        self.watchers.as_slice().len()
    }

    /// Whether a watcher is there.
    pub fn has(&self, id: WatcherId) -> bool
        ensures { result ≡ has_watcher self.now id }
    {
        has_id(self.watchers.as_slice(), id)
    }

    // Why a watcher does not join.
    fn join_refusal(&self, id: WatcherId, first: u64, last: u64) -> Option<Refusal>
        ensures { result ≡ join_refusal self.now id first last }
    {
        if self.has(id) {
            Some(Refusal::NameTaken(What::Watcher(id)))
        } else if last < first {
            Some(Refusal::BadSize)
        } else if self.len() >= MOST_WATCHERS {
            Some(Refusal::LimitReached(Which::Watchers, MOST_WATCHERS as u64))
        } else {
            None
        }
    }

    /// A watcher joins: it watches the offsets from `first` to `last` inclusive of a region's table, and is told of each part
    /// of it that the generation has. A region that is no IOMMU region there has no part.
    ///
    /// It is refused with `NameTaken` where the id is there, with `BadSize` where the range is empty, with `LimitReached`
    /// where 64 watch, tried in this order. A refusal, or a lack of memory, changes nothing.
    pub fn watch(
        &mut self,
        id: WatcherId,
        region: RegionId,
        first: u64,
        last: u64,
        generation: &Generation,
    ) -> Result<(), Refusal>
        ensures accepted { OnOk result (join_refusal self.old id first last ≡ None) }
        ensures refused { IfErr result (λ why. why ≢ Memory → join_refusal self.old id first last ≡ Some why) }
        ensures watchers { OnOk result (let w = new_watcher id region first last in
            watchers_of self.new ≡ watchers_of self.old ++ with_parts (parts_shown generation.now.forest w) w ∷ []) }
        ensures journal { OnOk result (let w = new_watcher id region first last in
            self.new.journal ≡ self.old.journal ++ notices_of (parts_shown generation.now.forest w) w) }
        ensures since { OnOk result (let w = new_watcher id region first last in self.new.joined ≡ self.old.joined
            ++ joined (with_parts (parts_shown generation.now.forest w) w) (length self.old.journal) ∷ []) }
        ensures replayed { AreReplayed self.new }
        ensures unchanged { OnErr result (self.new ≡ self.old) }
    {
        if let Some(why) = self.join_refusal(id, first, last) {
            return Err(why);
        }
        let mut notices = Vec::new(self.alloc);
        let since = self.journal.as_slice().len();
        let watcher = Watcher::new(self.alloc, id, region, first, last, since);
        let watcher = watcher.caught_up(self.alloc, generation, &mut notices)?;
        self.watchers.reserve(1)?;
        self.journal.append(&mut notices)?;
        let _ = self.watchers.push(watcher);
        Ok(())
    }

    /// A watcher leaves, and is told that each of its parts is gone, ascending.
    ///
    /// It is refused with `Unknown` exactly where it is not there. A refusal, or a lack of memory, changes nothing.
    pub fn unwatch(&mut self, id: WatcherId) -> Result<(), Refusal>
        ensures refused { IfErr result (λ why. why ≢ Memory → (why ≡ Unknown (what.Watcher id))
            × (has_watcher self.old id ≡ false)) }
        ensures accepted { OnOk result (has_watcher self.old id ≡ true) }
        ensures watchers { OnOk result (watchers_of self.new ≡ without_number id.0 (watchers_of self.old)) }
        ensures journal { OnOk result (self.new.journal ≡ self.old.journal ++ flat_map (notices_of [])
            (with_number id.0 (watchers_of self.old))) }
        ensures since { OnOk result (self.new.joined ≡ others id self.old.joined) }
        ensures replayed { AreReplayed self.new }
        ensures unchanged { OnErr result (self.new ≡ self.old) }
    {
        if !self.has(id) {
            return Err(Refusal::Unknown(What::Watcher(id)));
        }
        let mut notices = Vec::new(self.alloc);
        take_back(self.watchers.as_slice(), id, &mut notices)?;
        self.journal.append(&mut notices)?;
        self.watchers.retain(|watcher| watcher.id().0 != id.0);
        Ok(())
    }

    /// All watchers catch up with a generation, in order of joining: each is told which of its parts are gone, ascending, and
    /// then which are new, ascending, however many generations were passed over.
    ///
    /// Out of memory, nothing changes.
    pub fn catch_up(&mut self, generation: &Generation) -> Result<(), AllocError>
        ensures watchers { OnOk result (watchers_of self.new ≡ caught_up generation.now.forest (watchers_of self.old)) }
        ensures journal { OnOk result (self.new.journal ≡ self.old.journal ++ notices_all generation.now.forest
            (watchers_of self.old)) }
        ensures since { OnOk result (self.new.joined ≡ map (caught generation.now.forest) self.old.joined) }
        ensures replayed { AreReplayed self.new }
        ensures unchanged { OnErr result (self.new ≡ self.old) }
    {
        let mut notices = Vec::new(self.alloc);
        let watchers = all_caught_up(
            self.alloc,
            self.watchers.as_slice(),
            generation,
            &mut notices,
        )?;
        self.journal.append(&mut notices)?;
        self.watchers = watchers;
        Ok(())
    }
}
