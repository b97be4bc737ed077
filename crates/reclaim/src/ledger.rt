// The ledger of regions.
ghost use Rattle.std.specs.Prelude.{◌≡◌, ◌+◌, ◌<◌, ◌≤◌, false, true, [], None, map, find, length, option_map, OnOk};
ghost use Rattle.mem_base.specs.lists.Sorting.{put_by};
ghost use Rattle.reclaim.specs.Notes.{AreNotes, note, note_order, is_noted, is_due, others, others_if, seen_in};
ghost use Rattle.reclaim.specs.Ledgers.{noted_last};

use crate::notes::{Note, Notes};
use generation::Generation;
use mem_base::RegionId;
use std::alloc::{AllocError, Global};
use std::marker::Model;

/// Of each region that was made and is not released, the number of the last generation that names it, if any, and whether it was
/// dropped. The dropped ones stand by themselves, so that no other region is looked at when one is released.
#[derive(Debug, Drop)]
pub struct Ledger {
    present: Notes,
    // with room for all that are there
    dropped: Notes,
}

impl Model for Ledger {
    ghost use Rattle.reclaim.specs.Ledgers.{LedgerState, ledger_state, IsLedger};

    ghost Value = { LedgerState };

    ghost view = { λ l. ledger_state l.present l.dropped };

    ghost invariant = { λ l. IsLedger l.present l.dropped };
}

impl Ledger {
    /// No region. It takes no memory.
    pub fn new(alloc: Global) -> Ledger
        ensures present { result.present ≡ [] }
        ensures dropped { result.dropped ≡ [] }
    {
        Ledger {
            present: Notes::new(alloc),
            dropped: Notes::new(alloc),
        }
    }

    /// There is then room for one more region. Out of memory, nothing changes.
    pub fn reserve(&mut self) -> Result<(), AllocError>
        ensures room { OnOk result (0 < self.new.room) }
        ensures present { self.new.present ≡ self.old.present }
        ensures dropped { self.new.dropped ≡ self.old.dropped }
        ensures kept { self.old.room ≤ self.new.room }
    {
        self.present.reserve(1)?;
        self.dropped.reserve(self.present.len() + 1)?;
        Ok(())
    }

    /// Notes a region that was made, which no generation names yet. There is room for it, as `reserve` leaves it, and it is not
    /// in the ledger. It takes no memory.
    pub fn made(&mut self, region: RegionId)
        requires room { 0 < self.old.room }
        requires new { is_noted region self.old.present ≡ false }
        requires undropped { is_noted region self.old.dropped ≡ false }
        ensures present { self.new.present ≡ put_by note_order (note region None) self.old.present }
        ensures dropped { self.new.dropped ≡ self.old.dropped }
        ensures kept { self.old.room ≤ self.new.room + 1 }
    {
        self.present.put(Note { region, last: None });
    }

    /// Notes a generation: it is now the last of each region in the ledger that it names. It takes no memory.
    ///
    /// The generations are seen in order of their numbers.
    pub fn seen(&mut self, g: &Generation)
        ensures present { self.new.present ≡ map (seen_in g.now) self.old.present }
        ensures dropped { self.new.dropped ≡ map (seen_in g.now) self.old.dropped }
        ensures room { self.old.room ≤ self.new.room }
    {
        self.present.see(g);
        self.dropped.see(g);
    }

    /// Notes that a region was dropped. It is in the ledger and was not dropped. It takes no memory.
    pub fn drop_region(&mut self, region: RegionId)
        requires { is_noted region self.old.present ≡ true }
        ensures present { self.new.present ≡ others region self.old.present }
        ensures dropped { self.new.dropped ≡ put_by note_order (note region (noted_last region self.old.present)) self.old.dropped }
        ensures room { self.old.room ≤ self.new.room }
    {
        if let Some(note) = self.present.take(region) {
            self.dropped.put(note);
        }
    }

    /// How many regions are dropped and not released.
    pub fn dropped(&self) -> usize
        ensures { result ≡ length self.now.dropped }
    {
        self.dropped.len()
    }

    /// The least dropped region that no generation named, or of which the last has a number below `lowest`: `None` exactly where
    /// there is none. It leaves the ledger. It takes no memory, and looks at dropped regions alone.
    pub fn next_released(&mut self, lowest: u64) -> Option<RegionId>
        ensures released { result ≡ option_map (λ n. n.region) (find (is_due lowest) self.old.dropped) }
        ensures ascending { AreNotes self.old.dropped }
        ensures dropped { self.new.dropped ≡ others_if result self.old.dropped }
        ensures present { self.new.present ≡ self.old.present }
        ensures room { self.old.room ≤ self.new.room }
    {
        let region = self.dropped.first_due(lowest)?;
        self.dropped.take(region);
        Some(region)
    }
}
