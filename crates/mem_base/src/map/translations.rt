// The table of an IOMMU region.
ghost use Rattle.std.specs.Prelude.{◌≡◌, ◌+◌, ◌<◌, ◌≤◌, ◌^◌, true, false, nat_lt, not, [], length, filter, None, IfOk, OnOk, OnErr};
ghost use Rattle.std.specs.List.{list_any};
ghost use Rattle.std.specs.List.Sorted.{IsSearchInRange, IsPartitionPoint};
ghost use Rattle.mem_base.specs.lists.Sorting.{put_by, place_of};
ghost use Rattle.mem_base.specs.map.Entries.{AreEntries, iova_cmp, has_iova, least_met, entry_order};

use crate::{Size, SpaceId};
use std::alloc::{AllocError, Global};
use std::marker::Model;

/// Which accesses a translation lets through.
#[derive(Clone, Copy, Debug, PartialEq, Eq)]
pub enum Perm {
    Nothing,
    Read,
    Write,
    Both,
}

/// A translation: an offset of the page at `iova` goes on at an address of `space`.
///
/// The page has `mask + 1` bytes, a power of two; `iova` is a multiple of that. The address has the bits of the
/// offset that are in the mask, and the bits of `translated` that are not.
#[derive(Clone, Copy, Debug, PartialEq, Eq)]
pub struct Entry {
    pub iova: u64,
    pub mask: u64,
    pub space: SpaceId,
    pub translated: u64,
    pub perm: Perm,
}

/// The translations of an IOMMU region, by ascending `iova`, no two of which overlap.
#[derive(Debug, Drop)]
pub struct Entries {
    items: Vec<Entry>,
}

impl Model for Entries {
    ghost use Rattle.std.specs.Prelude.{List};
    ghost use Rattle.mem_base.specs.declared.map.translations.Entry.{Entry};

    ghost Value = { List Entry };

    ghost use Rattle.mem_base.specs.map.Entries.{AreEntries};

    ghost view = { λ e. e.items.items };

    ghost invariant = { λ e. AreEntries e.items.items };
}

impl Entries {
    /// No translation.
    pub fn new(alloc: Global) -> Self
        ensures { result ≡ [] }
    {
        Entries {
            items: Vec::new(alloc),
        }
    }

    /// These translations. It takes no memory.
    pub fn from_vec(items: Vec<Entry>) -> Self
        requires { AreEntries items.items }
        ensures { result ≡ items.items }
    {
        Entries { items }
    }

    /// All of them, in order.
    pub fn as_slice(&self) -> &[Entry]
        ensures value { result.now ≡ self.now }
        ensures entries { AreEntries self.now }
    {
        self.items.as_slice()
    }

    /// All of them, in a vector. It takes no memory.
    pub fn into_vec(self) -> Vec<Entry>
        ensures value { result.items ≡ self }
        ensures entries { AreEntries self }
    {
        self.items
    }

    /// Whether a translation has this iova.
    pub fn has(&self, iova: u64) -> bool
        ensures { result ≡ list_any (has_iova iova) self.now }
    {
        place_of(self.as_slice(), iova).is_ok()
    }

    /// The least iova of a translation whose page meets the bytes from `iova` on, `size` of them.
    pub fn least_met(&self, iova: u64, size: Size) -> Option<u64>
        ensures { result ≡ least_met iova size self.now }
    {
        let entries = self.as_slice();
        let first = passed(entries, iova);
        let entry = entries.get(first)?;
        if u128::from(entry.iova) < u128::from(iova) + size.get() {
            Some(entry.iova)
        } else {
            None
        }
    }

    /// Puts a translation to its place.
    ///
    /// It meets none that is there, as `least_met` tells. Out of memory, nothing changes.
    pub fn put(&mut self, entry: Entry) -> Result<(), AllocError>
        requires within { entry.iova + entry.mask < 2 ^ 64 }
        requires apart { least_met entry.iova (entry.mask + 1) self.old ≡ None }
        ensures ok { OnOk result (self.new ≡ put_by entry_order entry self.old) }
        ensures err { OnErr result (self.new ≡ self.old) }
    {
        let (Ok(place) | Err(place)) = place_of(self.items.as_slice(), entry.iova);
        self.items.insert(place, entry)?;
        Ok(())
    }

    /// Takes out the translation with this iova, if there is one. It takes no memory.
    pub fn remove(&mut self, iova: u64)
        ensures { self.new ≡ filter (λ e. not (has_iova iova e)) self.old }
    {
        if let Ok(place) = place_of(self.items.as_slice(), iova) {
            self.items.remove(place);
        }
    }

    /// The same translations once more.
    pub fn try_copy(&self) -> Result<Entries, AllocError>
        ensures { IfOk result (λ copy. copy ≡ self.now) }
    {
        let items = self.items.clone()?;
        Ok(Entries { items })
    }
}

// Where the translation with this iova stands, or where it would.
fn place_of(entries: &[Entry], iova: u64) -> Result<usize, usize>
    requires { AreEntries entries.now }
    ensures place { result ≡ place_of (iova_cmp iova) entries.now }
    ensures bound { IsSearchInRange result (length entries.now) }
{
    entries.binary_search_by(|entry| entry.iova.cmp(&iova))
}

// How many translations end before this address.
fn passed(entries: &[Entry], address: u64) -> usize
    requires { AreEntries entries.now }
    ensures bound { result ≤ length entries.now }
    ensures passed { IsPartitionPoint (λ e. nat_lt (e.iova + e.mask) address ≡ true) (λ e. nat_lt (e.iova + e.mask) address ≡ false) entries.now result }
{
    entries.partition_point(|entry| ends_before(entry, address))
}

// Whether the page of a translation ends before this address.
fn ends_before(entry: &Entry, address: u64) -> bool
    ensures { result ≡ nat_lt (entry.now.iova + entry.now.mask) address }
{
    entry.iova < address && entry.mask < address - entry.iova
}
