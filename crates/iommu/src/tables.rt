// The translations of one IOMMU region, in order.
ghost use Rattle.std.specs.Prelude.{◌≡◌, ◌+◌, ◌≤◌, true, false, nat_lt, length};
ghost use Rattle.std.specs.List.Sorted.{IsPartitionPoint};
ghost use Rattle.mem_base.specs.map.Entries.{AreEntries};
ghost use Rattle.mem_base.specs.access.Translations.{translation_at, if_permitted, permits, translated_address};
ghost use Rattle.iommu.specs.Pages.{ArePages, is_ahead, next_ahead};

use mem_base::{Entry, Perm};

/// The translation whose page holds an offset: `None` exactly where no page does.
///
/// The translations are sorted by iova and do not overlap, and their pages are such as a translation may have, as in the
/// table of every IOMMU region. It is found by halving.
pub fn translate(entries: &[Entry], offset: u64) -> Option<Entry>
    requires sorted { AreEntries entries.now }
    requires pages { ArePages entries.now }
    ensures { result ≡ translation_at entries.now offset }
{
    let first = passed(entries, offset);
    let entry = entries.get(first)?;
    if entry.iova <= offset {
        Some(*entry)
    } else {
        None
    }
}

// How many translations end before this offset.
fn passed(entries: &[Entry], offset: u64) -> usize
    requires { AreEntries entries.now }
    ensures bound { result ≤ length entries.now }
    ensures passed { IsPartitionPoint (λ e. nat_lt (e.iova + e.mask) offset ≡ true) (λ e. nat_lt (e.iova + e.mask) offset ≡ false) entries.now result }
{
    entries.partition_point(|entry| ends_before(entry, offset))
}

// Whether the page of a translation ends before this offset.
fn ends_before(entry: &Entry, offset: u64) -> bool
    ensures { result ≡ nat_lt (entry.now.iova + entry.now.mask) offset }
{
    entry.iova < offset && entry.mask < offset - entry.iova
}

// Whether a permission lets a write, or a read, through.
fn lets_through(perm: Perm, write: bool) -> bool
    ensures { result ≡ permits write perm }
{
    match perm {
        Perm::Nothing => false,
        Perm::Read => !write,
        Perm::Write => write,
        Perm::Both => true,
    }
}

/// The translation that an access uses at an offset.
pub(crate) fn used(entries: &[Entry], offset: u64, write: bool) -> Option<Entry>
    requires sorted { AreEntries entries.now }
    requires pages { ArePages entries.now }
    ensures { result ≡ if_permitted write (translation_at entries.now offset) }
{
    match translate(entries, offset) {
        Some(entry) => {
            if lets_through(entry.perm, write) {
                Some(entry)
            } else {
                None
            }
        }
        None => None,
    }
}

// Whether a translation begins after the offset and lets the access through.
fn lies_ahead(entry: &Entry, offset: u64, write: bool) -> bool
    ensures { result ≡ is_ahead write offset entry.now }
{
    offset < entry.iova && lets_through(entry.perm, write)
}

/// The first translation after the offset that lets the access through.
pub(crate) fn next(entries: &[Entry], offset: u64, write: bool) -> Option<Entry>
    ensures { result ≡ next_ahead write offset entries.now }
{
    for entry in entries {
        if lies_ahead(entry, offset, write) {
            return Some(*entry);
        }
    }
    None
}

/// Where an offset goes on in the translation's space.
pub(crate) fn translated(entry: &Entry, offset: u64) -> u64
    ensures { result ≡ translated_address entry.now offset }
{
    (entry.translated - (entry.translated & entry.mask)) | (offset & entry.mask)
}
