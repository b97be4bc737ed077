// The parts of a range of a table.
ghost use Rattle.std.specs.Prelude.{◌≡◌, ◌+◌, ◌<◌, ◌≤◌, ◌^◌, IfOk};
ghost use Rattle.mem_base.specs.map.Entries.{AreEntries};
ghost use Rattle.mem_base.specs.access.Parts.{meets_offsets, part_of, parts_of, parts_in, is_same_part, is_same_perm};
ghost use Rattle.mem_base.specs.access.Translations.{translated_address};
ghost use Rattle.iommu_notify.specs.PartLists.{AreParts};

use generation::Generation;
use mem_base::{Entry, Part, Perm, RegionId};
use std::alloc::{AllocError, Global};

// Whether two permissions are the same.
fn is_same_perm(perm: Perm, other: Perm) -> bool
    ensures { result ≡ is_same_perm perm other }
{
    matches!(
        (perm, other),
        (Perm::Nothing, Perm::Nothing)
            | (Perm::Read, Perm::Read)
            | (Perm::Write, Perm::Write)
            | (Perm::Both, Perm::Both)
    )
}

/// Whether two parts are the same.
pub(crate) fn is_same_part(part: &Part, other: &Part) -> bool
    ensures { result ≡ is_same_part part.now other.now }
{
    part.from == other.from
        && part.to == other.to
        && part.space.0 == other.space.0
        && part.addr == other.addr
        && is_same_perm(part.perm, other.perm)
}

// Whether the page of a translation has an address from `first` to `last`.
fn meets_offsets(first: u64, last: u64, entry: &Entry) -> bool
    requires { entry.now.iova + entry.now.mask < 2 ^ 64 }
    ensures { result ≡ meets_offsets first last entry.now }
{
    entry.iova <= last && first <= entry.iova + entry.mask
}

// Where an offset goes on in the translation's space.
fn translated_address(entry: &Entry, offset: u64) -> u64
    ensures { result ≡ translated_address entry.now offset }
{
    (entry.translated - (entry.translated & entry.mask)) | (offset & entry.mask)
}

// The addresses of a translation that lie from `first` to `last`, and where the first of them goes.
fn part_of(first: u64, last: u64, entry: &Entry) -> Part
    requires { entry.now.iova + entry.now.mask < 2 ^ 64 }
    ensures { result ≡ part_of first last entry.now }
{
    let from = entry.iova.max(first);
    Part {
        from,
        to: (entry.iova + entry.mask).min(last),
        space: entry.space,
        addr: translated_address(entry, from),
        perm: entry.perm,
    }
}

// The parts of a table from `first` to `last`, ascending.
fn parts_of(
    alloc: Global,
    entries: &[Entry],
    first: u64,
    last: u64,
) -> Result<Vec<Part>, AllocError>
    requires entries { AreEntries entries.now }
    requires order { first ≤ last }
    ensures value { IfOk result (λ parts. parts.items ≡ parts_of entries.now first last) }
    ensures parts { IfOk result (λ parts. AreParts parts.items) }
{
    let mut parts = Vec::new(alloc);
    for entry in entries {
        if meets_offsets(first, last, entry) {
            parts.push(part_of(first, last, entry))?;
        }
    }
    Ok(parts)
}

/// The parts from `first` to `last` of the table that a region has in a generation, ascending: none where the region is no
/// IOMMU region there.
pub(crate) fn parts_in(
    alloc: Global,
    generation: &Generation,
    region: RegionId,
    first: u64,
    last: u64,
) -> Result<Vec<Part>, AllocError>
    requires { first ≤ last }
    ensures value { IfOk result (λ parts. parts.items ≡ parts_in generation.now.forest region first last) }
    ensures parts { IfOk result (λ parts. AreParts parts.items) }
{
    match generation.table(region) {
        Some(entries) => {
            let parts = parts_of(alloc, entries, first, last)?;
            Ok(parts)
        }
        None => Ok(Vec::new(alloc)),
    }
}
