// How far the pages of the translations on the way of an address go.
ghost use Rattle.std.specs.Prelude.{◌≡◌, ◌≤◌, ◌<◌};
ghost use Rattle.mem_base.specs.map.Entries.{AreEntries};
ghost use Rattle.mem_base.specs.map.Search.{look};
ghost use Rattle.mem_base.specs.access.CorePlans.{in_page, in_pages};
ghost use Rattle.mem_base.specs.access.Trails.{trail_of};
ghost use Rattle.mem_base.specs.access.Translations.{if_permitted, permits, translated_address, translation_at};
ghost use Rattle.mem_base.specs.views.View.{shown};
ghost use Rattle.iommu.specs.Pages.{ArePages};
ghost use Rattle.std.specs.Prelude.{Some};

use flat_lookup::Atlas;
use generation::Generation;
use iommu::translate;
use mem_base::{Entry, MOST_TRANSLATIONS, Perm, SpaceId, Spot};
use std::marker::Brand;
use std::sync::ledger::{Blank, Ledger};
use step_counter::Steps;

// What a view shows at an address, by a look-up that counts for itself.
fn shown_at<L: Ledger>(atlas: &Atlas, addr: u64, blank: Blank) -> Option<Spot>
    requires name { blank.name ≡ L.name }
    requires parts { blank.parts ≡ L.parts }
    requires some { 0 < L.parts }
    ensures { result ≡ shown atlas.now addr }
{
    let mut steps = Steps::<L>::new(blank);
    atlas.at(addr, &mut steps)
}

// What is found at an address of a space.
fn look(g: &Generation, space: SpaceId, addr: u64) -> Option<Spot>
    ensures { result ≡ look g.now.forest space addr }
{
    // The views of such a forest show what a search finds.
    g.knows_forest();
    match g.atlas(space) {
        Some(atlas) => shown_at::<Brand>(atlas, addr, Blank::new(1)),
        None => None,
    }
}

// Whether a permission lets a write, or a read, through.
fn permits(perm: Perm, write: bool) -> bool
    ensures { result ≡ permits write perm }
{
    match perm {
        Perm::Nothing => false,
        Perm::Read => !write,
        Perm::Write => write,
        Perm::Both => true,
    }
}

// The translation that an access uses at an offset.
fn used(entries: &[Entry], offset: u64, write: bool) -> Option<Entry>
    requires sorted { AreEntries entries.now }
    requires pages { ArePages entries.now }
    ensures { result ≡ if_permitted write (translation_at entries.now offset) }
{
    match translate(entries, offset) {
        Some(entry) => {
            if permits(entry.perm, write) {
                Some(entry)
            } else {
                None
            }
        }
        None => None,
    }
}

// Where an offset goes on in the translation's space.
fn translated(entry: &Entry, offset: u64) -> u64
    ensures { result ≡ translated_address entry.now offset }
{
    (entry.translated - (entry.translated & entry.mask)) | (offset & entry.mask)
}

// No more than the translation's page has from an offset on.
fn in_page(entry: &Entry, offset: u64, left: u64) -> u64
    requires { 1 ≤ left }
    ensures value { result ≡ in_page (Some entry.now) offset left }
    ensures some { 1 ≤ result }
    ensures most { result ≤ left }
{
    (left - 1).min(entry.mask - (offset & entry.mask)) + 1
}

/// Of `left` bytes from an address on, as many as the pages of all translations on its way have.
pub(crate) fn in_pages(g: &Generation, space: SpaceId, addr: u64, write: bool, left: u64) -> u64
    requires { 1 ≤ left }
    ensures value { result ≡ in_pages (trail_of g.now.forest write space addr).hops left }
    ensures some { 1 ≤ result }
    ensures most { result ≤ left }
{
    let (mut here, mut from, mut least) = (space, addr, left);
    for _ in 0..MOST_TRANSLATIONS {
        let Some(spot) = look(g, here, from) else {
            return least;
        };
        let Some(entries) = g.table(spot.leaf) else {
            return least;
        };
        let Some(entry) = used(entries, spot.offset, write) else {
            return least;
        };
        least = in_page(&entry, spot.offset, least);
        (here, from) = (entry.space, translated(&entry, spot.offset));
    }
    least
}
