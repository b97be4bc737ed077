// The pool, by its places and its holes.
ghost use Rattle.std.specs.Prelude.{◌≡◌, ◌≢◌, ◌↔◌, ◌+◌, ◌%◌, ◌<◌, ◌≤◌, ◌==◌, ◌++◌, ◌∷◌, [], map, filter, not, length, Some, None, Err};
ghost use Rattle.std.specs.Prelude.{true, IfOk, IfSome, OnErr, Option, option_and_then};
ghost use Rattle.std.specs.List.{slice_get};
ghost use Rattle.mem_base.specs.declared.map.refusals.Refusal.{Refusal};
ghost use Rattle.mem_base.specs.declared.map.refusals.Refusal.TheVariants.{Memory, NoBacking};
ghost use Rattle.mem_base.specs.lists.Every.{Every};
ghost use Rattle.mem_base.specs.map.Limits.{page_size, most_bytes, most_registers};
ghost use Rattle.mem_base.specs.access.PlacesByRegion.{place_in};
ghost use Rattle.mem_base.specs.access.Places.{extent, words_of, place_from, holes, first_fit};
ghost use Rattle.backing_pool.specs.Holes.{hole_of, Ascends};
ghost use Rattle.backing_pool.specs.Backing.{AreBacked, RegionsAscend};

use crate::holes::{first_fit, give_to, take_from};
use mem_base::{PAGE_SIZE, PAGES_PER_WORD, Place, Refusal, RegionId, WORD_SIZE};
use std::alloc::{AllocError, Global};
use std::marker::Model;

/// A pool of words of 8 bytes, in which each region that has words gets a place.
///
/// It is seen as its number of words and its places, in the order of making.
#[derive(Debug, Drop)]
pub struct Pool {
    words: usize,
    // in the order of making
    places: Vec<Place>,
    // the numbers of the regions ascend in the places, as they do where a region that is made gets the next number
    ascends: bool,
    // starts and lengths, ascending
    holes: Vec<(usize, usize)>,
}

impl Model for Pool {
    ghost use Rattle.backing_pool.specs.Backing.{Backing, backing_of, IsPool};

    ghost Value = { Backing };

    ghost view = { backing_of };

    ghost invariant = { IsPool };
}

// The words of a region of some bytes of data and some registers.
fn words_for(bytes: u64, regs: u32) -> usize
    requires { bytes ≤ most_bytes }
    ensures value { result ≡ words_of (extent bytes regs) }
{
    let marks = (bytes / PAGE_SIZE + (PAGES_PER_WORD - 1)) / PAGES_PER_WORD;
    (bytes / WORD_SIZE + u64::from(regs) + 3 * marks) as usize
}

// The index of the place of a region, where the places stand by ascending region.
fn sorted_position(places: &[Place], region: RegionId) -> Option<usize>
    requires { RegionsAscend places.now }
    ensures place { option_and_then (slice_get places.now) result ≡ place_in places.now region }
    ensures bound { IfSome result (λ at. at < length places.now) }
{
    match places.binary_search_by_key(&region.0, |place| place.region.0) {
        Ok(at) => Some(at),
        Err(_) => None,
    }
}

// The index of the place of a region, where they stand in any order.
fn listed_position(places: &[Place], region: RegionId) -> Option<usize>
    ensures place { option_and_then (slice_get places.now) result ≡ place_in places.now region }
    ensures bound { IfSome result (λ at. at < length places.now) }
{
    for (at, place) in places.iter().enumerate() {
        if place.region == region {
            return Some(at);
        }
    }
    None
}

// The index of the place of a region.
fn position(places: &[Place], ascends: bool, region: RegionId) -> Option<usize>
    requires { ascends ≡ true → RegionsAscend places.now }
    ensures place { option_and_then (slice_get places.now) result ≡ place_in places.now region }
    ensures bound { IfSome result (λ at. at < length places.now) }
{
    if ascends {
        return sorted_position(places, region);
    }
    listed_position(places, region)
}

// Whether places that may stand by ascending region do so with one more at their end.
fn still_ascends(places: &[Place], ascends: bool, region: RegionId) -> bool
    requires { ascends ≡ true → RegionsAscend places.now }
    ensures { result ≡ true → RegionsAscend places.now × Every (λ p. p.region.0 < region.0) places.now }
{
    if !ascends {
        return false;
    }
    match places.last() {
        Some(place) => place.region.0 < region.0,
        None => true,
    }
}

impl Pool {
    /// A pool of this many words, none of which is taken.
    pub fn new(alloc: Global, words: usize) -> Result<Pool, AllocError>
        ensures { IfOk result (λ pool. pool ≡ record { pool_words = words; places = [] }) }
    {
        let mut holes = Vec::new(alloc);
        if words > 0 {
            holes.push((0, words))?;
        }
        Ok(Pool {
            words,
            places: Vec::new(alloc),
            ascends: true,
            holes,
        })
    }

    /// The holes, as starts and lengths in words: they ascend, and no two touch.
    pub fn holes(&self) -> &[(usize, usize)]
        ensures holes { map hole_of result.now ≡ holes self.now.pool_words self.now.places }
        ensures ascend { Ascends result.now }
    {
        self.holes.as_slice()
    }

    /// The place of a region: `None` exactly where it has none.
    pub fn place_of(&self, region: RegionId) -> Option<Place>
        ensures value { result ≡ place_in self.now.places region }
        ensures backed { AreBacked self.now }
    {
        let at = position(self.places.as_slice(), self.ascends, region)?;
        Some(self.places[at])
    }

    /// Gives a region a place for `bytes` bytes of data, `regs` registers, and the marks of its pages: the first words
    /// of the hole of least start that has as many.
    ///
    /// Refused with `NoBacking` exactly where no hole has as many words, and with `Memory` where memory runs out. A
    /// refused call changes nothing. This project's own rule.
    pub fn take(&mut self, region: RegionId, bytes: u64, regs: u32) -> Result<Place, Refusal>
        requires none { place_in self.old.places region ≡ None }
        requires pages { bytes % page_size ≡ 0 }
        requires few_bytes { bytes ≤ most_bytes }
        requires few_regs { regs ≤ most_registers }
        requires some { 0 < bytes + regs }
        ensures place { IfOk result (λ p. (p ≡ place_from region p.start (extent bytes regs))
            × (first_fit self.old.pool_words self.old.places (words_of (extent bytes regs)) ≡ Some p.start)) }
        ensures made { IfOk result (λ p. self.new ≡ record { pool_words = self.old.pool_words; places = self.old.places ++ p ∷ [] }) }
        ensures refused { (why : Refusal) → why ≢ Memory → ((result ≡ Err why) ↔ ((why ≡ NoBacking (words_of (extent bytes regs)))
            × (first_fit self.old.pool_words self.old.places (words_of (extent bytes regs)) ≡ None))) }
        ensures unchanged { OnErr result (self.new ≡ self.old) }
        ensures backed { AreBacked self.new }
    {
        let words = words_for(bytes, regs);
        let Some((at, hole)) = first_fit(self.holes.as_slice(), words) else {
            return Err(Refusal::NoBacking(words as u64));
        };
        let place = Place {
            region,
            start: hole.0,
            words,
            bytes,
            regs,
        };
        let ascends = still_ascends(self.places.as_slice(), self.ascends, region);
        self.holes.reserve(self.places.len() + 1)?;
        self.places.push(place)?;
        self.ascends = ascends;
        take_from(&mut self.holes, at, hole, words);
        Ok(place)
    }

    /// Takes the place of a region back, which becomes a hole, or part of one: `None` exactly where it has none.
    ///
    /// It takes no memory: `take` made the room.
    pub fn give(&mut self, region: RegionId) -> Option<Place>
        ensures value { result ≡ place_in self.old.places region }
        ensures given { self.new ≡ record {
          pool_words = self.old.pool_words;
          places = filter (λ p. not (p.region.0 == region.0)) self.old.places;
        } }
        ensures backed { AreBacked self.new }
    {
        let at = position(self.places.as_slice(), self.ascends, region)?;
        let place = self.places.remove(at);
        give_to(&mut self.holes, place.start, place.words);
        Some(place)
    }
}
