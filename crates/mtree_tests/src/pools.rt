// Places taken and given back against a plain list of words.
ghost use Rattle.std.specs.Prelude.{◌≡◌, ◌%◌, ◌<◌, ◌≤◌};
ghost use Rattle.mem_base.specs.map.Limits.{page_size, most_bytes};

use crate::draws::draw;
use backing_pool::Pool;
use mem_base::{Place, Refusal, RegionId};
use rand_core::utils::NextWord;
use rand_pcg::Lcg64Xsh32;
use std::alloc::{AllocError, Global};

/// The words of a pool.
const WORDS: usize = 4096;

/// A pool, beside it which of its words are taken and all places, and what draws these.
#[derive(Drop)]
struct Both {
    rng: Lcg64Xsh32,
    pool: Pool,
    taken: Vec<bool>,
    places: Vec<Place>,
}

/// The words from which this many are free in a row, where there are any: the first of them.
fn plain_fit(taken: &[bool], words: usize) -> Option<usize> {
    let mut free: usize = 0;
    for (word, is_taken) in taken.iter().enumerate() {
        free = if *is_taken { 0 } else { free.saturating_add(1) };
        if free == words {
            return Some(word.saturating_add(1).saturating_sub(words));
        }
    }
    None
}

/// Whether these are the runs of free words, each with how many words it has.
fn are_holes(taken: &[bool], holes: &[(usize, usize)]) -> bool {
    let mut at: usize = 0;
    let mut free: usize = 0;
    for (word, is_taken) in taken.iter().enumerate() {
        if *is_taken && free > 0 {
            if holes.get(at) != Some(&(word.saturating_sub(free), free)) {
                return false;
            }
            at = at.saturating_add(1);
        }
        free = if *is_taken { 0 } else { free.saturating_add(1) };
    }
    match holes.get(at) {
        Some(hole) => {
            *hole == (taken.len().saturating_sub(free), free)
                && free > 0
                && holes.len() == at.saturating_add(1)
        }
        None => free == 0,
    }
}

/// The words of data, registers and marks.
fn plain_words(bytes: u64, regs: u32) -> usize {
    let words = match bytes {
        0 => 0,
        4096 => 512 + 3,
        _ => 1024 + 3,
    };
    words + regs as usize
}

fn set(taken: &mut [bool], place: &Place, is_taken: bool) {
    for (word, slot) in taken.iter_mut().enumerate() {
        if word >= place.start && word - place.start < place.words {
            *slot = is_taken;
        }
    }
}

/// Nothing, or one or two pages.
fn bytes(rng: &mut Lcg64Xsh32) -> u64
    ensures pages { result % page_size ≡ 0 }
    ensures few { result ≤ most_bytes }
{
    match draw(rng, 64) {
        0 => 8192,
        1 => 4096,
        _ => 0,
    }
}

impl Both {
    fn new(alloc: Global, seed: u64) -> Result<Both, AllocError> {
        let pool = Pool::new(alloc, WORDS)?;
        let taken = vec![in alloc; false; WORDS]?;
        Ok(Both {
            rng: Lcg64Xsh32::new(seed, 54),
            pool,
            taken,
            places: Vec::new(alloc),
        })
    }

    /// Whether the pool has the plain holes, and the region the plain place.
    fn agrees(&self, region: RegionId) -> bool {
        let mut place = None;
        for other in &self.places {
            if other.region == region {
                place = Some(*other);
            }
        }
        are_holes(self.taken.as_slice(), self.pool.holes()) && self.pool.place_of(region) == place
    }

    /// Takes a place, if the region has none, and whether the pool answers as the plain list does; `None` where both
    /// refuse.
    fn take(&mut self, region: RegionId, bytes: u64, regs: u32) -> Result<Option<bool>, AllocError>
        requires pages { bytes % page_size ≡ 0 }
        requires few { bytes ≤ most_bytes }
        requires some { 0 < regs }
        requires most { regs ≤ 512 }
    {
        if self.pool.place_of(region).is_some() {
            return Ok(Some(true));
        }
        let words = plain_words(bytes, regs);
        let fit = plain_fit(self.taken.as_slice(), words);
        match (self.pool.take(region, bytes, regs), fit) {
            (Ok(place), Some(start)) => {
                set(self.taken.as_mut_slice(), &place, true);
                self.places.push(place)?;
                Ok(Some(place.start == start && place.words == words))
            }
            (Err(Refusal::NoBacking(asked)), None) => Ok(if asked == words as u64 {
                None
            } else {
                Some(false)
            }),
            _ => Ok(Some(false)),
        }
    }

    /// Gives the place at an index back, and whether the pool answers with it.
    fn give(&mut self, at: usize) -> bool {
        if at >= self.places.len() {
            return true;
        }
        let place = self.places.remove(at);
        set(self.taken.as_mut_slice(), &place, false);
        self.pool.give(place.region) == Some(place) && self.pool.give(place.region).is_none()
    }
}

/// Gives the place at a drawn index back, and whether the pool agrees then.
fn give_drawn(both: &mut Both) -> bool {
    let count = both.places.len().max(1) as u64;
    let at = u64::from(both.rng.next_word()) % count;
    let region = match both.places.get(at as usize) {
        Some(place) => place.region,
        None => return true,
    };
    both.give(at as usize) && both.agrees(region)
}

/// Takes a place, where drawn ones are given back until there is room, and whether the pool agrees.
fn take_drawn(both: &mut Both, region: RegionId) -> Result<bool, AllocError> {
    let bytes = bytes(&mut both.rng);
    let regs = draw(&mut both.rng, 64) + 1;
    for _ in 0..WORDS {
        if let Some(is_same) = both.take(region, bytes, regs)? {
            return Ok(is_same && both.agrees(region));
        }
        if !give_drawn(both) {
            return Ok(false);
        }
    }
    Ok(false)
}

/// Takes this many places of drawn sizes, and gives a drawn one back after every other; whether the pool agrees after each. The
/// regions are drawn below a number, or ascend.
fn are_taken(both: &mut Both, count: u32, regions: Option<u32>) -> Result<bool, AllocError> {
    for i in 0..count {
        let region = RegionId(match regions {
            Some(most) => both.rng.next_word() % most.max(1),
            None => i,
        });
        if !take_drawn(both, region)? {
            return Ok(false);
        }
        if i % 2 == 1 && !give_drawn(both) {
            return Ok(false);
        }
    }
    Ok(true)
}

/// Gives all places back; whether the pool agrees after each, and is one hole then.
fn are_given(both: &mut Both) -> bool {
    for _ in 0..WORDS {
        if !give_drawn(both) {
            return false;
        }
    }
    both.pool.holes() == [(0, WORDS)].as_slice()
}

/// Takes places, and gives all back; whether the pool agrees all along.
fn go(both: &mut Both, count: u32, regions: Option<u32>) -> Result<bool, AllocError> {
    Ok(are_taken(both, count, regions)? && are_given(both))
}

/// Whether this many places of drawn sizes are as in a list of words.
fn is_list(alloc: Global, seed: u64, count: u32, regions: Option<u32>) -> Result<bool, AllocError> {
    let mut both = Both::new(alloc, seed)?;
    let is_so = go(&mut both, count, regions);
    is_so
}

#[test]
fn ten_thousand_drawn_places_are_as_in_a_list_of_words(rt: HostRuntime) {
    assert!(rt; is_list(rt.alloc(), 1, 10_000, None) == Ok(true));
}

#[test]
fn regions_in_any_order_have_the_places_of_a_list(rt: HostRuntime) {
    assert!(rt; is_list(rt.alloc(), 2, 2000, Some(100)) == Ok(true));
}
