// All passes together.
ghost use Rattle.std.specs.Prelude.{◌≡◌, ◌<◌, ◌≤◌, false, map, replicate, length, IfOk};
ghost use Rattle.mem_base.specs.map.Limits.{most_passes};
ghost use Rattle.mem_base.specs.machine.Passes.{idle, pass_id};
ghost use Rattle.mem_base.specs.machine.Generations.{least_lowest, nothing_known, with_placed};
ghost use Rattle.mem_base.specs.machine.Publishing.{held_at, held_from, holds_up};
ghost use Rattle.kept_generations.specs.Sweeping.{announced_from, swept_tracks};

use crate::numbers::Numbers;
use crate::tracks::Track;
use mem_base::{MOST_GENERATIONS, PassId, Refusal};
use std::alloc::{AllocError, Global};

/// Passes of which nothing is known.
pub(crate) fn unknown_passes(alloc: Global, passes: u32) -> Result<Vec<Track>, AllocError>
    ensures { IfOk result (λ tracks. tracks.items ≡ replicate passes nothing_known) }
{
    let mut tracks = Vec::new(alloc);
    for _ in 0..passes {
        tracks.push(Track::new())?;
    }
    Ok(tracks)
}

/// Passes that have done nothing.
pub(crate) fn idle_passes(alloc: Global, passes: u32) -> Result<Vec<Numbers>, AllocError>
    ensures { IfOk result (λ states. states.items ≡ replicate passes idle) }
{
    let mut states = Vec::new(alloc);
    for _ in 0..passes {
        states.push(Numbers::idle())?;
    }
    Ok(states)
}

/// No pass has its copy of the next generation.
pub(crate) fn unplace(tracks: &mut [Track])
    ensures { tracks.new ≡ map (with_placed false) tracks.old }
{
    for track in tracks.iter_mut() {
        track.set_placed(false);
    }
}

/// Each flag is this one.
pub(crate) fn set_each(flags: &mut [bool], value: bool)
    ensures { flags.new ≡ map (λ flag. value) flags.old }
{
    for flag in flags.iter_mut() {
        *flag = value;
    }
}

/// The lowest number that some pass may still use; the current one where that is lower.
pub(crate) fn lowest_of(current: u64, tracks: &[Track]) -> u64
    ensures { result ≡ least_lowest current tracks.now }
{
    let mut least = current;
    for track in tracks.iter() {
        least = least.min(track.lowest());
    }
    least
}

// Whether the next generation would take the slot of this number.
fn holds_up(current: u64, found: Option<u64>) -> bool
    ensures { result ≡ holds_up current found }
{
    match found {
        Some(number) => { number <= current && current - number >= MOST_GENERATIONS - 1 }
        None => false,
    }
}

// The refusal of a publish by a pass that is at a number.
fn held_at(at: usize, found: Option<u64>) -> Option<Refusal>
    requires { at < most_passes }
    ensures { result ≡ held_at (pass_id at) found }
{
    let number = found?;
    let Some(pass) = PassId::new(at as u32) else {
        unreachable!()
    };
    Some(Refusal::Held(pass, number))
}

/// What holds a publish up: the least pass that was found at so old a number.
pub(crate) fn held_among(current: u64, tracks: &[Track]) -> Option<Refusal>
    requires { length tracks.now ≤ most_passes }
    ensures { result ≡ held_from current 0 tracks.now }
{
    for (at, track) in tracks.iter().enumerate() {
        let found = track.found();
        if holds_up(current, found) {
            return held_at(at, found);
        }
    }
    None
}

/// What would hold a publish up after a sweep of every pass: the least pass that announced so old a number.
pub(crate) fn held_if_swept(current: u64, states: &[Numbers]) -> Option<Refusal>
    requires { length states.now ≤ most_passes }
    ensures { result ≡ announced_from current 0 states.now }
{
    for (at, numbers) in states.iter().enumerate() {
        let announced = numbers.announced();
        if holds_up(current, announced) {
            return held_at(at, announced);
        }
    }
    None
}

/// A sweep of each pass.
pub(crate) fn sweep_each(current: u64, tracks: &mut [Track], states: &[Numbers])
    requires { length states.now ≡ length tracks.old }
    ensures { tracks.new ≡ swept_tracks current tracks.old states.now }
{
    for (at, numbers) in states.iter().enumerate() {
        tracks[at].sweep(current, numbers.pin_word());
    }
}
