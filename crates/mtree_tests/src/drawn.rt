// What is tried with drawn maps, and how much of it has to be met.
use crate::cases::{Case, KINDS};
use crate::generated::{are_all_shown, leave_it};
use crate::kept::are_kept;
use crate::lookups::are_halved;
use crate::paths::is_judged;
use crate::walks::are_right;
use crate::wide::is_wide;
use mem_base::Refusal;
use std::alloc::Global;

/// What is tried.
#[derive(Clone, Copy)]
enum Drawn {
    Shown,
    Refused,
    Kept,
    Halved,
    Told,
    Judged,
    Wide,
}

/// A trial: with how many maps, how many kinds of things are counted then, and more than how many of each there have to be.
type Trial = (Drawn, u64, usize, u64);

/// Whether a map, which is empty at first, comes out.
fn tries(alloc: Global, case: &mut Case, drawn: Drawn) -> Result<bool, Refusal> {
    match drawn {
        Drawn::Shown => are_all_shown(alloc, case),
        Drawn::Refused => leave_it(alloc, case),
        Drawn::Kept => are_kept(case),
        Drawn::Halved => are_halved(alloc, case),
        Drawn::Told => are_right(alloc, case),
        Drawn::Judged => is_judged(case),
        Drawn::Wide => is_wide(alloc, case),
    }
}

/// Whether the map of a seed does; it adds to what was counted before.
fn is_so(alloc: Global, seed: u64, drawn: Drawn, counts: &mut [u64; KINDS]) -> bool {
    let mut case = Case::new(alloc, seed, *counts);
    let is_so = tries(alloc, &mut case, drawn);
    *counts = case.counts;
    is_so == Ok(true)
}

/// Whether there are more than this many things of each of the first kinds.
fn exceeds(counts: &[u64; KINDS], kinds: usize, least: u64) -> bool {
    for (kind, count) in counts.iter().enumerate() {
        if kind < kinds && *count <= least {
            return false;
        }
    }
    true
}

/// The first seed whose map does not come out; the number of all where too few things were met.
fn first_other(alloc: Global, trial: Trial) -> Option<u64> {
    let (drawn, maps, kinds, least) = trial;
    let mut counts = [0; KINDS];
    for seed in 0..maps {
        if !is_so(alloc, seed, drawn, &mut counts) {
            return Some(seed);
        }
    }
    if exceeds(&counts, kinds, least) {
        None
    } else {
        Some(maps)
    }
}

#[test]
fn drawn_maps_show_what_the_plain_program_finds(rt: HostRuntime) {
    let other = first_other(rt.alloc(), (Drawn::Shown, 10_000, 1, 25_000));
    assert!(rt; other.is_none(), "{other:?}");
}

/// The other trials, each with what it shows.
static OTHERS: [(&str, Trial); 6] = [
    (
        "refused calls leave the forest as it was",
        (Drawn::Refused, 100, 1, 500),
    ),
    (
        "depth, weight and reach after each call",
        (Drawn::Kept, 100, 1, 300),
    ),
    (
        "drawn maps are looked up as by halving",
        (Drawn::Halved, 40, 1, 400),
    ),
    (
        "drawn changes are told as by membership, and ioeventfds met byte by byte",
        (Drawn::Told, 100, 7, 100),
    ),
    (
        "depth, weight and loops by a plain walk",
        (Drawn::Judged, 200, 1, 400),
    ),
    (
        "wide containers show what the plain program finds",
        (Drawn::Wide, 600, 1, 12_000),
    ),
];

#[test]
fn drawn_maps_are_as_the_plain_programs_say(rt: HostRuntime) {
    for (name, trial) in &OTHERS {
        let other = first_other(rt.alloc(), *trial);
        assert!(rt; other.is_none(), "{name}: {other:?}");
    }
}
