//! How long the memory map takes: the calls that build a map, moves, look-ups, a view, its atlas and a walk to the next
//! one; routes of accesses, accesses to registers, and changes that are published; reads and writes of virtual CPUs, of
//! the pure machine and of a bus of one's own; a pool and a cabinet; and the text of a script, read and printed.
//!
//! Standard output is the same in every run: calls, refusals and ranges of a map, and sums over what was found; of a
//! text its bytes, its commands, the bytes printed of them, and the line at fault, 0 where none is. Standard error has
//! the times, the least of some rounds. With the word `full` the sizes are those of docs/SPEED.md, else small.
#![tactic(auto)]

ghost use Rattle.std.specs.Prelude.{◌≡◌, ◌<◌};

mod accesses;
mod changes;
mod lookups;
mod maps;
mod scripts;
mod times;
mod words;

use crate::maps::Shape;
use crate::times::{Bench, Clock, Result};
use std::marker::Brand;
use std::sync::Wait;
use std::sync::ledger::{Blank, Ledger};
use std::thread::Threads;
use step_counter::Steps;

/// The maps, each with its size and its full size.
static MAPS: [(&str, Shape, u32, u32); 11] = [
    ("generated", Shape::Generated, 50, 500),
    ("generated", Shape::Generated, 100, 1000),
    ("generated", Shape::Generated, 150, 2000),
    ("generated", Shape::Generated, 200, 4000),
    ("flat", Shape::Flat, 50, 2000),
    ("flat", Shape::Flat, 100, 4000),
    ("chains down", Shape::Chains(true), 4, 120),
    ("chains up", Shape::Chains(false), 4, 120),
    ("zigzag", Shape::Zigzag, 100, 2000),
    ("aliases", Shape::Aliases, 100, 4000),
    ("heavy", Shape::Heavy, 20, 1000),
];

fn main(rt: HostRuntime) -> Result<()> {
    run::<Brand, HostRuntime>(rt, &rt, Blank::new(1))
}

/// All of it: small maps once each, or the maps of docs/SPEED.md in five rounds, with 60 views each.
fn run<L: Ledger, R: Threads + Wait + Sync>(rt: HostRuntime, host: &R, blank: Blank) -> Result<()>
    requires name { blank.name ≡ L.name }
    requires parts { blank.parts ≡ L.parts }
    requires some { 0 < L.parts }
{
    let is_full = std::env::args(&rt)?
        .skip(1)
        .any(|word| word.as_str() == "full");
    let (rounds, views, middle) = if is_full { (5, 60, 2000) } else { (1, 1, 150) };
    let (clock, steps) = (Clock { rt, rounds }, Steps::<L>::new(blank));
    let mut bench = Bench { clock, steps };
    for (name, shape, small, full) in MAPS {
        let map = shape.map(rt, name, if is_full { full } else { small })?;
        bench.run_tree(&map, views)?;
    }
    let map = Shape::Generated.map(rt, "generated", middle)?;
    bench.run_views(&map)?;
    bench.run_accesses(host, &map)?;
    for size in [middle, middle * 2] {
        bench.run_changes(Shape::Generated.map(rt, "generated", size)?)?;
    }
    clock.run_pool()?;
    let (words, count) = if is_full {
        (1 << 26, 1_000_000)
    } else {
        (32_771, 1000)
    };
    clock.run_cabinet(words, count)?;
    clock.run_scripts(is_full)
}
