// Look-ups against a plain search by halving over the same view.
ghost use Rattle.std.specs.Prelude.{◌≡◌, ◌<◌};

use crate::cases::Case;
use crate::draws::draw;
use crate::maps::{add, alias, latch, region, space};
use crate::plain_walks::{plain_at, plain_run_to};
use crate::trees::{run, viewed};
use crate::walks::{begin, change};
use flat_lookup::Atlas;
use mem_base::{Kind, Refusal, SpaceId, Spot};
use rand_pcg::Lcg64Xsh32;
use region_tree::Tree;
use std::alloc::{AllocError, Global};
use std::marker::Brand;
use std::sync::ledger::{Blank, Ledger};
use step_counter::Steps;

/// What an atlas shows at an address, and the last address of the run that holds it.
fn looked_up<L: Ledger>(atlas: &Atlas, addr: u64, blank: Blank) -> (Option<Spot>, u64)
    requires name { blank.name ≡ L.name }
    requires parts { blank.parts ≡ L.parts }
    requires some { 0 < L.parts }
{
    let mut steps = Steps::<L>::new(blank);
    let spot = atlas.at(addr, &mut steps);
    let run = atlas.run_to(addr, &mut steps);
    (spot, run)
}

/// The same, not counted.
fn look(atlas: &Atlas, addr: u64) -> (Option<Spot>, u64) {
    looked_up::<Brand>(atlas, addr, Blank::new(1))
}

/// What space 0 of a tree shows.
fn atlas(alloc: Global, tree: &Tree) -> Result<Atlas, AllocError> {
    let view = viewed(alloc, tree, SpaceId(0))?;
    match Atlas::new(alloc, view) {
        Ok(atlas) => Ok(atlas),
        Err((error, _)) => Err(error),
    }
}

/// Whether the atlas answers at these addresses as the plain search does.
fn is_halved_at(atlas: &Atlas, addrs: [u64; 5]) -> bool {
    let ranges = atlas.view().as_slice();
    for addr in addrs {
        if look(atlas, addr) != (plain_at(ranges, addr), plain_run_to(ranges, addr)) {
            return false;
        }
    }
    true
}

/// Whether it does so at and beside the ends of each range, in its middle, and at some addresses beside.
fn is_halved(atlas: &Atlas) -> bool {
    for range in atlas.view().as_slice() {
        let half = range.last.wrapping_sub(range.start) / 2;
        let addrs = [
            range.start.wrapping_sub(1),
            range.start,
            range.start.wrapping_add(half),
            range.last,
            range.last.wrapping_add(1),
        ];
        if !is_halved_at(atlas, addrs) {
            return false;
        }
    }
    is_halved_at(atlas, [0, 1, 0x8000_0000_0000_0000, u64::MAX - 1, u64::MAX])
}

/// An address, what is found there as a leaf and an offset in it, and the last address of the run that holds it.
type Row = (u64, Option<(u32, u64)>, u64);

static PC: [Row; 12] = [
    (0, Some((1, 0)), 0x9_ffff),
    (0x9_ffff, Some((1, 0x9_ffff)), 0x9_ffff),
    (0xa_0000, Some((2, 0)), 0xb_ffff),
    (0xb_ffff, Some((2, 0x1_ffff)), 0xb_ffff),
    (0xc_0000, Some((1, 0xc_0000)), 0xd_ffff),
    (0xe_1234, Some((3, 0x2_1234)), 0xf_ffff),
    (0x10_0000, Some((1, 0x10_0000)), 0x7ff_ffff),
    (0x800_0000, None, 0xfffb_ffff),
    (0xfffb_ffff, None, 0xfffb_ffff),
    (0xffff_ffff, Some((3, 0x3_ffff)), 0xffff_ffff),
    (0x1_0000_0000, None, u64::MAX),
    (u64::MAX, None, u64::MAX),
];

static NOTHING: [Row; 3] = [
    (0, None, u64::MAX),
    (0xfff, None, u64::MAX),
    (u64::MAX, None, u64::MAX),
];

/// Whether an atlas answers so, and at its ranges as the plain search does.
fn answers(atlas: &Atlas, rows: &[Row]) -> bool {
    for (addr, spot, run) in rows {
        let (found, last) = look(atlas, *addr);
        let shape = match found {
            Some(spot) => Some((spot.leaf.0, spot.offset)),
            None => None,
        };
        if shape != *spot || last != *run {
            return false;
        }
    }
    is_halved(atlas)
}

/// Whether a PC does, of which space 0 shows RAM, VGA, RAM, a ROM, RAM, and the whole ROM below 4 GiB.
pub(crate) fn pc_answers(alloc: Global, tree: &mut Tree) -> Result<bool, Refusal> {
    run(
        tree,
        &[
            region(Kind::Container, 0x1_0000_0000_0000_0000),
            region(Kind::Ram, 0x800_0000),
            region(latch(), 0x2_0000),
            region(Kind::Rom, 0x4_0000),
            alias(0x2_0000, 3, 0x2_0000),
            space(0, 0),
            add(0, 0, 1, 0),
            add(0, 0xa_0000, 2, 1),
            add(0, 0xfffc_0000, 3, 0),
            add(0, 0xe_0000, 4, 1),
        ],
    )?;
    let atlas = atlas(alloc, tree)?;
    Ok(answers(&atlas, &PC))
}

/// Whether an empty map does.
pub(crate) fn nothing_answers(alloc: Global, tree: &mut Tree) -> Result<bool, Refusal> {
    run(tree, &[region(Kind::Container, 0x1000), space(0, 0)])?;
    let atlas = atlas(alloc, tree)?;
    Ok(answers(&atlas, &NOTHING))
}

/// Makes a RAM of 0x40000 bytes, in every second map, and over it devices of 0x100 bytes, most of them apart.
fn crowd(tree: &mut Tree, seed: u64, devices: u32) -> Result<(), Refusal> {
    let mut rng = Lcg64Xsh32::new(seed, 54);
    run(
        tree,
        &[
            region(Kind::Container, 0x4_0000),
            region(Kind::Ram, 0x4_0000),
            space(0, 0),
        ],
    )?;
    if seed % 2 == 0 {
        tree.apply(&add(0, 0, 1, 0))?;
    }
    for number in 0..devices {
        let place = u64::from(draw(&mut rng, 0x400)) * 0x100;
        tree.apply(&region(latch(), 0x100))?;
        tree.apply(&add(0, place, number.saturating_add(2), 1))?;
    }
    Ok(())
}

/// Whether a crowded map has more than half of its number of ranges and at most these, and is looked up as by halving.
pub(crate) fn is_crowd_halved(
    alloc: Global,
    tree: &mut Tree,
    seed: u64,
    devices: u32,
    most: usize,
) -> Result<bool, Refusal> {
    crowd(tree, seed, devices)?;
    let atlas = atlas(alloc, tree)?;
    let count = atlas.view().as_slice().len();
    Ok(count <= most && count > most / 2 && is_halved(&atlas))
}

/// Whether a map is looked up as by halving after eight drawn calls; its ranges are counted.
fn is_next_halved(alloc: Global, case: &mut Case) -> Result<bool, Refusal> {
    change(case, 8)?;
    let atlas = atlas(alloc, &case.tree)?;
    case.count(0, atlas.view().as_slice().len());
    Ok(is_halved(&atlas))
}

/// Whether five drawn maps are, each of which is the one before after these calls.
pub(crate) fn are_halved(alloc: Global, case: &mut Case) -> Result<bool, Refusal> {
    begin(case)?;
    for _ in 0..5 {
        if !is_next_halved(alloc, case)? {
            return Ok(false);
        }
    }
    Ok(true)
}
