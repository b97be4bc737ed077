// Drawn accesses to drawn maps, against the plain program.
use crate::desk::calls::{DECODE, ERROR, OK};
use crate::desk::drawn_maps::{ADDRS, draw_map, flip};
use crate::desk::machines::Machine;
use crate::desk::plain_accesses::Memory;
use crate::desk::trials::{Counts, Trial, comes_out, tick};
use crate::draws::draw;
use access_run::{read, write};
use mem_base::{Refusal, SpaceId, TxResult};
use rand_pcg::Lcg64Xsh32;
use std::alloc::Global;
use std::sync::ledger::Ledger;
use step_counter::Steps;

/// How many maps are drawn, and how many accesses are made to each.
const MAPS: u64 = 25;

const ACCESSES: u32 = 200;

/// The most bytes of an access.
const MOST: usize = 24;

/// Counts an access: whether it ends well, with an error or with a decode error; sets a notifier, marks pages, has several runs, and is
/// translated.
fn count(counts: &mut Counts, memory: &Memory, ends: TxResult) {
    tick(counts, 0, true);
    tick(counts, 1, ends == OK);
    tick(counts, 2, ends == ERROR);
    tick(counts, 3, ends == DECODE);
    tick(counts, 4, memory.count.notified > 0);
    tick(counts, 5, memory.count.marks > 0);
    tick(counts, 6, memory.runs > 1);
    tick(counts, 7, memory.translated);
}

/// An access: its space, its address, whether it writes, how many bytes it has, and the bytes.
#[derive(Clone, Copy)]
struct Drawn {
    space: SpaceId,
    addr: u64,
    write: bool,
    len: usize,
    bytes: [u8; MOST],
}

/// A small address, and one time in fifty one of the last eight of all.
fn address(rng: &mut Lcg64Xsh32) -> u64 {
    let addr = u64::from(draw(rng, ADDRS));
    if draw(rng, 50) == 0 {
        u64::MAX - addr % 8
    } else {
        addr
    }
}

/// 1 to 8 bytes in half of the cases, and else up to the most.
fn length(rng: &mut Lcg64Xsh32) -> usize {
    let most = if flip(rng) { 8 } else { MOST as u32 };
    draw(rng, most) as usize + 1
}

fn drawn_access(rng: &mut Lcg64Xsh32) -> Drawn {
    let mut bytes = [0; MOST];
    for byte in &mut bytes {
        *byte = match draw(rng, 3) {
            0 => draw(rng, 256) as u8,
            small => small as u8 - 1,
        };
    }
    Drawn {
        space: SpaceId(draw(rng, 3)),
        addr: address(rng),
        write: flip(rng),
        len: length(rng),
        bytes,
    }
}

/// Whether an access comes out as the plain program has it.
fn is_same(
    alloc: Global,
    machine: &mut Machine,
    memory: &mut Memory,
    access: &Drawn,
    counts: &mut Counts,
) -> Result<bool, Refusal> {
    let Drawn {
        space,
        addr,
        write: writes,
        ..
    } = *access;
    let (mut ours, mut theirs) = (access.bytes, access.bytes);
    let (Some(one), Some(other)) = (ours.get_mut(..access.len), theirs.get_mut(..access.len)) else {
        return Ok(false);
    };
    machine.refresh()?;
    let result = if writes {
        write(&mut machine.hand, space, addr, one)
    } else {
        read(&mut machine.hand, space, addr, one)
    };
    let plain = memory.access(alloc, &machine.desk, (space, addr, writes), other)?;
    count(counts, memory, plain);
    Ok(result == plain && *one == *other && machine.hand.count() == memory.count)
}

/// Whether all accesses to a machine's map do, and the words are the same in the end.
fn are_same(
    alloc: Global,
    rng: &mut Lcg64Xsh32,
    machine: &mut Machine,
    counts: &mut Counts,
) -> Result<bool, Refusal> {
    let mut memory = Memory::new(machine.hand.words_copy()?);
    for _ in 0..ACCESSES {
        let access = drawn_access(rng);
        if !is_same(alloc, machine, &mut memory, &access, counts)? {
            return Ok(false);
        }
    }
    Ok(machine.hand.words() == memory.words.as_slice())
}

/// The same of a drawn map.
pub(crate) fn are_accesses<L: Ledger>(
    alloc: Global,
    machine: &mut Machine,
    seed: u64,
    counts: &mut Counts,
    steps: &mut Steps<L>,
) -> Result<bool, Refusal> {
    let mut rng = Lcg64Xsh32::new(seed, 54);
    draw_map(machine, &mut rng, steps)?;
    are_same(alloc, &mut rng, machine, counts)
}

/// More than how many of each kind have to be met.
static LEAST: Counts = [4999, 1000, 50, 1000, 50, 200, 1000, 500];

/// Whether enough of each kind were met, of 5,000 accesses.
fn are_enough(counts: &Counts) -> bool {
    for (count, least) in counts.iter().zip(LEAST.iter()) {
        if *count <= *least {
            return false;
        }
    }
    counts[0] == 5000
}

#[test]
fn drawn_accesses_are_those_of_a_plain_program(rt: HostRuntime) {
    let mut counts = [0; 8];
    for seed in 0..MAPS {
        assert!(rt;
            comes_out(rt.alloc(), Trial::Accesses(seed), &mut counts) == Ok(true),
            "{seed}"
        );
    }
    assert!(rt; are_enough(&counts), "{counts:?}");
}
