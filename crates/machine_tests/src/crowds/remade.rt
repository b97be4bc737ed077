// Memory that is made, placed, removed, dropped and released again and again, in a pool that two such memories fill.
use crate::calls::{GOOD, HOLE, add, region, space};
use crate::crowds::SPACE;
use config_desk::Config;
use mem_base::{Applied, Call, Kind, RegionId};
use std::sync::Wait;
use vcpu_pass::Vcpu;

/// The root of the space, a container.
const ROOT: RegionId = RegionId(0);

/// How often memory is made, and dropped.
const MADE: u32 = 300;

/// An empty container that is a space.
pub(super) fn map() -> [Call; 2] {
    [region(Kind::Container, 4096), space(SPACE.0, ROOT.0)]
}

/// What a virtual CPU writes in a generation.
fn word_of(number: u64, mine: u8) -> u64 {
    (number << 8) | u64::from(mine)
}

/// Whether a word is 0, or what some virtual CPU writes in this generation.
fn is_of(word: u64, number: u64) -> bool {
    word == 0 || (word >> 8 == number && word % 256 < 16)
}

/// The address of one of the 512 words.
fn addr_of(word: u64) -> u64 {
    word % 512 * 8
}

/// Writes a word and reads another one, entered in the generation of this number.
///
/// Memory is in each generation of an even number, and no memory is in two of them. So what is read there was written there, or is 0; and
/// in the others nothing answers.
pub(super) fn visit<'c, R: Wait>(
    rt: &R,
    vcpu: Vcpu<'c>,
    number: u64,
    mine: u8,
    round: u64,
) -> (Vcpu<'c>, bool) {
    let mut vcpu = vcpu;
    let mut read = [0u8; 8];
    let word = word_of(number, mine).to_le_bytes();
    let to = addr_of(round.wrapping_add(u64::from(mine)));
    let wrote = vcpu.write(rt, SPACE, to, &word).result;
    let had = vcpu.read(SPACE, addr_of(round), &mut read).result;
    let found = u64::from_le_bytes(read);
    let is_there = number % 2 == 0;
    let wanted = if is_there { GOOD } else { HOLE };
    let is_so = if is_there {
        is_of(found, number)
    } else {
        found == 0
    };
    (vcpu, is_so && wrote == wanted && had == wanted)
}

/// What is done next with the memory.
#[derive(Clone, Copy)]
enum Next {
    Make,
    Place(RegionId),
    Remove(RegionId),
    Drop(RegionId),
}

/// What is done after it.
fn after(next: Next, applied: Applied) -> Next {
    match (next, applied) {
        (Next::Make, Applied::Made(memory)) => Next::Place(memory),
        (Next::Place(memory), _) => Next::Remove(memory),
        (Next::Remove(memory), _) => Next::Drop(memory),
        _ => Next::Make,
    }
}

/// The call that does it.
fn call_of(next: Next) -> Call {
    match next {
        Next::Make => region(Kind::Ram, 4096),
        Next::Place(child) => add(ROOT.0, 0, child.0),
        Next::Remove(child) => Call::Del {
            parent: ROOT,
            child,
        },
        Next::Drop(region) => Call::Drop { region },
    }
}

/// Does what is next, and says what is then. What is refused, since a virtual CPU holds it up or the pool is full, is tried again after a
/// reap.
fn go_on(config: &mut Config, next: Next) -> Next {
    if let Ok((applied, _)) = config.call(&call_of(next)) {
        return after(next, applied);
    }
    let _ = config.reap();
    next
}

/// Makes, places, removes and drops memory; how often.
pub(super) fn make_many(config: &mut Config) -> u32 {
    let mut made = 0u32;
    let mut next = Next::Make;
    for _ in 0..10_000_000u32 {
        if made >= MADE {
            break;
        }
        let then = go_on(config, next);
        if matches!((next, then), (Next::Drop(_), Next::Make)) {
            made = made.saturating_add(1);
        }
        next = then;
    }
    made
}
