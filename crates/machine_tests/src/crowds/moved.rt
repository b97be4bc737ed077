// Memory that is moved: each virtual CPU reads and writes it by accesses in one round, and by windows in the next.
ghost use Rattle.std.specs.Prelude.{◌≡◌, ◌<◌, ◌≤◌, false, true, IfOk};

use crate::calls::{GOOD, add, region, shift, space};
use crate::crowds::SPACE;
use config_desk::Config;
use io_window::{Closed, Window, open};
use mem_base::{Call, Kind};
use std::sync::Wait;
use vcpu_pass::Vcpu;

/// How often the memory is moved.
const MOVES: u32 = 1000;

/// The bytes that are used: a word of each virtual CPU, one that all write whole, and a byte of each.
const LEN: u64 = 160;

/// A page of memory in a container.
pub(super) fn map() -> [Call; 4] {
    [
        region(Kind::Container, 0x10000),
        region(Kind::Ram, 0x1000),
        space(SPACE.0, 0),
        add(0, 0, 1),
    ]
}

/// Moves the memory, 1,000 times; how often it did. Where a virtual CPU holds a move up, it tries again.
pub(super) fn move_many(config: &mut Config) -> u32 {
    let mut moved = 0u32;
    for _ in 0..10_000_000u32 {
        if moved >= MOVES {
            break;
        }
        let offset = if moved % 2 == 0 { 0x1000 } else { 0 };
        if config.call(&shift(1, offset)).is_ok() {
            moved = moved.saturating_add(1);
        }
    }
    moved
}

/// Whether all eight bytes are the number of one virtual CPU.
fn is_of_one(word: [u8; 8]) -> bool {
    let first = word[0];
    first < 16 && word == [first; 8]
}

/// Where the memory now lies: at 0 or at 0x1000.
fn base_of(vcpu: &mut Vcpu<'_>) -> u64
    ensures { result ≤ 4096 }
{
    let mut byte = [0u8; 1];
    if vcpu.read(SPACE, 0, &mut byte).result == GOOD {
        0
    } else {
        0x1000
    }
}

/// Reads the memory, from an address on; whether what this virtual CPU wrote last is there, and in the word of all what some one wrote.
fn has_kept(vcpu: &mut Vcpu<'_>, base: u64, mine: u8, round: u64) -> bool
    requires { base ≤ 4096 }
{
    let mut word = [0u8; 8];
    let mut byte = [0u8; 1];
    let own = vcpu
        .read(SPACE, base + 8 * u64::from(mine), &mut word)
        .result
        == GOOD
        && word == round.to_le_bytes();
    let shared = vcpu.read(SPACE, base + 128, &mut word).result == GOOD && is_of_one(word);
    let part = vcpu
        .read(SPACE, base + 136 + u64::from(mine), &mut byte)
        .result
        == GOOD;
    own && shared && part && (round == 0 || byte == [mine])
}

/// Writes the next round into this virtual CPU's own word, and its number into the word of all and into its own byte; whether that ends
/// well.
fn writes<R: Wait>(rt: &R, vcpu: &mut Vcpu<'_>, base: u64, mine: u8, round: u64) -> bool
    requires { base ≤ 4096 }
{
    let own = base + 8 * u64::from(mine);
    let next = vcpu.write8(SPACE, own, round.saturating_add(1)).is_ok();
    let all = vcpu.write(rt, SPACE, base + 128, &[mine; 8]).result == GOOD;
    let part = base + 136 + u64::from(mine);
    next && all && vcpu.write(rt, SPACE, part, &[mine]).result == GOOD
}

/// Whether a window has what this virtual CPU wrote last, and in the word of all what some one wrote.
fn shows_kept(window: &mut Window<'_>, mine: u8, round: u64) -> bool
    requires read { window.old.start.write ≡ false }
    requires long { window.old.len ≡ 160 }
    requires few { mine < 16 }
    ensures stays { (window.new.start ≡ window.old.start) × (window.new.len ≡ window.old.len) × (window.new.put_end ≡ window.old.put_end) }
{
    let mut word = [0u8; 8];
    let mut byte = [0u8; 1];
    window.get(8 * u64::from(mine), &mut word);
    let own = word == round.to_le_bytes();
    window.get(128, &mut word);
    let shared = is_of_one(word);
    window.get(136 + u64::from(mine), &mut byte);
    own && shared && (round == 0 || byte == [mine])
}

/// Puts the next round into this virtual CPU's own word, and its number into the word of all and into its own byte.
fn puts<R: Wait>(rt: &R, window: &mut Window<'_>, mine: u8, round: u64)
    requires write { window.old.start.write ≡ true }
    requires long { window.old.len ≡ 160 }
    requires fresh { window.old.put_end ≡ 0 }
    requires few { mine < 16 }
    ensures stays { (window.new.start ≡ window.old.start) × (window.new.len ≡ window.old.len) × (window.new.put_end ≤ 160) }
{
    let next = round.saturating_add(1).to_le_bytes();
    window.put(rt, 8 * u64::from(mine), &next);
    window.put(rt, 128, &[mine; 8]);
    window.put(rt, 136 + u64::from(mine), &[mine]);
}

/// A window of full length at an address, where there is a direct one.
fn window_at<'c, R: Wait>(
    rt: &R,
    vcpu: Vcpu<'c>,
    addr: u64,
    write: bool,
) -> Result<Window<'c>, Vcpu<'c>>
    requires { addr ≤ 4096 }
    ensures { IfOk result (λ w. (w.start.write ≡ write) × (w.len ≡ 160) × (w.put_end ≡ 0)) }
{
    match open(vcpu, SPACE, addr, LEN, write, None) {
        Ok(window) => {
            if window.len() == LEN {
                Ok(window)
            } else {
                Err(window.close(rt, 0).vcpu)
            }
        }
        Err((_, vcpu, _)) => Err(vcpu),
    }
}

/// Reads by a window; whether what it got is as it has to be.
fn reads_by_window<'c, R: Wait>(
    rt: &R,
    vcpu: Vcpu<'c>,
    base: u64,
    mine: u8,
    round: u64,
) -> (Vcpu<'c>, bool)
    requires few { mine < 16 }
    requires base { base ≤ 4096 }
{
    match window_at(rt, vcpu, base, false) {
        Ok(mut window) => {
            let kept = shows_kept(&mut window, mine, round);
            let Closed { vcpu, result, .. } = window.close(rt, 0);
            (vcpu, kept && result == GOOD)
        }
        Err(vcpu) => (vcpu, false),
    }
}

/// Writes by a window; whether that ended well.
fn writes_by_window<'c, R: Wait>(
    rt: &R,
    vcpu: Vcpu<'c>,
    base: u64,
    mine: u8,
    round: u64,
) -> (Vcpu<'c>, bool)
    requires few { mine < 16 }
    requires base { base ≤ 4096 }
{
    match window_at(rt, vcpu, base, true) {
        Ok(mut window) => {
            puts(rt, &mut window, mine, round);
            let Closed { vcpu, result, .. } = window.close(rt, LEN);
            (vcpu, result == GOOD)
        }
        Err(vcpu) => (vcpu, false),
    }
}

/// Reads and writes the memory where it lies in the generation that was entered; whether what was read is what some write put there, and
/// what this virtual CPU's last one did where no other writes.
pub(super) fn visit<'c, R: Wait>(rt: &R, vcpu: Vcpu<'c>, mine: u8, round: u64) -> (Vcpu<'c>, bool)
    requires { mine < 16 }
{
    let mut vcpu = vcpu;
    let base = base_of(&mut vcpu);
    if round % 2 == 0 {
        let kept = has_kept(&mut vcpu, base, mine, round);
        let wrote = writes(rt, &mut vcpu, base, mine, round);
        return (vcpu, kept && wrote);
    }
    let (vcpu, kept) = reads_by_window(rt, vcpu, base, mine, round);
    let (vcpu, wrote) = writes_by_window(rt, vcpu, base, mine, round);
    (vcpu, kept && wrote)
}
