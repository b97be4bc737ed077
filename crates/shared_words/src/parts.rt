// Steps on a part of a word.
ghost use Rattle.std.specs.Prelude.{◌≡◌, ℕ, ◌+◌, ◌*◌, ◌^◌, ◌<◌, ◌≤◌, length};
ghost use Rattle.mem_base.specs.declared.access.cells.WordStep.TheVariants as steps;
ghost use Rattle.mem_base.specs.access.Words.{little_endian};
ghost use Rattle.epoch_rule.specs.declared.touches.Touch.TheVariants.{Look};
ghost use Rattle.epoch_rule.specs.Wrote.{WroteStep};

use epoch_rule::{Cabinet, Hand, Touch};
use mem_base::{Edition, Place};
use std::sync::Wait;

/// The number whose bytes these are, the lowest first.
fn number(bytes: &[u8]) -> u64
    requires { length bytes.now ≤ 8 }
    ensures number { result ≡ little_endian bytes.now }
    ensures small { result < 256 ^ length bytes.now }
{
    match bytes {
        [] => 0,
        [byte, rest @ ..] => *byte as u64 + 256 * number(rest),
    }
}

/// Replaces the bytes of a word from byte `first` on, by one exchange; byte 0 is the lowest. It tries again until its
/// exchange stands, so it may wait. There are 1 to 8 bytes, and they end at byte 8 or before.
pub fn store_part<E: Edition + Drop, H: Hand<E>, R: Wait>(
    rt: &R,
    cabinet: &Cabinet<E>,
    hand: &mut H,
    place: &Place,
    word: usize,
    first: u32,
    bytes: &[u8],
)
    requires own { H.made_by hand.old ≡ cabinet.now.id }
    requires part { (0 < length bytes.now) × (first + length bytes.now ≤ 8) }
    requires may { H.may hand.old place.now word Look }
    ensures wrote { (old : ℕ) × WroteStep (H.actor hand.old) (H.sizes hand.old) place.now word
        (steps.Replace first (length bytes.now) (little_endian bytes.now)) old (H.seen hand.old) (H.seen hand.new) }
    ensures stays { H.stays hand.old hand.new }
{
    let count = bytes.len() as u32;
    replace(rt, cabinet, hand, place, word, first, count, number(bytes));
}

/// The same, where the bytes are those of a number, the lowest first.
pub fn replace<E: Edition + Drop, H: Hand<E>, R: Wait>(
    rt: &R,
    cabinet: &Cabinet<E>,
    hand: &mut H,
    place: &Place,
    word: usize,
    first: u32,
    bytes: u32,
    value: u64,
)
    requires own { H.made_by hand.old ≡ cabinet.now.id }
    requires part { (0 < bytes) × (first + bytes ≤ 8) }
    requires value { value < 256 ^ bytes }
    requires may { H.may hand.old place.now word Look }
    ensures wrote { (old : ℕ) × WroteStep (H.actor hand.old) (H.sizes hand.old) place.now word (steps.Replace first bytes value) old
        (H.seen hand.old) (H.seen hand.new) }
    ensures stays { H.stays hand.old hand.new }
{
    let mut old = cabinet.touch(hand, place, word, Touch::Look);
    for _ in rt.forever() {
        let touch = Touch::Try {
            old,
            first,
            bytes,
            value,
        };
        let found = cabinet.touch(hand, place, word, touch);
        if found == old {
            break;
        }
        old = found;
    }
}
