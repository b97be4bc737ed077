// Words that back regions, and the atomic steps on them.
ghost use Rattle.std.specs.Prelude.{◌≡◌, ◌≤◌, ◌<◌, ◌+◌, ◌%◌, ◌^◌};
ghost use Rattle.mem_base.specs.access.Places.{notifiers_place};
ghost use Rattle.mem_base.specs.access.Words.{in_word, replaced, word_after};

use crate::RegionId;
use crate::map::limits::{NOTIFIER_COUNT, WORD_SIZE};

/// The words of the pool that back a region: `words` words of 8 bytes from `start` on.
#[derive(Clone, Copy, Debug, PartialEq, Eq)]
pub struct Place {
    pub region: RegionId,
    pub start: usize,
    pub words: usize,
    /// The bytes of data, in the first `bytes / 8` words.
    pub bytes: u64,
    /// The registers, in the words after the data.
    pub regs: u32,
}

impl Place {
    /// The place of the notifiers: one word each, after a pool of this many words.
    pub fn notifiers(pool_words: usize) -> Place
        ensures { result ≡ notifiers_place pool_words }
    {
        Place {
            region: RegionId::NOTIFIERS,
            start: pool_words,
            words: NOTIFIER_COUNT,
            bytes: 0,
            regs: NOTIFIER_COUNT as u32,
        }
    }
}

/// A word of a region: its data, then its registers, then its marks.
#[derive(Clone, Copy, Debug, PartialEq, Eq)]
pub struct Cell {
    pub region: RegionId,
    pub word: usize,
}

/// One atomic step on a word of 8 bytes.
#[derive(Clone, Copy, Debug, PartialEq, Eq)]
pub enum WordStep {
    Load,
    /// Replaces the `bytes` bytes from `first` on by those of the value, the lowest first.
    Replace { first: u32, bytes: u32, value: u64 },
    /// Adds one, modulo 2^64.
    AddOne,
    Or { bits: u64 },
    /// Leaves 0.
    Take,
}

// The lowest bytes of a number, this many.
fn lowest(number: u64, bytes: u32) -> u64
    requires { bytes ≤ 8 }
    ensures { result ≡ number % (256 ^ bytes) }
{
    if bytes == 8 {
        number
    } else {
        number % (1 << (8 * bytes))
    }
}

// A word with some of its bytes replaced.
fn with_bytes(old: u64, first: u32, bytes: u32, value: u64) -> u64
    requires some { 0 < bytes }
    requires within { first + bytes ≤ 8 }
    ensures { result ≡ replaced old first bytes value }
{
    let below = lowest(old, first);
    let new = lowest(value, bytes) << (8 * first);
    let above = old - lowest(old, first + bytes);
    below + new + above
}

// How many of the bytes from one on lie in the word.
fn bytes_in_word(first: u32, bytes: u32) -> u32
    ensures { result ≡ in_word first bytes }
{
    bytes.min((WORD_SIZE as u32).saturating_sub(first))
}

impl WordStep {
    /// The word that this step leaves of an old one. Bytes of a `Replace` that lie past the word change nothing.
    pub fn after(self, old: u64) -> u64
        ensures { result ≡ word_after self old }
    {
        match self {
            WordStep::Load => old,
            WordStep::Replace {
                first,
                bytes,
                value,
            } => {
                let inside = bytes_in_word(first, bytes);
                if inside == 0 {
                    return old;
                }
                with_bytes(old, first, inside, value)
            }
            WordStep::AddOne => old.wrapping_add(1),
            WordStep::Or { bits } => old | bits,
            WordStep::Take => 0,
        }
    }
}
