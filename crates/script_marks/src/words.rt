// What may stand at a place of a line.
ghost use Rattle.std.specs.Prelude.{◌≤◌, length};

use crate::openings::{opens, with_word};
use std::alloc::{AllocError, Global};

// All words of the language, in the order of letters, but for those of virtual CPUs.
fn words() -> &'static [&'static str] {
    &[
        "add",
        "alias",
        "at",
        "begin",
        "bell",
        "big",
        "code",
        "commit",
        "container",
        "count",
        "data",
        "del",
        "dirty",
        "disable",
        "dma",
        "do",
        "drop",
        "enable",
        "end",
        "enter",
        "event",
        "fault",
        "global",
        "impl",
        "io",
        "iommu",
        "iunaligned",
        "latch",
        "leave",
        "listen",
        "load",
        "log",
        "machine",
        "map",
        "migration",
        "move",
        "none",
        "nonvolatile",
        "notified",
        "off",
        "on",
        "par",
        "prio",
        "r",
        "ram",
        "read",
        "readonly",
        "reap",
        "region",
        "regs",
        "reserve",
        "resize",
        "retarget",
        "rom",
        "romd",
        "romdev",
        "rw",
        "show",
        "space",
        "to",
        "unevent",
        "unlisten",
        "unmap",
        "unmergeable",
        "unwatch",
        "v0",
        "valid",
        "vga",
        "vunaligned",
        "w",
        "watch",
        "write",
    ]
}

// What an operand may be, each after a token that only such an operand and those before it in the list take.
fn operands() -> &'static [(&'static str, &'static str)] {
    &[
        ("x", "a name, such as ram or pc.bios"),
        (
            "0a",
            "bytes: two hexadecimal digits each, 1 to 64 of them, such as 0a1b",
        ),
        (
            "-1",
            "a priority: a decimal number, with `-` before it or not",
        ),
        (
            "1-4",
            "two sizes of accesses, the least and the greatest, such as 1-4",
        ),
        (
            "18446744073709551616",
            "a size: at most 2^64, such as 4096, 0x1000 or 4K",
        ),
        (
            "18446744073709551615",
            "an address or a number: at most 2^64 - 1, such as 4096, 0x1000 or 4K",
        ),
        ("65535", "a decimal number: how many registers of 8 bytes"),
        ("255", "a decimal number: a size of 1, 2, 4 or 8 bytes"),
        ("0", "a number from 0 to 63"),
        ("1", "a number from 1 to 64"),
        (
            "4096",
            "a size in whole pages of 4096 bytes: at most 512M, such as 64K or 16M",
        ),
    ]
}

/// Whether a word may stand after a text: whether some line of the language begins with the two.
pub fn fits(alloc: Global, before: &[u8], word: &str) -> Result<bool, AllocError> {
    let whole = with_word(alloc, before, word)?;
    let open_line = opens(alloc, whole.as_slice())?;
    Ok(open_line)
}

// Those of these words that may stand after a text, in order.
fn picked(
    alloc: Global,
    before: &[u8],
    words: &[&'static str],
) -> Result<Vec<&'static str>, AllocError> {
    let mut picked = Vec::new(alloc);
    for word in words {
        if fits(alloc, before, *word)? {
            picked.push(*word)?;
        }
    }
    Ok(picked)
}

/// The words of the language that may stand after a text, in the order of letters.
pub fn words_at(alloc: Global, before: &[u8]) -> Result<Vec<&'static str>, AllocError> {
    let all = picked(alloc, before, words())?;
    Ok(all)
}

/// What an operand after a text may be, in words, if one may stand there.
pub fn operand_at(alloc: Global, before: &[u8]) -> Result<Option<&'static str>, AllocError> {
    for (token, text) in operands() {
        if fits(alloc, before, *token)? {
            return Ok(Some(*text));
        }
    }
    Ok(None)
}

// How many bytes two words have in common at their beginning, without regard to case.
fn common_front(word: &[u8], other: &[u8]) -> usize
    ensures { (result ≤ length word.now) × (result ≤ length other.now) }
{
    let mut count = 0;
    while count < word.len() && count < other.len() {
        if word[count].to_ascii_lowercase() != other[count].to_ascii_lowercase() {
            return count;
        }
        count += 1;
    }
    count
}

// The same at their end.
fn common_back(word: &[u8], other: &[u8]) -> usize
    ensures { (result ≤ length word.now) × (result ≤ length other.now) }
{
    let mut count = 0;
    while count < word.len() && count < other.len() {
        let byte = word[word.len() - 1 - count];
        if byte.to_ascii_lowercase() != other[other.len() - 1 - count].to_ascii_lowercase() {
            return count;
        }
        count += 1;
    }
    count
}

// How far two words are apart: twice as many bytes as the longer one has between what both have in common at either end, and one more
// where they begin otherwise.
fn distance(word: &[u8], other: &[u8]) -> usize {
    let front = common_front(word, other);
    let (_, word) = word.split_at(front);
    let (_, other) = other.split_at(front);
    let between = word.len().max(other.len()) - common_back(word, other);
    between
        .saturating_mul(2)
        .saturating_add(usize::from(front == 0))
}

/// Of some words the one that is nearest to a token, if one differs from it in about half of it at most.
pub fn nearest<'a>(token: &[u8], words: &[&'a str]) -> Option<&'a str> {
    let mut found = None;
    let mut least = token.len().saturating_add(2);
    for word in words {
        let away = distance(token, word.as_bytes());
        if away < least {
            least = away;
            found = Some(*word);
        }
    }
    found
}
