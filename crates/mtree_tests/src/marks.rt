// Marks of writes, and the pages of mark words: worked cases, and drawn ones against plain loops.

use crate::draws::draw;
use dirty_log::{Marks, mark_of, marks_of, pages_of};
use mem_base::{Client, Place, RegionId};
use rand_core::utils::NextWord;
use rand_pcg::Lcg64Xsh32;
use std::alloc::{AllocError, Global};

/// All that is left, at most 64 of it.
fn all(alloc: Global, mut marks: Marks) -> Result<Vec<(u64, Client)>, AllocError> {
    let mut list = Vec::new(alloc);
    for _ in 0..64_u32 {
        if let Some(mark) = marks.next() {
            list.push(mark)?;
        }
    }
    Ok(list)
}

/// A log, an offset, a length, and the pages that are marked, each for a client.
type Row = (u8, u64, u64, &'static [(u64, Client)]);

static WRITES: [Row; 6] = [
    (1, 5, 1, &[(0, Client::Vga)]),
    // Nobody asks.
    (0, 5, 1, &[]),
    // No bytes.
    (7, 5, 0, &[]),
    // Over a boundary.
    (
        5,
        4095,
        2,
        &[
            (0, Client::Vga),
            (0, Client::Migration),
            (1, Client::Vga),
            (1, Client::Migration),
        ],
    ),
    // A whole page and one byte.
    (2, 8192, 4097, &[(2, Client::Code), (3, Client::Code)]),
    // Past the last address.
    (
        2,
        u64::MAX,
        2,
        &[
            (0xf_ffff_ffff_ffff, Client::Code),
            (0x10_0000_0000_0000, Client::Code),
        ],
    ),
];

/// The number of the first write that marks others.
fn first_other(alloc: Global) -> Result<Option<usize>, AllocError> {
    for (i, (log, offset, len, want)) in WRITES.iter().enumerate() {
        let list = all(alloc, marks_of(*log, *offset, *len))?;
        if list.as_slice() != *want {
            return Ok(Some(i));
        }
    }
    Ok(None)
}

#[test]
fn a_write_marks_each_page_for_each_client(rt: HostRuntime) {
    let other = first_other(rt.alloc());
    assert!(rt; other == Ok(None), "{other:?}");
}

static SMALL: Place = Place {
    region: RegionId(1),
    start: 7,
    words: 515,
    bytes: 4096,
    regs: 0,
};

/// 65 pages and three registers.
static LARGE: Place = Place {
    region: RegionId(2),
    start: 0,
    words: 33_289,
    bytes: 266_240,
    regs: 3,
};

/// Clients and pages, each with the word and the bit of its mark.
static OF_SMALL: [(Client, u64, (usize, u64)); 3] = [
    (Client::Vga, 0, (512, 1)),
    (Client::Code, 0, (513, 1)),
    (Client::Migration, 0, (514, 1)),
];

static OF_LARGE: [(Client, u64, (usize, u64)); 5] = [
    (Client::Vga, 0, (33_283, 1)),
    // The last of a word, and the first of the next.
    (Client::Vga, 63, (33_283, 0x8000_0000_0000_0000)),
    (Client::Vga, 64, (33_284, 1)),
    (Client::Code, 3, (33_285, 8)),
    (Client::Migration, 64, (33_288, 1)),
];

/// Whether the marks of pages of a place are there.
fn are_marks(place: &Place, rows: &[(Client, u64, (usize, u64))]) -> bool {
    for (client, page, want) in rows {
        if *page >= place.bytes / 4096 || mark_of(place, *client, *page) != *want {
            return false;
        }
    }
    true
}

#[test]
fn marks_stand_after_data_and_registers(rt: HostRuntime) {
    assert!(rt; are_marks(&SMALL, &OF_SMALL) && are_marks(&LARGE, &OF_LARGE));
}

/// Whether the pages of a word are told as `pages_of` appends them to a list, and as a plain loop does.
fn are_same(
    told: &mut Vec<u64>,
    plain: &mut Vec<u64>,
    base: u64,
    bits: u64,
) -> Result<bool, AllocError> {
    told.clear();
    plain.clear();
    told.push(9)?;
    plain.push(9)?;
    told.reserve(64)?;
    if base > u64::MAX - 63 {
        return Ok(true);
    }
    pages_of(told, base, bits);
    for bit in 0..64_u32 {
        if bits & (1 << bit) != 0 {
            plain.push(base.saturating_add(u64::from(bit)))?;
        }
    }
    Ok(told.as_slice() == plain.as_slice())
}

/// Whether 200 drawn words and some worked ones tell their pages.
fn are_all_same(told: &mut Vec<u64>, plain: &mut Vec<u64>) -> Result<bool, AllocError> {
    for bits in [0, 1, 1 << 63, u64::MAX, 0x8000_0000_0000_0001] {
        if !are_same(told, plain, 64, bits)? {
            return Ok(false);
        }
    }
    let mut rng = Lcg64Xsh32::new(3, 54);
    for _ in 0..200_u32 {
        let bits = u64::from(rng.next_word()) << 32 | u64::from(rng.next_word());
        let base = u64::from(draw(&mut rng, 1000)) * 64;
        if !are_same(told, plain, base, bits)? {
            return Ok(false);
        }
    }
    Ok(true)
}

/// The same with lists of their own.
fn tell_their_pages(alloc: Global) -> Result<bool, AllocError> {
    let mut told = Vec::new(alloc);
    let mut plain = Vec::new(alloc);
    let is_so = are_all_same(&mut told, &mut plain);
    is_so
}

#[test]
fn a_mark_word_tells_its_pages(rt: HostRuntime) {
    assert!(rt; tell_their_pages(rt.alloc()) == Ok(true));
}
