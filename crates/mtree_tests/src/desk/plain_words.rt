// Bytes and marks in a list of words, one by one.
use mem_base::{Client, Place};

/// A byte of a word, the lowest first.
pub(crate) fn byte_of(word: u64, index: u64) -> u8 {
    word.to_le_bytes()[(index % 8) as usize]
}

/// The word with one of its bytes replaced.
pub(crate) fn with_byte(word: u64, index: u64, byte: u8) -> u64 {
    let mut bytes = word.to_le_bytes();
    bytes[(index % 8) as usize] = byte;
    u64::from_le_bytes(bytes)
}

/// The place in the whole list of a word of a region.
pub(crate) fn word_of(place: &Place, word: u64) -> usize {
    place
        .start
        .saturating_add(usize::try_from(word).unwrap_or(usize::MAX))
}

/// A byte of a region's data.
pub(crate) fn data_byte(words: &[u64], place: &Place, offset: u64) -> u8 {
    match words.get(word_of(place, offset / 8)) {
        Some(word) => byte_of(*word, offset % 8),
        None => 0,
    }
}

/// Replaces a byte of a region's data.
pub(crate) fn set_data_byte(words: &mut [u64], place: &Place, offset: u64, byte: u8) {
    if let Some(word) = words.get_mut(word_of(place, offset / 8)) {
        *word = with_byte(*word, offset % 8, byte);
    }
}

/// The place in the whole list of the mark word of a page: the words of each client come after the data and the registers,
/// those for VGA first, then for code, then for migration.
pub(crate) fn mark_word(place: &Place, client: Client, page: u64) -> usize {
    let pages = place.bytes / 4096;
    let each = pages.div_ceil(64);
    let before = match client {
        Client::Vga => 0,
        Client::Code => each,
        Client::Migration => each.saturating_mul(2),
    };
    let own = place.bytes / 8;
    let word = own
        .saturating_add(u64::from(place.regs))
        .saturating_add(before)
        .saturating_add(page / 64);
    word_of(place, word)
}

/// The bit of a page in its mark word.
pub(crate) fn mark_bit(page: u64) -> u64 {
    1 << (page % 64)
}
