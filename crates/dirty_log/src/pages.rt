// Mark words: the bit of a page, and the pages of the bits that are set.
ghost use Rattle.std.specs.Prelude.{◌≡◌, ◌+◌, ◌-◌, ◌^◌, ◌<◌, ◌≤◌, ◌++◌, false, length, vec_len, vec_capacity};
ghost use Rattle.mem_base.specs.map.Limits.{pages_per_word};
ghost use Rattle.mem_base.specs.access.Marks.{pages_of};
ghost use Rattle.mem_base.specs.access.Places.{extent, words_of, pages_in, is_data_or_register, number_of_client, word_of_page, bit_of_page};
ghost use Rattle.dirty_log.specs.Apart.{MarksAreApart};

use mem_base::{Client, PAGE_SIZE, PAGES_PER_WORD, Place, WORD_SIZE};

// The number of a client: its marks stand after those of the clients before it.
fn number_of(client: Client) -> u64
    ensures value { result ≡ number_of_client client }
    ensures bound { result ≤ 2 }
{
    match client {
        Client::Vga => 0,
        Client::Code => 1,
        Client::Migration => 2,
    }
}

/// The mark word of a page for a client, as its number among the words of the region, and the page's bit in it.
///
/// The marks of the three clients stand one after another, after the data and the registers; a word has the bits of 64
/// pages. This project's own rule. It takes no memory.
pub fn mark_of(place: &Place, client: Client, page: u64) -> (usize, u64)
    requires page { page < pages_in place.now }
    ensures word { result.0 ≡ word_of_page place.now client page }
    ensures bit { result.1 ≡ bit_of_page page }
    ensures apart { is_data_or_register place.now result.0 ≡ false }
    ensures within { place.now.words ≡ words_of (extent place.now.bytes place.now.regs) → result.0 < place.now.words }
{
    let before = place.bytes / WORD_SIZE + u64::from(place.regs);
    let words = (place.bytes / PAGE_SIZE + (PAGES_PER_WORD - 1)) / PAGES_PER_WORD;
    let word = before + words * number_of(client) + page / PAGES_PER_WORD;
    (word as usize, 1 << (page % PAGES_PER_WORD))
}

/// No two marks of a place, each of a page of it for a client, share a bit of a word.
pub fn marks_are_apart()
    ensures { MarksAreApart }
{}

/// Appends the pages that a mark word tells, ascending: bit 0 stands for the page `base`.
///
/// It takes no memory: the caller has made room for 64 pages.
pub fn pages_of(out: &mut Vec<u64>, base: u64, bits: u64)
    requires room { vec_len out.old + pages_per_word ≤ vec_capacity out.old }
    requires fits { base + (pages_per_word - 1) < 2 ^ 64 }
    ensures pages { out.new.items ≡ out.old.items ++ pages_of base bits }
    ensures room { vec_capacity out.old - vec_len out.old
        ≤ vec_capacity out.new - vec_len out.new + length (pages_of base bits) }
{
    let mut rest = bits;
    for bit in 0..PAGES_PER_WORD {
        if rest == 0 {
            return;
        }
        if rest % 2 == 1 {
            let _ = out.push(base + bit);
        }
        rest /= 2;
    }
}
