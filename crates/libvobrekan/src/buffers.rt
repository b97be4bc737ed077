// Bytes, numbers of regions, and marks of pages into a buffer of the caller's.
ghost use Rattle.std.specs.Prelude.{◌≡◌, length, replicate, slice_get};
ghost use Rattle.libvobrekan.specs.Buffers.{put_bytes, put_regions, with_page, with_pages};

use mem_base::{PAGES_PER_WORD, RegionId};

/// Copies as many of the bytes as there is room for.
pub(crate) fn copy_first(bytes: &[u8], out: &mut [u8])
    ensures { out.new ≡ put_bytes bytes.now out.old }
{
    let count = bytes.len().min(out.len());
    out[..count].copy_from_slice(bytes.split_at(count).0);
}

/// Puts the numbers of as many of the regions as there is room for.
pub(crate) fn put_regions(regions: &[RegionId], out: &mut [u32])
    ensures { out.new ≡ put_regions regions.now out.old }
{
    let count = regions.len().min(out.len());
    for i in 0..count {
        out[i] = regions[i].0;
    }
}

// The word at an index, if there is one.
fn word_at(words: &[u64], index: usize) -> Option<u64>
    ensures { result ≡ slice_get words.now index }
{
    words.get(index).copied()
}

// Sets the bit of a page, where its word is one of these.
fn set_page(page: u64, words: &mut [u64])
    ensures { words.new ≡ with_page page words.old }
{
    let index = (page / PAGES_PER_WORD) as usize;
    if let Some(word) = word_at(words, index) {
        words[index] = word | (1 << (page % PAGES_PER_WORD));
    }
}

/// Clears the words, and sets the bit of each of these pages.
pub(crate) fn set_pages(pages: &[u64], words: &mut [u64])
    ensures { words.new ≡ with_pages pages.now (replicate (length words.old) 0) }
{
    words.fill(0);
    for page in pages {
        set_page(*page, words);
    }
}
