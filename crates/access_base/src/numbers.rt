// The bytes of words and numbers.
ghost use Rattle.std.specs.Prelude.{◌≡◌, ◌≤◌, ◌<◌, ◌+◌, ◌-◌, ◌++◌, take, length, replicate};
ghost use Rattle.mem_base.specs.access.Words.{bytes_from, bytes_of, number_of_bytes};

use access_cut::{byte_of, number_of};

/// The `size` bytes of a word from byte `first` on, as a number.
pub fn bytes_from(word: u64, first: u8, size: u8) -> u64
    requires first { first < 8 }
    requires size { size ≤ 8 }
    ensures { result ≡ bytes_from word first size }
{
    let shifted = word >> (8 * u32::from(first));
    if size == 8 {
        shifted
    } else {
        shifted % (1 << (8 * u32::from(size)))
    }
}

/// The number of `size` bytes that these are with zero bytes after them, in the order of addresses.
pub fn padded(bytes: &[u8], size: u8, big: bool) -> u64
    requires some { 0 < length bytes.now }
    requires fits { length bytes.now ≤ size }
    requires size { size ≤ 8 }
    ensures { result ≡ number_of_bytes (bytes.now ++ replicate (size - length bytes.now) 0) big }
{
    let number = number_of(bytes, big);
    if big {
        let missing = u32::from(size) - bytes.len() as u32;
        number << (8 * missing)
    } else {
        number
    }
}

// The same, where the caller tells how many there is room for: where that is a constant, no loop is left.
fn put_count(number: u64, size: u8, big: bool, out: &mut [u8], count: usize)
    requires count { count ≡ length out.old }
    requires fits { length out.old ≤ size }
    requires size { size ≤ 8 }
    ensures { out.new ≡ take (length out.old) (bytes_of number size big) }
{
    for i in 0..count {
        out[i] = byte_of(number, size, big, i as u8);
    }
}

/// Puts the first bytes of a number of `size` bytes, in the order of addresses, as many as there is room for.
pub fn put(number: u64, size: u8, big: bool, out: &mut [u8])
    requires fits { length out.old ≤ size }
    requires size { size ≤ 8 }
    ensures { out.new ≡ take (length out.old) (bytes_of number size big) }
{
    let count = out.len();
    if count == 8 {
        put_count(number, size, big, out, 8);
    } else {
        put_count(number, size, big, out, count);
    }
}
