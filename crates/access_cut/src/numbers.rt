// Numbers of several bytes, in either byte order.
ghost use Rattle.std.specs.Prelude.{◌≡◌, ◌≤◌, ◌<◌, ◌^◌, ◌/◌, ◌%◌, length, reverse};
ghost use Rattle.mem_base.specs.access.Words.{byte_of, little_endian, number_of_bytes};

// The number whose bytes these are, the lowest first: from the last byte to the first.
fn lowest_first(bytes: &[u8], count: usize) -> u64
    requires count { count ≡ length bytes.now }
    requires few { count ≤ 8 }
    ensures { result ≡ little_endian bytes.now }
{
    let mut number: u64 = 0;
    let mut left = count;
    while left > 0 {
        left -= 1;
        number = 256 * number + u64::from(bytes[left]);
    }
    number
}

// The number whose bytes these are, the highest first.
fn highest_first(bytes: &[u8]) -> u64
    requires { length bytes.now ≤ 8 }
    ensures value { result ≡ little_endian (reverse bytes.now) }
    ensures bound { result < 256 ^ length bytes.now }
{
    match bytes {
        [rest @ .., byte] => u64::from(*byte) + 256 * highest_first(rest),
        [] => 0,
    }
}

/// The number that at most 8 bytes are in the order of addresses: the first is the lowest, or in a big-endian device
/// the highest.
pub fn number_of(bytes: &[u8], big: bool) -> u64
    requires { length bytes.now ≤ 8 }
    ensures { result ≡ number_of_bytes bytes.now big }
{
    if big {
        highest_first(bytes)
    } else if bytes.len() == 8 {
        lowest_first(bytes, 8)
    } else {
        lowest_first(bytes, bytes.len())
    }
}

// The number without its lowest bytes, this many.
#[tactic(auto, using(mem_base::proofs::WordLaws::bytes_power))]
pub(crate) fn without_lowest(number: u64, bytes: u8) -> u64
    requires { bytes < 8 }
    ensures { result ≡ number / (256 ^ bytes) }
{
    number >> (8 * u32::from(bytes))
}

// The lowest bytes of the number, this many.
#[tactic(auto, using(mem_base::proofs::WordLaws::bytes_power))]
pub(crate) fn lowest(number: u64, bytes: u8) -> u64
    requires { bytes ≤ 8 }
    ensures { result ≡ number % (256 ^ bytes) }
{
    if bytes == 8 {
        number
    } else {
        number % (1 << (8 * u32::from(bytes)))
    }
}

/// The byte at an index, in the order of addresses, of a number of `size` bytes.
pub fn byte_of(number: u64, size: u8, big: bool, index: u8) -> u8
    requires size { size ≤ 8 }
    requires index { index < size }
    ensures { result ≡ byte_of number size big index }
{
    let lower = if big { size - 1 - index } else { index };
    (without_lowest(number, lower) % 256) as u8
}
