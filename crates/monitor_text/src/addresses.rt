// Addresses as people type them who read the monitor's texts.
ghost use Rattle.std.specs.Prelude.{◌≡◌, ◌≤◌, ◌^◌, ◌-◌};
ghost use Rattle.monitor_text.specs.Addresses.{address_in, hex_address, plain_amount, scale_of, scaled_address};

use script_text::digits;

const MOST: u128 = (1 << 64) - 1;

// What a last byte `K`, `M` or `G` multiplies by, in either case.
fn scale_of(last: Option<u8>) -> u128
    ensures value { result ≡ scale_of last }
    ensures bound { result ≤ 2 ^ 30 }
{
    match last {
        Some(b'K' | b'k') => 1 << 10,
        Some(b'M' | b'm') => 1 << 20,
        Some(b'G' | b'g') => 1 << 30,
        _ => 1,
    }
}

// Hexadecimal digits, with `0x` before them or not.
fn hex_address(text: &[u8]) -> Option<u64>
    ensures { result ≡ hex_address text.now }
{
    let number = match text {
        [b'0', b'x' | b'X', rest @ ..] => digits(16, MOST, rest)?,
        _ => digits(16, MOST, text)?,
    };
    Some(number as u64)
}

// Decimal digits, or hexadecimal ones after `0x`.
fn plain_amount(text: &[u8]) -> Option<u64>
    ensures { result ≡ plain_amount text.now }
{
    let number = match text {
        [b'0', b'x' | b'X', rest @ ..] => digits(16, MOST, rest)?,
        _ => digits(10, MOST, text)?,
    };
    Some(number as u64)
}

// An amount that is scaled.
fn scaled_address(scale: u128, text: &[u8]) -> Option<u64>
    requires { scale ≤ 2 ^ 30 }
    ensures { result ≡ scaled_address scale text.now }
{
    let number = u128::from(plain_amount(text)?) * scale;
    if number > MOST {
        None
    } else {
        Some(number as u64)
    }
}

/// The address that a word is: hexadecimal digits, as QEMU prints an address, with `0x` before them or not; or an amount with `K`, `M` or `G`
/// after it, which is decimal, or hexadecimal with `0x` before it.
pub fn address_in(word: &[u8]) -> Option<u64>
    ensures { result ≡ address_in word.now }
{
    let scale = scale_of(word.last().copied());
    if scale == 1 {
        return hex_address(word);
    }
    scaled_address(scale, word.split_at(word.len() - 1).0)
}
