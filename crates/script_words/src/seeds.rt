// The seed of a generator.
ghost use Rattle.std.specs.Prelude.{◌≡◌, ◌^◌, ◌-◌};
ghost use Rattle.mem_base.specs.script.Spelling.{digit_of, digits};
ghost use Rattle.mem_base.specs.script.Words.{seed_of};

fn digit_of(byte: u8) -> Option<u128>
    ensures { result ≡ digit_of 10 byte }
{
    if byte >= b'0' && byte <= b'9' {
        Some((byte - b'0') as u128)
    } else {
        None
    }
}

fn digits(text: &[u8]) -> Option<u64>
    ensures { result ≡ digits 10 (2 ^ 64 - 1) text.now }
{
    if text.is_empty() {
        return None;
    }
    let limit = u64::MAX as u128;
    let mut number = 0u128;
    for byte in text {
        let digit = digit_of(*byte)?;
        number = number * 10 + digit;
        if number > limit {
            return None;
        }
    }
    Some(number as u64)
}

/// A seed: 1 to 20 decimal digits with a value below 2^64.
pub fn seed_of(text: &[u8]) -> Option<u64>
    ensures { result ≡ seed_of text.now }
{
    if text.len() <= 20 { digits(text) } else { None }
}
