// How names, numbers and bytes are spelled: one function for one definition.
ghost use Rattle.std.specs.Prelude.{◌≡◌, ◌≤◌, ◌<◌, ◌-◌, ◌^◌, ◌==◌, IfSome, IfOk, MatchOption, option_map, position, length, ◌∷◌, pos, neg_ℤ};
ghost use Rattle.std.specs.List.{list_all};
ghost use Rattle.mem_base.specs.script.Spelling.{byte_of, bytes_of, digit_of, digits, is_letter, is_name, leads_with_no_zero, length_of};
ghost use Rattle.mem_base.specs.script.Spelling.{machine_size, may_follow, number_of, pair_of, pass_of, plain_number, priority_of};
ghost use Rattle.mem_base.specs.script.Spelling.{range_of, scale_of};

use mem_base::{MOST_BYTES, MOST_PASSES, PAGE_SIZE, PassId};
use std::alloc::{AllocError, Global};

fn is_letter(byte: u8) -> bool
    ensures { result ≡ is_letter byte }
{
    (byte >= b'a' && byte <= b'z') || (byte >= b'A' && byte <= b'Z')
}

fn may_follow(byte: u8) -> bool
    ensures { result ≡ may_follow byte }
{
    is_letter(byte)
        || (byte >= b'0' && byte <= b'9')
        || byte == b'_'
        || byte == b'-'
        || byte == b'.'
}

fn all_may_follow(text: &[u8]) -> bool
    ensures { result ≡ list_all may_follow text.now }
{
    text.iter().all(|byte| may_follow(*byte))
}

/// Whether the text is a name: 1 to 32 letters, digits, `_`, `-` and `.`, the first a letter.
pub fn is_name(text: &[u8]) -> bool
    ensures { result ≡ is_name text.now }
{
    match text {
        [first, ..] => is_letter(*first) && text.len() <= 32 && all_may_follow(text),
        [] => false,
    }
}

// The value of a digit; letters in base 16 alone.
fn digit_of(radix: u128, byte: u8) -> Option<u128>
    ensures value { result ≡ digit_of radix byte }
    ensures bound { IfSome result (λ d. d ≤ 15) }
{
    match byte {
        b'0'..=b'9' => Some(u128::from(byte - b'0')),
        b'a'..=b'f' if radix == 16 => Some(u128::from(byte - b'a' + 10)),
        b'A'..=b'F' if radix == 16 => Some(u128::from(byte - b'A' + 10)),
        _ => None,
    }
}

/// One digit or more, with a value of at most the limit.
pub fn digits(radix: u128, limit: u128, text: &[u8]) -> Option<u128>
    requires limit { limit ≤ 2 ^ 64 }
    requires radix { radix ≤ 16 }
    ensures value { result ≡ digits radix limit text.now }
    ensures bound { IfSome result (λ n. n ≤ limit) }
{
    if text.is_empty() {
        return None;
    }
    let mut number = 0;
    for byte in text {
        let digit = digit_of(radix, *byte)?;
        number = number * radix + digit;
        if number > limit {
            return None;
        }
    }
    Some(number)
}

fn plain_number(limit: u128, text: &[u8]) -> Option<u128>
    requires { limit ≤ 2 ^ 64 }
    ensures value { result ≡ plain_number limit text.now }
    ensures bound { IfSome result (λ n. n ≤ limit) }
{
    match text {
        [b'0', b'x', rest @ ..] => digits(16, limit, rest),
        _ => digits(10, limit, text),
    }
}

// What a last byte `K`, `M` or `G` multiplies by.
fn scale_of(last: Option<u8>) -> u128
    ensures value { result ≡ scale_of last }
    ensures bound { result ≤ 2 ^ 30 }
{
    match last {
        Some(b'K') => 1 << 10,
        Some(b'M') => 1 << 20,
        Some(b'G') => 1 << 30,
        _ => 1,
    }
}

/// A number of at most the limit: digits, and at most one of `K`, `M` and `G`.
pub fn number_of(limit: u128, text: &[u8]) -> Option<u128>
    requires { limit ≤ 2 ^ 64 }
    ensures value { result ≡ number_of limit text.now }
    ensures bound { IfSome result (λ n. n ≤ limit) }
{
    let scale = scale_of(text.last().copied());
    if scale == 1 {
        return plain_number(limit, text);
    }
    let number = plain_number(limit, &text[..text.len() - 1])? * scale;
    if number > limit { None } else { Some(number) }
}

/// A length of 1 to 64.
pub fn length_of(text: &[u8]) -> Option<u8>
    ensures { result ≡ length_of text.now }
{
    match number_of(64, text) {
        Some(0) | None => None,
        Some(number) => Some(number as u8),
    }
}

/// The size of a machine's memory: whole pages of 4,096 bytes, from one page to 512 MiB.
pub fn machine_size(text: &[u8]) -> Option<u128>
    ensures value { result ≡ machine_size text.now }
    ensures bound { IfSome result (λ n. n ≤ 2 ^ 64) }
{
    let page = u128::from(PAGE_SIZE);
    match number_of(u128::from(MOST_BYTES), text) {
        Some(number) if number % page == 0 && number >= page => Some(number),
        _ => None,
    }
}

fn negative(number: u128) -> i32
    requires { number ≤ 2 ^ 31 }
    ensures { result ≡ neg_ℤ (pos number) }
{
    (-(number as i64)) as i32
}

fn positive(number: u128) -> i32
    requires { number ≤ 2 ^ 31 - 1 }
    ensures { result ≡ pos number }
{
    number as i32
}

/// A priority: decimal digits, `-` before them or not.
pub fn priority_of(text: &[u8]) -> Option<i32>
    ensures { result ≡ priority_of text.now }
{
    match text {
        [b'-', rest @ ..] => Some(negative(digits(10, 1 << 31, rest)?)),
        _ => Some(positive(digits(10, (1 << 31) - 1, text)?)),
    }
}

fn byte_number(text: &[u8]) -> Option<u8>
    ensures { result ≡ digits 10 255 text.now }
{
    match digits(10, 255, text) {
        Some(number) => Some(number as u8),
        None => None,
    }
}

fn pair_of(low: Option<u8>, high: Option<u8>) -> Option<(u8, u8)>
    ensures { result ≡ pair_of low high }
{
    match (low, high) {
        (Some(low), Some(high)) => Some((low, high)),
        _ => None,
    }
}

fn dash_of(text: &[u8]) -> Option<usize>
    ensures value { result ≡ position (λ b. b == 45) text.now }
    ensures bound { IfSome result (λ i. i < length text.now) }
{
    text.iter().position(|byte| *byte == b'-')
}

/// Two numbers below 256 in decimal, as `A-B`.
pub fn range_of(text: &[u8]) -> Option<(u8, u8)>
    ensures { result ≡ range_of text.now }
{
    match dash_of(text) {
        None => None,
        Some(dash) => pair_of(
            byte_number(text.split_at(dash).0),
            byte_number(text.split_at(dash + 1).1),
        ),
    }
}

fn leads_with_no_zero(text: &[u8]) -> bool
    ensures { result ≡ leads_with_no_zero text.now }
{
    match text {
        [b'0', ..] => text.len() == 1,
        _ => true,
    }
}

/// A pass: `v` and its number from 0 to 15, in decimal, without leading zeros.
pub fn pass_of(text: &[u8]) -> Option<PassId>
    ensures { option_map (λ pass. pass.0) result ≡ pass_of text.now }
{
    let last = u128::from(MOST_PASSES) - 1;
    match text {
        [b'v', rest @ ..] if leads_with_no_zero(rest) => match digits(10, last, rest) {
            Some(number) => PassId::new(number as u32),
            None => None,
        },
        _ => None,
    }
}

fn byte_of(high: u8, low: u8) -> Option<u8>
    ensures { result ≡ byte_of high low }
{
    let high = digit_of(16, high)?;
    let low = digit_of(16, low)?;
    Some((high * 16 + low) as u8)
}

fn split_two(text: &[u8]) -> Option<(u8, u8, &[u8])>
    ensures { MatchOption result (length text.now ≤ 1) (λ p. text.now ≡ p.0 ∷ p.1 ∷ p.2.now) }
{
    match text {
        [first, second, rest @ ..] => Some((*first, *second, rest)),
        _ => None,
    }
}

/// 1 to 64 bytes, two hexadecimal digits each.
#[tactic(auto, using(crate::proofs::Bytes::next_pair, crate::proofs::Bytes::one_left, crate::proofs::Bytes::none_left, crate::proofs::Bytes::bad_pair))]
pub fn bytes_of(alloc: Global, text: &[u8]) -> Result<Option<Vec<u8>>, AllocError>
    ensures { IfOk result (λ o. option_map (λ v. v.items) o ≡ bytes_of text.now) }
{
    if text.is_empty() || text.len() > 128 {
        return Ok(None);
    }
    let mut bytes = Vec::new(alloc);
    let mut left = text;
    while let Some((high, low, rest)) = split_two(left) {
        match byte_of(high, low) {
            Some(byte) => bytes.push(byte)?,
            None => return Ok(None),
        }
        left = rest;
    }
    if left.is_empty() {
        Ok(Some(bytes))
    } else {
        Ok(None)
    }
}
