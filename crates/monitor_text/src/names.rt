// The names that a script gives to what the monitor calls by a name of any bytes.
ghost use Rattle.std.specs.Prelude.{◌≡◌, IfOk};
ghost use Rattle.std.specs.List.{list_all, list_any};
ghost use Rattle.mem_base.specs.script.Spelling.{is_letter, may_follow};
ghost use Rattle.monitor_text.specs.Names.{cleaned, ended_so, fit_byte, is_digit, is_ending, is_named_after, needs_letter, numbered, up_to};

use script_lines::Line;
use std::alloc::{AllocError, Global};

fn is_letter(byte: u8) -> bool
    ensures { result ≡ is_letter byte }
{
    (byte >= b'a' && byte <= b'z') || (byte >= b'A' && byte <= b'Z')
}

fn may_follow(byte: u8) -> bool
    ensures { result ≡ may_follow byte }
{
    is_letter(byte)
        || (byte >= b'0' && byte <= b'9')
        || byte == b'_'
        || byte == b'-'
        || byte == b'.'
}

fn fit_byte(byte: u8) -> u8
    ensures { result ≡ fit_byte byte }
{
    if may_follow(byte) { byte } else { b'_' }
}

// Whether an `r` goes before the bytes.
fn needs_letter(text: &[u8]) -> bool
    ensures { result ≡ needs_letter text.now }
{
    match text {
        [first, ..] => !is_letter(*first),
        [] => true,
    }
}

/// The name that a script gives to what the monitor calls so: `_` for each byte that may not stand in a name, an `r` before what begins
/// with no letter, and at most 32 bytes.
pub fn cleaned(alloc: Global, told: &[u8]) -> Result<Vec<u8>, AllocError>
    ensures { IfOk result (λ name. name.items ≡ cleaned told.now) }
{
    let mut name = told
        .iter()
        .map(|byte| fit_byte(*byte))
        .collect::<Vec<u8>>(alloc)?;
    if needs_letter(&name) {
        name.insert(0, b'r')?;
    }
    name.truncate(32);
    Ok(name)
}

// At most this number of bytes of a text.
fn up_to(count: usize, text: &[u8]) -> &[u8]
    ensures { result.now ≡ up_to count text.now }
{
    if count < text.len() {
        text.split_at(count).0
    } else {
        text
    }
}

/// The name followed by a point and a number, of at most 32 bytes.
pub fn numbered(alloc: Global, name: &[u8], number: u32) -> Result<Vec<u8>, AllocError>
    ensures { IfOk result (λ v. v.items ≡ numbered name.now number) }
{
    let mut end = Line::new(alloc);
    end.counted(".", u64::from(number))?;
    let room = 32usize.saturating_sub(end.as_bytes().len());
    let mut numbered = up_to(room, name).to_vec(alloc)?;
    numbered.extend_from_slice(end.as_bytes())?;
    Ok(numbered)
}

fn is_digit(byte: u8) -> bool
    ensures { result ≡ is_digit byte }
{
    byte >= b'0' && byte <= b'9'
}

fn all_digits(text: &[u8]) -> bool
    ensures { result ≡ list_all is_digit text.now }
{
    text.iter().all(|byte| is_digit(*byte))
}

// Whether the text is a point and digits.
fn is_ending(text: &[u8]) -> bool
    ensures { result ≡ is_ending text.now }
{
    match text {
        [first, rest @ ..] => *first == b'.' && all_digits(rest),
        [] => false,
    }
}

// Whether this number of bytes at the end of a name are a point and a number, and the others what they leave of a plain name.
fn ended_so(name: &[u8], plain: &[u8], count: usize) -> bool
    ensures { result ≡ ended_so name.now plain.now count }
{
    if count > name.len() {
        return false;
    }
    let (front, end) = name.split_at(name.len() - count);
    is_ending(end) && front == up_to(32usize.saturating_sub(count), plain)
}

// Whether it is so for one of these counts.
fn ended_in(name: &[u8], plain: &[u8], counts: &[usize]) -> bool
    ensures { result ≡ list_any (ended_so name.now plain.now) counts.now }
{
    counts.iter().any(|count| ended_so(name, plain, *count))
}

/// Whether a name is one that a script gives to what the monitor calls so, followed by a point and a number of at most ten digits
/// or not.
pub fn is_named_after(alloc: Global, name: &[u8], told: &[u8]) -> Result<bool, AllocError>
    ensures { IfOk result (λ named. named ≡ is_named_after name.now told.now) }
{
    let plain = cleaned(alloc, told)?;
    if name == plain.as_slice() {
        return Ok(true);
    }
    Ok(ended_in(name, &plain, &[2, 3, 4, 5, 6, 7, 8, 9, 10, 11]))
}
