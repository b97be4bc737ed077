// The parts of a line of a region or a range.
ghost use Rattle.std.specs.Prelude.{◌≡◌, ◌≤◌, ◌^◌, ◌-◌, None, Some, MatchOption, pos, neg_ℤ};
ghost use Rattle.monitor_text.specs.Parts.{head, kind_of, kind_word, priority_of, span, without_end};

use crate::cursor::Cursor;
use crate::rows::RowKind;
use script_text::digits;

/// What a line says before a region's name.
#[derive(Clone, Copy, Debug, PartialEq, Eq)]
pub(crate) struct RowHead {
    pub(crate) start: u64,
    pub(crate) last: u64,
    pub(crate) priority: i32,
    pub(crate) nonvolatile: bool,
    pub(crate) kind: RowKind,
}

/// `FIRST-LAST`.
pub(crate) fn span(cursor: &mut Cursor<'_>) -> Option<(u64, u64)>
    ensures { MatchOption result (span cursor.old ≡ None) (λ p. span cursor.old ≡ Some (p, cursor.new)) }
{
    let first = cursor.address()?;
    cursor.word(b"-")?;
    let last = cursor.address()?;
    Some((first, last))
}

// The word of a kind.
fn kind_word(text: &[u8]) -> Option<RowKind>
    ensures { result ≡ kind_word text.now }
{
    if text == b"i/o".as_slice() {
        Some(RowKind::Io)
    } else if text == b"ram".as_slice() {
        Some(RowKind::Ram)
    } else if text == b"rom".as_slice() {
        Some(RowKind::Rom)
    } else if text == b"romd".as_slice() {
        Some(RowKind::RomDevice)
    } else if text == b"ramd".as_slice() {
        Some(RowKind::RamDevice)
    } else {
        None
    }
}

// The same, with `nv-` before it where the region is not volatile.
fn kind_of(text: &[u8]) -> Option<(bool, RowKind)>
    ensures { result ≡ kind_of text.now }
{
    match text {
        [b'n', b'v', b'-', rest @ ..] => Some((true, kind_word(rest)?)),
        _ => Some((false, kind_word(text)?)),
    }
}

fn negative(number: u128) -> i32
    requires { number ≤ 2 ^ 31 }
    ensures { result ≡ neg_ℤ (pos number) }
{
    (-(number as i64)) as i32
}

fn positive(number: u128) -> i32
    requires { number ≤ 2 ^ 31 - 1 }
    ensures { result ≡ pos number }
{
    number as i32
}

// A priority: decimal digits, `-` before them or not.
fn priority_of(text: &[u8]) -> Option<i32>
    ensures { result ≡ priority_of text.now }
{
    match text {
        [b'-', rest @ ..] => digits(10, 1 << 31, rest).map(negative),
        _ => digits(10, (1 << 31) - 1, text).map(positive),
    }
}

/// `START-LAST (prio N, KIND): `.
pub(crate) fn head(cursor: &mut Cursor<'_>) -> Option<RowHead>
    ensures { MatchOption result (head cursor.old ≡ None) (λ h. head cursor.old ≡ Some (h, cursor.new)) }
{
    let (start, last) = span(cursor)?;
    cursor.word(b" (prio ")?;
    let number = cursor.until(b',')?;
    let priority = priority_of(number)?;
    cursor.word(b" ")?;
    let word = cursor.until(b')')?;
    let (nonvolatile, kind) = kind_of(word)?;
    cursor.word(b": ")?;
    Some(RowHead {
        start,
        last,
        priority,
        nonvolatile,
        kind,
    })
}

/// The text without this word at its end, and whether it stood there.
pub(crate) fn without_end<'a>(word: &[u8], text: &'a [u8]) -> (&'a [u8], bool)
    ensures { (result.0.now, result.1) ≡ without_end word.now text.now }
{
    if word.len() > text.len() {
        return (text, false);
    }
    let (front, back) = text.split_at(text.len() - word.len());
    if back == word {
        (front, true)
    } else {
        (text, false)
    }
}
