// A part of a line after another, each taken from the front.
ghost use Rattle.std.specs.Prelude.{◌≡◌, ◌+◌, ◌<◌, ◌==◌, None, Some, IfSome, MatchOption, length, position};
ghost use Rattle.monitor_text.specs.Parts.{address, after_word, target_at, until, until_target};

use script_text::digits;
use std::marker::Model;

/// The bytes of a line that are left to read.
#[derive(Drop)]
pub(crate) struct Cursor<'a> {
    rest: &'a [u8],
}

impl<'a> Model for Cursor<'a> {
    ghost use Rattle.std.specs.Prelude.{List, ℕ};

    ghost Value = { List ℕ };

    ghost view = { λ c. c.rest.now };
}

impl<'a> Cursor<'a> {
    /// These bytes, from the first on.
    pub(crate) fn new(rest: &'a [u8]) -> Cursor<'a>
        ensures { result ≡ rest.now }
    {
        Cursor { rest }
    }

    /// The bytes that are left.
    pub(crate) fn rest(&self) -> &'a [u8]
        ensures { result.now ≡ self.now }
    {
        self.rest
    }

    /// An address of sixteen hexadecimal digits.
    pub(crate) fn address(&mut self) -> Option<u64>
        ensures { MatchOption result (address self.old ≡ None) (λ n. address self.old ≡ Some (n, self.new)) }
    {
        if self.rest.len() < 16 {
            return None;
        }
        let (front, back) = self.rest.split_at(16);
        let number = digits(16, (1 << 64) - 1, front)?;
        self.rest = back;
        Some(number as u64)
    }

    /// These bytes, and no others.
    pub(crate) fn word(&mut self, word: &[u8]) -> Option<()>
        ensures { MatchOption result (after_word word.now self.old ≡ None) (λ _. after_word word.now self.old ≡ Some self.new) }
    {
        if self.rest.len() < word.len() {
            return None;
        }
        let (front, back) = self.rest.split_at(word.len());
        if front != word {
            return None;
        }
        self.rest = back;
        Some(())
    }

    /// What stands before the first byte of this value, which is passed over too.
    pub(crate) fn until(&mut self, byte: u8) -> Option<&'a [u8]>
        ensures { MatchOption result (until byte self.old ≡ None) (λ t. until byte self.old ≡ Some (t.now, self.new)) }
    {
        let (front, back) = cut_at(byte, self.rest)?;
        self.rest = back;
        Some(front)
    }

    /// What stands before the first ` @`, which is passed over too.
    pub(crate) fn until_target(&mut self) -> Option<&'a [u8]>
        ensures { MatchOption result (until_target self.old ≡ None) (λ t. until_target self.old ≡ Some (t.now, self.new)) }
    {
        let (front, back) = cut_target(self.rest)?;
        self.rest = back;
        Some(front)
    }
}

// What stands before the first ` @`, and after it.
fn cut_target(text: &[u8]) -> Option<(&[u8], &[u8])>
    ensures { MatchOption result (until_target text.now ≡ None) (λ p. until_target text.now ≡ Some (p.0.now, p.1.now)) }
{
    let end = target_at(text)?;
    let (front, back) = text.split_at(end);
    Some((front, back.split_at(2).1))
}

// Where the first ` @` stands.
fn target_at(text: &[u8]) -> Option<usize>
    ensures value { result ≡ target_at text.now }
    ensures bound { IfSome result (λ k. k + 1 < length text.now) }
{
    text.iter()
        .zip(text.iter().skip(1))
        .position(|pair| *pair.0 == b' ' && *pair.1 == b'@')
}

// What stands before the first byte of this value, and after it.
fn cut_at(byte: u8, text: &[u8]) -> Option<(&[u8], &[u8])>
    ensures { MatchOption result (until byte text.now ≡ None) (λ p. until byte text.now ≡ Some (p.0.now, p.1.now)) }
{
    let end = first_at(byte, text)?;
    let (front, back) = text.split_at(end);
    Some((front, back.split_at(1).1))
}

// Where the first byte of this value stands.
fn first_at(byte: u8, text: &[u8]) -> Option<usize>
    ensures value { result ≡ position (λ b. b == byte) text.now }
    ensures bound { IfSome result (λ i. i < length text.now) }
{
    text.iter().position(|other| *other == byte)
}
