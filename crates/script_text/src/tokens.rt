// The tokens of a line, each operand taken from the front.
ghost use Rattle.std.specs.Prelude.{◌≡◌, ◌<◌, List, ℕ, [], ◌∷◌, Ok, Err, IfOk, IfSome, MatchResult, MatchOption, IsTrue, nat_lt, length};
ghost use Rattle.std.specs.Prelude.{position, if◌then◌else◌, codes};
ghost use Rattle.mem_base.specs.script.Lines.{is_gap, tokens_of};
ghost use Rattle.mem_base.specs.script.Operands.{address, bytes, client, decimal_number, flag, keyword, last_data, last_priority, len};
ghost use Rattle.mem_base.specs.script.Operands.{memory_size, name, notifier, perm, range, size, switch, optional};
ghost use Rattle.mem_base.specs.script.RegionForms.{device_kind};
ghost use Rattle.mem_base.specs.declared.script.faults.Cause.TheVariants.{Count, Word};
ghost use Rattle.script_text.specs.Reads.{Stops};

use crate::spellings::{
    bytes_of, digits, is_name, length_of, machine_size, number_of, priority_of, range_of,
};
use crate::stops::LineStop;
use crate::words::{client_of, device_kind_of, perm_of, switch_of};
use mem_base::{Bytes, Cause, Client, DeviceKind, NOTIFIER_COUNT, Name, NotifierId, Perm, Size};
use std::alloc::{AllocError, Global};
use std::marker::Model;

/// The name that a token is.
pub fn new_name(alloc: Global, token: &[u8]) -> Result<Name, AllocError>
    ensures { IfOk result (λ n. n ≡ token.now) }
{
    Ok(Name::new(token.to_vec(alloc)?))
}

// Where the first space or tab stands.
fn gap_of(text: &[u8]) -> Option<usize>
    ensures value { result ≡ position is_gap text.now }
    ensures bound { IfSome result (λ i. i < length text.now) }
{
    text.iter().position(|byte| *byte == b' ' || *byte == b'\t')
}

/// The first token of a text, and what stands after it.
pub fn first_token(text: &[u8]) -> Option<(&[u8], &[u8])>
    ensures { MatchOption result (tokens_of text.now ≡ []) (λ p. tokens_of text.now ≡ p.0.now ∷ tokens_of p.1.now) }
{
    let mut left = text;
    while let Some(end) = gap_of(left) {
        let (token, after) = left.split_at(end);
        let rest = after.split_at(1).1;
        if end > 0 {
            return Some((token, rest));
        }
        left = rest;
    }
    if left.is_empty() {
        None
    } else {
        Some(left.split_at(left.len()))
    }
}

/// The tokens of a line that are left to read.
#[derive(Drop)]
pub struct Tokens<'a> {
    rest: &'a [u8],
}

impl<'a> Model for Tokens<'a> {
    ghost Value = { List (List ℕ) };

    ghost view = { λ t. tokens_of t.rest.now };
}

impl<'a> Tokens<'a> {
    /// The tokens of a text.
    pub fn new(rest: &'a [u8]) -> Self
        ensures { result ≡ tokens_of rest.now }
    {
        Tokens { rest }
    }

    /// The next token, which is then passed over.
    pub fn next(&mut self) -> Option<&'a [u8]>
        ensures { MatchOption result ((self.old ≡ []) × (self.new ≡ [])) (λ t. self.old ≡ t.now ∷ self.new) }
    {
        match first_token(self.rest) {
            Some((token, rest)) => {
                self.rest = rest;
                Some(token)
            }
            None => None,
        }
    }

    /// A token, whatever it is.
    pub fn token(&mut self) -> Result<&'a [u8], Cause>
        ensures { MatchResult result (λ t. self.old ≡ t.now ∷ self.new) (λ e. (e ≡ Count) × (self.old ≡ [])) }
    {
        self.next().ok_or(Cause::Count)
    }

    pub fn name(&mut self) -> Result<&'a [u8], Cause>
        ensures { MatchResult result (λ n. name self.old ≡ Ok (n.now, self.new)) (λ e. name self.old ≡ Err e) }
    {
        let token = self.token()?;
        if is_name(token) {
            Ok(token)
        } else {
            Err(Cause::Name)
        }
    }

    /// An offset or an address.
    pub fn address(&mut self) -> Result<u64, Cause>
        ensures { MatchResult result (λ n. address self.old ≡ Ok (n, self.new)) (λ e. address self.old ≡ Err e) }
    {
        let token = self.token()?;
        match number_of((1 << 64) - 1, token) {
            Some(number) => Ok(number as u64),
            None => Err(Cause::Number),
        }
    }

    pub fn size(&mut self) -> Result<Size, Cause>
        ensures { MatchResult result (λ n. size self.old ≡ Ok (n, self.new)) (λ e. size self.old ≡ Err e) }
    {
        let token = self.token()?;
        match number_of(1 << 64, token) {
            Some(number) => Size::new(number).ok_or(Cause::Number),
            None => Err(Cause::Number),
        }
    }

    /// The size of a machine.
    pub fn memory_size(&mut self) -> Result<Size, Cause>
        ensures { MatchResult result (λ n. memory_size self.old ≡ Ok (n, self.new)) (λ e. memory_size self.old ≡ Err e) }
    {
        let token = self.token()?;
        match machine_size(token) {
            Some(number) => Size::new(number).ok_or(Cause::Number),
            None => Err(Cause::Number),
        }
    }

    /// A length of bytes, 1 to 64.
    pub fn len(&mut self) -> Result<u8, Cause>
        ensures { MatchResult result (λ n. len self.old ≡ Ok (n, self.new)) (λ e. len self.old ≡ Err e) }
    {
        let token = self.token()?;
        length_of(token).ok_or(Cause::Number)
    }

    /// A notifier, by its number from 0 to 63.
    pub fn notifier(&mut self) -> Result<NotifierId, Cause>
        ensures { MatchResult result (λ n. notifier self.old ≡ Ok (n, self.new)) (λ e. notifier self.old ≡ Err e) }
    {
        let token = self.token()?;
        match number_of(NOTIFIER_COUNT as u128 - 1, token) {
            Some(number) => NotifierId::new(number as u32).ok_or(Cause::Number),
            None => Err(Cause::Number),
        }
    }

    /// Decimal digits below 256.
    pub fn decimal_byte(&mut self) -> Result<u8, Cause>
        ensures { MatchResult result (λ n. decimal_number 255 self.old ≡ Ok (n, self.new)) (λ e. decimal_number 255 self.old ≡ Err e) }
    {
        let token = self.token()?;
        match digits(10, 255, token) {
            Some(number) => Ok(number as u8),
            None => Err(Cause::Number),
        }
    }

    /// Decimal digits below 65,536.
    pub fn regs(&mut self) -> Result<u32, Cause>
        ensures { MatchResult result (λ n. decimal_number 65535 self.old ≡ Ok (n, self.new)) (λ e. decimal_number 65535 self.old ≡ Err e) }
    {
        let token = self.token()?;
        match digits(10, 65535, token) {
            Some(number) => Ok(number as u32),
            None => Err(Cause::Number),
        }
    }

    pub fn range(&mut self) -> Result<(u8, u8), Cause>
        ensures { MatchResult result (λ n. range self.old ≡ Ok (n, self.new)) (λ e. range self.old ≡ Err e) }
    {
        let token = self.token()?;
        range_of(token).ok_or(Cause::Number)
    }

    pub fn bytes(&mut self, alloc: Global) -> Result<Bytes, LineStop>
        ensures { MatchResult result (λ b. bytes self.old ≡ Ok (b, self.new)) (λ stop. Stops stop (bytes self.old)) }
    {
        let token = self.token()?;
        match bytes_of(alloc, token)? {
            Some(bytes) => Ok(Bytes::new(bytes)),
            None => Err(LineStop::Bad(Cause::Number)),
        }
    }

    pub fn switch(&mut self) -> Result<bool, Cause>
        ensures { MatchResult result (λ on. switch self.old ≡ Ok (on, self.new)) (λ e. switch self.old ≡ Err e) }
    {
        let token = self.token()?;
        switch_of(token).ok_or(Cause::Word)
    }

    pub fn client(&mut self) -> Result<Client, Cause>
        ensures { MatchResult result (λ c. client self.old ≡ Ok (c, self.new)) (λ e. client self.old ≡ Err e) }
    {
        let token = self.token()?;
        client_of(token).ok_or(Cause::Word)
    }

    pub fn perm(&mut self) -> Result<Perm, Cause>
        ensures { MatchResult result (λ p. perm self.old ≡ Ok (p, self.new)) (λ e. perm self.old ≡ Err e) }
    {
        let token = self.token()?;
        perm_of(token).ok_or(Cause::Word)
    }

    pub fn device_kind(&mut self) -> Result<DeviceKind, Cause>
        ensures { MatchResult result (λ k. device_kind self.old ≡ Ok (k, self.new)) (λ e. device_kind self.old ≡ Err e) }
    {
        let token = self.token()?;
        device_kind_of(token).ok_or(Cause::Word)
    }

    /// This word stands next.
    pub fn keyword(&mut self, wanted: &str) -> Result<(), Cause>
        ensures { MatchResult result (λ _. keyword wanted.now self.old ≡ Ok (tt, self.new)) (λ e. keyword wanted.now self.old ≡ Err e) }
    {
        let token = self.token()?;
        if token == wanted.as_bytes() {
            Ok(())
        } else {
            Err(Cause::Word)
        }
    }

    /// Whether the keyword stands next, which is then passed over.
    pub fn flag(&mut self, keyword: &str) -> bool
        ensures { flag keyword.now self.old ≡ Ok (result, self.new) }
    {
        match first_token(self.rest) {
            Some((first, rest)) if first == keyword.as_bytes() => {
                self.rest = rest;
                true
            }
            _ => false,
        }
    }

    /// `regs REGS`, or nothing and the default.
    pub fn optional_regs(&mut self) -> Result<u32, Cause>
        ensures { MatchResult result (λ n. optional (codes "regs") (decimal_number 65535) 1 self.old ≡ Ok (n, self.new))
            (λ e. optional (codes "regs") (decimal_number 65535) 1 self.old ≡ Err e) }
    {
        match first_token(self.rest) {
            Some((first, rest)) if first == b"regs".as_slice() => {
                self.rest = rest;
                let regs = self.regs()?;
                Ok(regs)
            }
            _ => Ok(1),
        }
    }

    /// A keyword and A-B, or nothing and the default.
    pub fn optional_range(&mut self, keyword: &str) -> Result<(u8, u8), Cause>
        ensures { MatchResult result (λ r. optional keyword.now range (1, 4) self.old ≡ Ok (r, self.new))
            (λ e. optional keyword.now range (1, 4) self.old ≡ Err e) }
    {
        match first_token(self.rest) {
            Some((first, rest)) if first == keyword.as_bytes() => {
                self.rest = rest;
                let range = self.range()?;
                Ok(range)
            }
            _ => Ok((1, 4)),
        }
    }

    /// No token stands after the last operand.
    pub fn ends(&mut self) -> Result<(), Cause>
        ensures { MatchResult result (λ _. self.old ≡ []) (λ e. (e ≡ Count) × IsTrue (nat_lt 0 (length self.old))) }
    {
        match self.next() {
            None => Ok(()),
            Some(_) => Err(Cause::Count),
        }
    }

    /// No token stands after the last option, which was given or not.
    pub fn ends_after_options(&mut self, given: bool) -> Result<(), Cause>
        ensures { MatchResult result (λ _. self.old ≡ []) (λ e. (e ≡ (if given then Count else Word)) × IsTrue (nat_lt 0 (length self.old))) }
    {
        match self.next() {
            None => Ok(()),
            Some(_) => Err(if given { Cause::Count } else { Cause::Word }),
        }
    }

    /// `prio N` or nothing.
    pub fn last_priority(&mut self) -> Result<i32, Cause>
        ensures { MatchResult result (λ n. last_priority self.old ≡ Ok (n, self.new)) (λ e. last_priority self.old ≡ Err e) }
    {
        match self.next() {
            None => Ok(0),
            Some(word) if word == b"prio".as_slice() => {
                let token = self.token()?;
                priority_of(token).ok_or(Cause::Number)
            }
            Some(_) => Err(Cause::Word),
        }
    }

    /// `data VALUE` or nothing.
    pub fn last_data(&mut self) -> Result<Option<u64>, Cause>
        ensures { MatchResult result (λ o. last_data self.old ≡ Ok (o, self.new)) (λ e. last_data self.old ≡ Err e) }
    {
        match self.next() {
            None => Ok(None),
            Some(word) if word == b"data".as_slice() => Ok(Some(self.address()?)),
            Some(_) => Err(Cause::Word),
        }
    }
}
