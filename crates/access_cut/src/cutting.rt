// An access cut into pieces.
ghost use Rattle.std.specs.Prelude.{◌≡◌, ◌≤◌, ◌+◌, ◌^◌, [], ◌∷◌, MatchOption};
ghost use Rattle.mem_base.specs.access.Pieces.{aligned_size, is_valid, piece_at, pieces, power_dividing, power_within, size_at};
ghost use Rattle.access_cut.specs.Conditions.{AreGood};

use mem_base::{Ops, Piece};
use std::marker::Model;

/// The pieces of an access that are still to be given, in ascending order.
#[derive(Debug, Drop)]
pub struct Cuts {
    ops: Ops,
    offset: u64,
    left: u64,
}

impl Model for Cuts {
    ghost use Rattle.std.specs.Prelude.{List, ◌≤◌, ◌+◌, ◌^◌};
    ghost use Rattle.mem_base.specs.declared.access.accesses.Piece.{Piece};
    ghost use Rattle.mem_base.specs.access.Pieces.{pieces};
    ghost use Rattle.access_cut.specs.Conditions.{AreGood};

    ghost Value = { List Piece };

    ghost view = { λ c. pieces c.ops c.offset c.left };

    ghost invariant = { λ c. AreGood c.ops × (c.offset + c.left ≤ 2 ^ 64) };
}

// The largest of 1, 2, 4 and 8 that is at most the size.
fn power_within(size: u64) -> u8
    requires { 1 ≤ size }
    ensures value { result ≡ power_within size }
    ensures some { 1 ≤ result }
    ensures bound { result ≤ size }
{
    if size >= 8 {
        8
    } else if size >= 4 {
        4
    } else if size >= 2 {
        2
    } else {
        1
    }
}

// The largest of 1, 2, 4 and 8 that divides the offset.
fn power_dividing(offset: u64) -> u64
    ensures value { result ≡ power_dividing offset }
    ensures some { 1 ≤ result }
{
    if offset % 8 == 0 {
        8
    } else if offset % 4 == 0 {
        4
    } else if offset % 2 == 0 {
        2
    } else {
        1
    }
}

fn aligned_size(ops: &Ops, offset: u64, size: u64) -> u64
    requires { 1 ≤ size }
    ensures value { result ≡ aligned_size ops.now offset size }
    ensures some { 1 ≤ result }
    ensures bound { result ≤ size }
{
    if ops.impl_unaligned || offset == 0 {
        size
    } else {
        size.min(power_dividing(offset))
    }
}

// The size of the next piece, where this many bytes are left.
#[tactic(auto, using(crate::proofs::Good::some_valid))]
fn size_at(ops: &Ops, offset: u64, left: u64) -> u8
    requires good { AreGood ops.now }
    requires some { 1 ≤ left }
    ensures value { result ≡ size_at ops.now offset left }
    ensures some { 1 ≤ result }
    ensures bound { result ≤ left }
{
    let most = left.min(u64::from(ops.valid_max));
    power_within(aligned_size(ops, offset, most))
}

// Whether the device takes an access of this size at this offset.
fn is_valid(ops: &Ops, offset: u64, size: u8) -> bool
    requires { 1 ≤ size }
    ensures { result ≡ is_valid ops.now offset size }
{
    ops.valid_min <= size
        && size <= ops.valid_max
        && (ops.valid_unaligned || offset % u64::from(size) == 0)
}

fn piece_at(ops: &Ops, offset: u64, left: u64) -> Piece
    requires good { AreGood ops.now }
    requires some { 1 ≤ left }
    ensures value { result ≡ piece_at ops.now offset left }
    ensures some { 1 ≤ result.size }
    ensures bound { result.size ≤ left }
{
    let size = size_at(ops, offset, left);
    Piece {
        offset,
        size,
        valid: is_valid(ops, offset, size),
    }
}

/// Cuts an access of `len` bytes to the device from this offset on into pieces.
///
/// A piece has the bytes that are left, but at most the greatest valid size; where the callbacks take aligned offsets
/// alone, at most the largest power of two that divides its offset; and of that the largest power of two. A piece that
/// the device does not take, for its size or its offset, is given too, and is not valid.
pub fn cut(ops: &Ops, offset: u64, len: u64) -> Cuts
    requires good { AreGood ops.now }
    requires within { offset + len ≤ 2 ^ 64 }
    ensures { result ≡ pieces ops.now offset len }
{
    Cuts {
        ops: *ops,
        offset,
        left: len,
    }
}

impl Cuts {
    /// The next piece, `None` where all bytes of the access are in pieces that were given.
    pub fn next(&mut self) -> Option<Piece>
        ensures { MatchOption result ((self.old ≡ []) × (self.new ≡ [])) (λ p. self.old ≡ p ∷ self.new) }
    {
        if self.left == 0 {
            return None;
        }
        let piece = piece_at(&self.ops, self.offset, self.left);
        self.offset = self.offset.saturating_add(u64::from(piece.size));
        self.left -= u64::from(piece.size);
        Some(piece)
    }
}
