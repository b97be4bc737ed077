// A piece done by callbacks.
ghost use Rattle.std.specs.Prelude.{◌≡◌, ◌≤◌};
ghost use Rattle.mem_base.specs.access.Pieces.{callback_count, callback_size};
ghost use Rattle.access_cut.specs.Conditions.{AreGood, IsCut};
ghost use Rattle.access_cut.specs.Offsets.{places};

use crate::places::Accesses;
use mem_base::{Ops, Piece};

// The bytes of one callback for a piece of `size` bytes.
#[tactic(auto, using(crate::proofs::Good::some_impl))]
fn callback_size(ops: &Ops, size: u8) -> u8
    requires { AreGood ops.now }
    ensures value { result ≡ callback_size ops.now size }
    ensures some { 1 ≤ result }
{
    size.min(ops.impl_max).max(ops.impl_min)
}

fn callback_count(ops: &Ops, size: u8) -> u8
    requires { AreGood ops.now }
    ensures { result ≡ callback_count ops.now size }
{
    (size / callback_size(ops, size)).max(1)
}

/// Where the callbacks of a piece are made.
pub fn accesses(ops: &Ops, piece: &Piece) -> Accesses
    requires good { AreGood ops.now }
    requires cut { IsCut ops.now piece.now }
    ensures { result ≡ places ops.now piece.now }
{
    Accesses {
        offset: piece.offset,
        size: callback_size(ops, piece.size),
        left: callback_count(ops, piece.size),
    }
}
