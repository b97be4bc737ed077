// Few bytes that were read.
ghost use Rattle.std.specs.Prelude.{◌≡◌, ◌≤◌, take};

use std::marker::Model;

/// At most sixteen bytes that were read, at hand: they take no memory of their own.
#[derive(Debug, Drop)]
pub struct FewBytes {
    bytes: [u8; 16],
    count: u8,
}

impl Model for FewBytes {
    ghost use Rattle.std.specs.Prelude.{List, ℕ, ◌≤◌, take};

    ghost Value = { List ℕ };

    ghost view = { λ b. take b.count b.bytes };

    ghost invariant = { λ b. b.count ≤ 16 };
}

impl FewBytes {
    /// The first of these bytes, so many.
    pub fn new(bytes: [u8; 16], count: u8) -> FewBytes
        requires few { count ≤ 16 }
        ensures { result ≡ take count bytes }
    {
        FewBytes { bytes, count }
    }

    /// All of them, in order.
    pub fn as_slice(&self) -> &[u8]
        ensures { result.now ≡ self.now }
    {
        &self.bytes[..self.count as usize]
    }
}
