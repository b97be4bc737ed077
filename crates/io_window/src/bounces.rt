// The buffer of a window that is not direct.
ghost use Rattle.std.specs.Prelude.{◌≡◌, ◌≤◌, IfOk, length};

use std::alloc::{AllocError, Global};
use std::marker::Model;

/// A buffer through which a window goes where it is not direct. Contracts see its room, in bytes.
#[derive(Debug, Drop)]
pub struct Bounce {
    bytes: Vec<u8>,
}

impl Model for Bounce {
    ghost use Rattle.std.specs.Prelude.{ℕ, ◌≤◌, length};

    ghost Value = { ℕ };

    ghost view = { λ b. length b.bytes.items };

    ghost invariant = { λ b. 1 ≤ length b.bytes.items };
}

impl Bounce {
    /// A buffer with room for `room` bytes, 1 to 4,096. It fails only where memory runs out.
    pub fn new(alloc: Global, room: usize) -> Result<Bounce, AllocError>
        requires some { 1 ≤ room }
        requires most { room ≤ 4096 }
        ensures { IfOk result (λ b. b ≡ room) }
    {
        Ok(Bounce {
            bytes: vec![in alloc; 0u8; room]?,
        })
    }

    /// How many bytes it has room for.
    pub fn room(&self) -> usize
        ensures { result ≡ self.now }
    {
        self.bytes.len()
    }

    // A buffer of these bytes, of which there is one at least.
    pub(crate) fn of(bytes: Vec<u8>) -> Bounce
        requires { 1 ≤ length bytes.items }
        ensures { result ≡ length bytes.items }
    {
        Bounce { bytes }
    }

    // Its bytes.
    pub(crate) fn into_bytes(self) -> Vec<u8>
        ensures room { length result.items ≡ self }
        ensures some { 1 ≤ length result.items }
    {
        self.bytes
    }
}
