// Where bytes come from.
ghost use Rattle.std.specs.Prelude.{◌≡◌, ◌≤◌, ◌<◌, List, ℕ, length, IfOk, IsErrOf};
ghost use Rattle.std.specs.declared.option.Option.{Option};
ghost use Rattle.std.specs.Io.{ReadsAtMost};
ghost use Rattle.std.specs.Io.KnownBytes.{ReadConsumes};
ghost use Rattle.outside.specs.Causes.{HasCause, Rose};
ghost use Rattle.outside.specs.Source.{AllCame, SomeCame, CameInOrder};
ghost use Rattle.outside.specs.declared.source.ReadStop.TheVariants.{Memory};

use crate::Failed;
use std::alloc::{AllocError, Global};

/// A stream of bytes, which may fail.
pub trait Source {
    /// The bytes that are not yet read, where the source tells them.
    ghost left: { Self → Option (List ℕ) };

    /// How many reads have failed; it stands still at 2^64 - 1 and never falls.
    ghost faults: { Self → ℕ };

    /// The number of bytes that were read into the start of `buf`. They are the first of those that were left,
    /// and leave the source.
    ///
    /// `Ok(0)` for a buffer with room is the end of input. After `Failed` the source has lost nothing, and what
    /// the buffer holds is not said.
    fn read(&mut self, buf: &mut [u8]) -> Result<usize, Failed>
        ensures bound { ReadsAtMost result buf.new }
        ensures bytes { ReadConsumes (left self.old) (left self.new) result buf.new }
        ensures cause { HasCause (faults self.old) (faults self.new) result };
}

/// Why `read_all` stopped before the end of input.
#[derive(Clone, Copy, Debug, PartialEq, Eq)]
pub enum ReadStop {
    /// A read failed.
    Failed,
    /// More bytes came than were allowed.
    Long,
    /// Out of memory.
    Memory,
}

impl From<AllocError> for ReadStop {
    ghost from_gives = { λ _ e. e ≡ Memory };

    fn from(_: AllocError) -> Self {
        ReadStop::Memory
    }
}

/// All bytes that the source gives, up to the end of its input, where these are at most `most`.
///
/// `Long` exactly where more than `most` bytes came; some of them are then read and some may be left. `Failed`
/// only where a read failed, and at most `most` bytes came before it. After any error the source has lost a prefix of what was
/// left in it.
pub fn read_all<S: Source>(alloc: Global, source: &mut S, most: usize) -> Result<Vec<u8>, ReadStop>
    // All came, and nothing is left.
    ensures all { IfOk result (λ bytes. AllCame (S.left source.old) (S.left source.new) bytes.items) }
    ensures within { IfOk result (λ bytes. length bytes.items ≤ most) }

    // More bytes came than were allowed.
    ensures long { IsErrOf result ReadStop.Long
        → SomeCame (S.left source.old) (S.left source.new) (λ bytes. most < length bytes) }

    // A read failed, before more came than were allowed.
    ensures failed { IsErrOf result ReadStop.Failed → Rose (S.faults source.old) (S.faults source.new) }
    ensures short { IsErrOf result ReadStop.Failed
        → SomeCame (S.left source.old) (S.left source.new) (λ bytes. length bytes ≤ most) }

    // Whatever the answer, no more than a prefix of what was left is gone, and no fault is forgotten.
    ensures prefix { CameInOrder (S.left source.old) (S.left source.new) }
    ensures later { S.faults source.old ≤ S.faults source.new }
{
    let mut bytes = Vec::new(alloc);
    let mut buffer = [0u8; 4096];
    while bytes.len() <= most {
        let count = match source.read(&mut buffer) {
            Ok(count) => count,
            Err(Failed) => return Err(ReadStop::Failed),
        };
        if count == 0 {
            return Ok(bytes);
        }
        bytes.extend_from_slice(&buffer[..count])?;
    }
    Err(ReadStop::Long)
}
