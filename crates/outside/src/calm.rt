// Ends that never fail.
ghost use Rattle.std.specs.Io.{ReadsAtMost, WritesAtMost};
ghost use Rattle.std.specs.Io.KnownBytes.{ReadConsumes};
ghost use Rattle.outside.specs.Causes.{HasCause};
ghost use Rattle.std.specs.Prelude.{◌≡◌, ◌++◌, ◌≤◌, ◌<◌, ◌↔◌, IfOk, Some, Ok, [], take, length, min, vec_len};

use crate::remainder::Remainder;
use crate::{Failed, Sink, Source};

/// Gives its bytes, and never fails.
#[derive(Drop)]
pub struct CalmSource {
    rest: Remainder,
}

impl CalmSource {
    ghost use Rattle.outside.specs.Calm.{calm_left};

    /// A source of these bytes.
    pub fn new(bytes: Vec<u8>) -> CalmSource
        ensures { calm_left result ≡ bytes.items }
    {
        CalmSource {
            rest: Remainder::new(bytes),
        }
    }
}

impl Source for CalmSource {
    ghost use Rattle.outside.specs.Calm.{calm_left};

    ghost left = { λ s. Some (calm_left s) };

    ghost faults = { λ _. 0 };

    fn read(&mut self, buf: &mut [u8]) -> Result<usize, Failed>
        ensures bound { ReadsAtMost result buf.new }
        ensures bytes { ReadConsumes (Some (calm_left self.old)) (Some (calm_left self.new)) result buf.new }
        ensures cause { HasCause 0 0 result }
        // It gives as many bytes as there are and as the buffer has room for.
        ensures all { result ≡ Ok (min (length (calm_left self.old)) (length buf.old)) }
    {
        Ok(self.rest.read_into(buf))
    }
}

/// Takes every piece, keeps the bytes that its buffer has room for, and never fails.
#[derive(Drop)]
pub struct CalmSink<'a> {
    buffer: &'a mut Vec<u8>,
    is_whole: bool,
}

impl<'a> CalmSink<'a> {
    ghost use Rattle.outside.specs.Calm.{calm_kept, IsWhole};

    /// A sink into this buffer, which grows no further than its capacity.
    pub fn new(buffer: &'a mut Vec<u8>) -> CalmSink<'a>
        requires { vec_len buffer.old ≡ 0 }
        ensures empty { calm_kept result ≡ [] }
        ensures whole { IsWhole result }
    {
        CalmSink {
            buffer,
            is_whole: true,
        }
    }
}

impl Sink for CalmSink<'_> {
    ghost use Rattle.std.proofs.Common.{rules};
    ghost use Rattle.outside.specs.Sink.{TakesCount};
    ghost use Rattle.outside.specs.Calm.{calm_kept, calm_room, calm_written, CalmHolds, IsWhole};

    ghost written = { calm_written };

    ghost holds = { CalmHolds };

    ghost faults = { λ _. 0 };

    ghost told = { Prim.search rules };

    fn write(&mut self, piece: &[u8]) -> Result<usize, Failed>
        ensures bound { WritesAtMost result piece.now }
        ensures some { IfOk result (λ n. 0 < length piece.now → 0 < n) }
        ensures takes { TakesCount calm_written CalmHolds self.old self.new result piece.now }
        ensures cause { HasCause 0 0 result }

        // It answers for the whole piece, keeps a prefix of it, and is whole as long as that prefix is all of it.
        ensures all { result ≡ Ok (length piece.now) }
        ensures kept { calm_kept self.new ≡ calm_kept self.old ++ take (calm_room self.old) piece.now }
        ensures whole { IsWhole self.new ↔ (IsWhole self.old × (length piece.now ≤ calm_room self.old)) }
    {
        let room = self.buffer.capacity() - self.buffer.len();
        let count = piece.len().min(room);
        self.buffer.extend_from_slice(&piece[..count]).unwrap();
        self.is_whole = self.is_whole && count == piece.len();
        Ok(piece.len())
    }
}
