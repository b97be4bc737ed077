// The bytes of a source in memory that are not yet read.
ghost use Rattle.std.specs.Prelude.{◌≡◌, ◌≤◌, min, length, Ok, Some, vec_len};
ghost use Rattle.std.specs.Io.KnownBytes.{ReadConsumes};
ghost use Rattle.outside.specs.declared.Failed.{Failed};

/// Bytes, of which a prefix was read.
#[derive(Drop)]
pub(crate) struct Remainder {
    bytes: Vec<u8>,
    at: usize,
    ghost within: { at ≤ vec_len bytes },
}

impl Remainder {
    ghost use Rattle.outside.specs.Remainder.{bytes_left};

    pub(crate) fn new(bytes: Vec<u8>) -> Self
        ensures { bytes_left result ≡ bytes.items }
    {
        Remainder { bytes, at: 0 }
    }

    /// Copies as many of the next bytes as there are and as the buffer has room for, and answers their number.
    pub(crate) fn read_into(&mut self, buf: &mut [u8]) -> usize
        ensures count { result ≡ min (length (bytes_left self.old)) (length buf.old) }
        ensures bound { result ≤ length buf.new }
        ensures bytes { ReadConsumes {E = Failed} (Some (bytes_left self.old)) (Some (bytes_left self.new)) (Ok result) buf.new }
    {
        let rest = self.bytes.split_at(self.at).1;
        let count = rest.len().min(buf.len());
        buf[..count].copy_from_slice(rest.split_at(count).0);
        self.at += count;
        count
    }
}
