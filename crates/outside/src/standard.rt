// The standard library's readers and writers as a source and a sink. They are the trusted edge.
ghost use Rattle.std.specs.Prelude.{◌≡◌, ◌<◌, None, ⊤, length, IfOk};
ghost use Rattle.std.specs.Io.{ReadsAtMost, WritesAtMost};
ghost use Rattle.std.specs.Io.KnownBytes.{ReadConsumes, WriteAppends};
ghost use Rattle.outside.specs.Causes.{HasCause, faults_after};

use crate::faults::FaultCount;
use crate::{Failed, Sink, Source};
use std::io::{Read, Write};

/// A reader of the standard library as a source.
///
/// It tells no content, so that nothing is claimed of what a file or a terminal holds, and counts each error of
/// the reader. No clause ties its count to the reader's errors: that it counts no other read is seen by reading it.
#[derive(Drop)]
pub struct StdSource<R: Read> {
    reader: R,
    faults: FaultCount,
}

impl<R: Read> StdSource<R> {
    ghost use Rattle.outside.specs.Standard.{reader_of, reader_faults};

    /// A source over the reader, with no fault so far.
    pub fn new(reader: R) -> Self
        ensures reader { reader_of result ≡ reader }
        ensures faults { reader_faults result ≡ 0 }
    {
        StdSource {
            reader,
            faults: FaultCount::new(),
        }
    }
}

impl<R: Read> Source for StdSource<R> {
    ghost use Rattle.outside.specs.Standard.{reader_of, reader_faults};

    ghost left = { λ _. None };

    ghost faults = { reader_faults };

    fn read(&mut self, buf: &mut [u8]) -> Result<usize, Failed>
        ensures bound { ReadsAtMost result buf.new }
        // What it gives is what the reader gave, where that tells what remains in it.
        ensures bytes { ReadConsumes (R.remaining (reader_of self.old)) (R.remaining (reader_of self.new)) result buf.new }
        ensures cause { HasCause (reader_faults self.old) (reader_faults self.new) result }
        ensures faults { reader_faults self.new ≡ faults_after (reader_faults self.old) result }
    {
        match self.reader.read(buf) {
            Ok(count) => Ok(count),
            Err(_) => Err(self.faults.failure()),
        }
    }
}

/// A writer of the standard library as a sink.
///
/// It tells no content, and counts each error of the writer and each write that takes nothing of a piece that
/// has a byte. No clause ties its count to the writer's errors: that it counts no other write is seen by reading it.
#[derive(Drop)]
pub struct StdSink<W: Write> {
    writer: W,
    faults: FaultCount,
}

impl<W: Write> StdSink<W> {
    ghost use Rattle.outside.specs.Standard.{writer_of, writer_faults};

    /// A sink over the writer, with no fault so far.
    pub fn new(writer: W) -> Self
        ensures writer { writer_of result ≡ writer }
        ensures faults { writer_faults result ≡ 0 }
    {
        StdSink {
            writer,
            faults: FaultCount::new(),
        }
    }
}

impl<W: Write> Sink for StdSink<W> {
    ghost use Rattle.outside.specs.Standard.{writer_of, writer_faults};

    ghost written = { λ _. None };

    ghost holds = { λ _ _. ⊤ };

    ghost faults = { writer_faults };

    ghost told = { λ _. tt };

    fn write(&mut self, piece: &[u8]) -> Result<usize, Failed>
        ensures bound { WritesAtMost result piece.now }
        ensures some { IfOk result (λ n. 0 < length piece.now → 0 < n) }
        // What it took is what the writer took, where that tells its content.
        ensures bytes { WriteAppends (W.contents (writer_of self.old)) (W.contents (writer_of self.new)) result piece.now }
        ensures cause { HasCause (writer_faults self.old) (writer_faults self.new) result }
        ensures faults { writer_faults self.new ≡ faults_after (writer_faults self.old) result }
    {
        let taken = match self.writer.write(piece) {
            Ok(count) => count,
            Err(_) => return Err(self.faults.failure()),
        };
        if taken == 0 && !piece.is_empty() {
            return Err(self.faults.failure());
        }
        Ok(taken)
    }
}
