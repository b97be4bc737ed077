// Readers, writers and ends in memory, and what read_all and write_all make of them.
use outside::{
    CalmSink, CalmSource, Failed, MemSink, MemSource, ReadStop, Sink, Source, StdSink, StdSource,
    read_all, write_all,
};
use std::alloc::{AllocError, Global};
use std::io::{self, ErrorKind, Read, Write};

/// A reader that gives one byte a call.
#[derive(Drop)]
struct Drip<'a>(&'a [u8]);

impl Read for Drip<'_> {
    fn read(&mut self, buf: &mut [u8]) -> io::Result<usize> {
        let count = buf.len().min(1);
        self.0.read(&mut buf[..count])
    }
}

/// A reader and a writer whose file is gone.
#[derive(Drop)]
struct Gone;

impl Read for Gone {
    fn read(&mut self, _buf: &mut [u8]) -> io::Result<usize> {
        Err(io::Error::from(ErrorKind::NotFound))
    }
}

impl Write for Gone {
    fn write(&mut self, _buf: &[u8]) -> io::Result<usize> {
        Err(io::Error::from(ErrorKind::NotFound))
    }

    fn flush(&mut self) -> io::Result<()> {
        Ok(())
    }
}

/// A writer that takes one byte a call.
#[derive(Drop)]
struct Slow<'a>(&'a mut Vec<u8>);

impl Write for Slow<'_> {
    fn write(&mut self, buf: &[u8]) -> io::Result<usize> {
        let count = buf.len().min(1);
        self.0.write(&buf[..count])
    }

    fn flush(&mut self) -> io::Result<()> {
        Ok(())
    }
}

/// Whether reading gave these bytes, or stopped so.
fn is_read(got: &Result<Vec<u8>, ReadStop>, given: &[u8], stop: Option<ReadStop>) -> bool {
    match (got, stop) {
        (Ok(all), None) => all.as_slice() == given,
        (Err(why), Some(stop)) => *why == stop,
        _ => false,
    }
}

/// Whether all of these bytes are read, a byte a call and at once, or reading them stops so.
fn reads(
    alloc: Global,
    given: &[u8],
    most: usize,
    stop: Option<ReadStop>,
) -> Result<bool, AllocError> {
    let mut drip = StdSource::new(Drip(given));
    let dripped = read_all(alloc, &mut drip, most);
    let mut calm = CalmSource::new(given.to_vec(alloc)?);
    let at_once = read_all(alloc, &mut calm, most);
    Ok(is_read(&dripped, given, stop) && is_read(&at_once, given, stop))
}

/// Bytes, how many are allowed, and how reading them stops where there are more.
const GIVEN: [(&[u8], usize, Option<ReadStop>); 5] = [
    (b"", 0, None),
    (b"a", 0, Some(ReadStop::Long)),
    (b"abcd", 5, None),
    (b"abcde", 5, None),
    (b"abcdef", 5, Some(ReadStop::Long)),
];

#[test]
fn read_all_gives_all_bytes_or_says_that_there_are_more(rt: HostRuntime) {
    for (given, most, stop) in GIVEN {
        assert!(rt; reads(rt.alloc(), given, most, stop) == Ok(true));
    }
}

/// How reading three bytes stops where the call of this number fails.
fn stop_at(alloc: Global, call: u32) -> Result<Option<ReadStop>, AllocError> {
    let fails = [call].to_vec(alloc)?;
    let mut source = MemSource::new(b"abc".to_vec(alloc)?, fails);
    Ok(read_all(alloc, &mut source, 9).err())
}

/// Whether a failing call stops reading, and one that is not made does not.
fn is_stopped(alloc: Global) -> Result<bool, AllocError> {
    let failed = Some(ReadStop::Failed);
    let mut gone = StdSource::new(Gone);
    let at_once = read_all(alloc, &mut gone, 9).err() == failed;
    let first = stop_at(alloc, 1)? == failed;
    let second = stop_at(alloc, 2)? == failed;
    Ok(at_once && first && second && stop_at(alloc, 3)?.is_none())
}

#[test]
fn a_failing_read_stops_read_all(rt: HostRuntime) {
    assert!(rt; is_stopped(rt.alloc()) == Ok(true));
}

/// What each read of one byte answers, and the byte.
const READS: [(Result<usize, Failed>, u8); 6] = [
    (Ok(1), b'a'),
    (Err(Failed), b'-'),
    (Ok(1), b'b'),
    (Err(Failed), b'-'),
    (Ok(1), b'c'),
    (Ok(0), b'-'),
];

/// Whether the next reads of a source are these.
fn gives(source: &mut MemSource) -> bool {
    for (want, byte) in READS {
        let mut buffer = *b"-";
        if source.read(&mut buffer) != want || buffer != [byte] {
            return false;
        }
    }
    true
}

/// The same of a source of three bytes that fails at the second call and at the fourth.
fn gives_all(alloc: Global) -> Result<bool, AllocError> {
    let fails = [2, 4].to_vec(alloc)?;
    let mut source = MemSource::new(b"abc".to_vec(alloc)?, fails);
    Ok(gives(&mut source))
}

#[test]
fn a_source_in_memory_fails_at_the_listed_calls_and_loses_nothing(rt: HostRuntime) {
    assert!(rt; gives_all(rt.alloc()) == Ok(true));
}

/// Pieces, what a sink answers to each, and what it has then.
const PIECES: [(&[u8], Result<usize, Failed>, &[u8]); 6] = [
    (b"ab", Ok(2), b"ab"),
    (b"c", Err(Failed), b"ab"),
    (b"c", Ok(1), b"abc"),
    (b"de", Err(Failed), b"abc"),
    (b"d", Ok(1), b"abcd"),
    (b"", Ok(0), b"abcd"),
];

/// Whether a sink takes the pieces so.
fn takes(sink: &mut MemSink) -> bool {
    for (piece, want, holds) in PIECES {
        if sink.write(piece) != want || sink.written() != holds {
            return false;
        }
    }
    true
}

/// The same of a sink with room for four bytes that fails at the second call.
fn takes_all(alloc: Global) -> Result<bool, AllocError> {
    let fails = [2].to_vec(alloc)?;
    let mut sink = MemSink::new(alloc, 4, fails)?;
    Ok(takes(&mut sink))
}

#[test]
fn a_sink_in_memory_fails_at_the_listed_calls_and_beyond_its_room(rt: HostRuntime) {
    assert!(rt; takes_all(rt.alloc()) == Ok(true));
}

/// Whether a calm sink says of each piece that it took all of it, and its buffer of four bytes has the first four.
fn is_calm(alloc: Global) -> Result<bool, AllocError> {
    let mut buffer = Vec::with_capacity(alloc, 4)?;
    let mut sink = CalmSink::new(&mut buffer);
    let first = sink.write(b"abc") == Ok(3);
    let second = sink.write(b"de") == Ok(2);
    let third = sink.write(b"fgh") == Ok(3);
    Ok(first && second && third && buffer.as_slice() == b"abcd".as_slice())
}

#[test]
fn a_calm_sink_keeps_what_its_buffer_has_room_for(rt: HostRuntime) {
    assert!(rt; is_calm(rt.alloc()) == Ok(true));
}

/// Whether a buffer gets a whole text, at once and a byte a call.
fn is_written(alloc: Global) -> bool {
    let mut whole = Vec::new(alloc);
    let at_once = write_all(&mut StdSink::new(&mut whole), b"abcd").is_ok();
    let mut slow = Vec::new(alloc);
    let dripped = write_all(&mut StdSink::new(Slow(&mut slow)), b"abcd").is_ok();
    let is_all = whole.as_slice() == b"abcd".as_slice() && slow.as_slice() == b"abcd".as_slice();
    at_once && dripped && is_all
}

/// Whether a slice takes what it has room for, and then nothing; and nothing goes where the file is gone.
fn is_refused() -> bool {
    let mut room = *b"---";
    let full = write_all(&mut StdSink::new(room.as_mut_slice()), b"abcd").is_err();
    let gone = write_all(&mut StdSink::new(Gone), b"abcd").is_err();
    let empty = write_all(&mut StdSink::new(Gone), b"").is_ok();
    full && room == *b"abc" && gone && empty
}

#[test]
fn write_all_writes_on_until_a_write_takes_nothing(rt: HostRuntime) {
    assert!(rt; is_written(rt.alloc()) && is_refused());
}

/// Whether a writer is asked for an empty piece too.
fn is_asked(alloc: Global) -> bool {
    let mut kept = Vec::new(alloc);
    let taken = StdSink::new(&mut kept).write(b"") == Ok(0);
    taken && StdSink::new(Gone).write(b"") == Err(Failed)
}

#[test]
fn an_error_of_a_writer_is_a_fault_for_an_empty_piece_too(rt: HostRuntime) {
    assert!(rt; is_asked(rt.alloc()));
}
