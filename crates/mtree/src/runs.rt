// Runs of the top call on scripts in memory.

use outside::{CalmSource, Gate, MemSink, Sink, Source};
use std::alloc::{AllocError, Global};
use std::sync::Wait;
use std::thread::Threads;
use top_call::{Ending, alone, asks_race, mtree};

/// The usage line.
pub(crate) const USAGE: &str = "usage: mtree run | race | make SEED | demo SEED\n";

/// Room for every text here.
pub(crate) const ROOM: usize = 65_536;

/// The words between single spaces, and none of an empty text.
pub(crate) fn words_of(alloc: Global, text: &str) -> Result<Vec<String>, AllocError> {
    let mut words = Vec::new(alloc);
    if !text.is_empty() {
        for word in text.split(' ') {
            words.push(String::from_str(alloc, word)?)?;
        }
    }
    Ok(words)
}

/// How the top call ends without other threads. The one word `race`, which wants them, is no case here.
fn ending<S: Source, K: Sink>(
    alloc: Global,
    words: &[String],
    source: &mut S,
    sink: &mut K,
) -> Ending {
    if asks_race(words) {
        return Ending::Usage;
    }
    alone(alloc, words, source, sink)
}

/// The same for these words.
pub(crate) fn end_of<S: Source, K: Sink>(
    alloc: Global,
    words: &str,
    source: &mut S,
    sink: &mut K,
) -> Result<Ending, AllocError> {
    let words = words_of(alloc, words)?;
    Ok(ending(alloc, words.as_slice(), source, sink))
}

/// How it ends with other threads, for these words, and whether it keeps a machine.
pub(crate) fn end_in_threads<R: Threads + Wait + Sync, S: Source, K: Sink, G: Gate>(
    rt: &R,
    alloc: Global,
    words: &[String],
    source: &mut S,
    sink: &mut K,
    gate: &G,
) -> (Ending, bool) {
    let mut kept = None;
    let ending = mtree(rt, alloc, words, source, sink, gate, &mut kept);
    (ending, kept.is_some())
}

/// How `run` ended of this source, and how many of the bytes of a text it wrote into this much room; `None` where it wrote others.
pub(crate) fn run_into<S: Source>(
    alloc: Global,
    source: &mut S,
    text: &str,
    room: usize,
    failing_write: u32,
) -> Result<Option<(Ending, usize)>, AllocError> {
    let fails = [failing_write].to_vec(alloc)?;
    let mut sink = MemSink::new(alloc, room, fails)?;
    let ending = end_of(alloc, "run", source, &mut sink)?;
    let written = sink.written();
    Ok(if text.as_bytes().starts_with(written) {
        Some((ending, written.len()))
    } else {
        None
    })
}

/// Whether the program ends so for these words and this script, and writes this text into this much room.
pub(crate) fn says(
    alloc: Global,
    (words, script): (&str, &[u8]),
    room: usize,
    (want, text): (Ending, &str),
) -> Result<bool, AllocError> {
    let mut source = CalmSource::new(script.to_vec(alloc)?);
    let mut sink = MemSink::new(alloc, room, Vec::new(alloc))?;
    let ending = end_of(alloc, words, &mut source, &mut sink)?;
    Ok(ending == want && sink.written() == text.as_bytes())
}
