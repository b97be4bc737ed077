// Races of scripts in memory, and the tests of what they write.

use crate::rows::{RACE, ROWS, Row};
use crate::runs::{end_in_threads, words_of};
use outside::{CalmSource, Gate, OpenGate, StdSink};
use std::alloc::{AllocError, Global};
use std::sync::Wait;
use std::thread::Threads;
use top_call::Ending;

/// How often each script is raced.
const TIMES: u32 = 20;

/// How a race of the script ends, and what it writes.
pub(crate) fn raced<R: Threads + Wait + Sync, G: Gate>(
    rt: &R,
    alloc: Global,
    script: &str,
    gate: &G,
) -> Result<(Ending, Vec<u8>), AllocError> {
    let words = words_of(alloc, "race")?;
    let mut source = CalmSource::new(script.as_bytes().to_vec(alloc)?);
    let mut written = Vec::new(alloc);
    let mut sink = StdSink::new(&mut written);
    let (ending, _) = end_in_threads(rt, alloc, words.as_slice(), &mut source, &mut sink, gate);
    Ok((ending, written))
}

/// Whether bytes are the first of the text's, of which a `?` stands for any digit.
pub(crate) fn begins_like(bytes: &[u8], text: &str) -> bool {
    bytes.len() <= text.len()
        && bytes.iter().zip(text.as_bytes()).all(|(byte, want)| byte == want
            || (*want == b'?' && byte.is_ascii_digit()))
}

/// Whether bytes are those of the text.
pub(crate) fn is_like(bytes: &[u8], text: &str) -> bool {
    bytes.len() == text.len() && begins_like(bytes, text)
}

/// Whether a race of the row's script is done and writes the row's text.
fn is_raced<R: Threads + Wait + Sync>(
    rt: &R,
    alloc: Global,
    row: &Row,
) -> Result<bool, AllocError> {
    let (ending, written) = raced(rt, alloc, row.script, &OpenGate)?;
    Ok(ending == Ending::Done && is_like(&written, row.text))
}

#[test]
fn each_script_has_its_text_in_each_of_twenty_races(rt: HostRuntime) {
    for row in &ROWS {
        for time in 0..TIMES {
            let name = row.name;
            assert!(rt;
                is_raced(&rt, rt.alloc(), row) == Ok(true),
                "{name} at {time}"
            );
        }
    }
}

/// Whether a race of the row's script is done and writes its text; where memory runs out, it has written the first of it.
fn is_raced_or_begun<R: Threads + Wait + Sync>(rt: &R, alloc: Global, row: &Row) -> Option<bool> {
    let Ok((ending, written)) = raced(rt, alloc, row.script, &OpenGate) else {
        return None;
    };
    if ending == Ending::Memory && begins_like(&written, row.text) {
        return None;
    }
    Some(ending == Ending::Done && is_like(&written, row.text))
}

#[test]
fn a_race_without_memory_writes_the_first_of_its_text_and_the_next_one_is_whole(rt: HostRuntime) {
    let is_so = match is_raced_or_begun(&rt, rt.alloc(), &RACE) {
        Some(is_so) => is_so,
        None => is_raced(&rt, rt.alloc(), &RACE) == Ok(true),
    };
    assert!(rt; is_so);
}
