// What the top call writes for a script, and how it ends.

use crate::cases::{Case, first_case};
use outside::{CalmSource, Failed, OpenGate, Sink, StdSink, write_all};
use std::alloc::{AllocError, Global};
use std::sync::Wait;
use std::thread::Threads;
use top_call::{Ending, mtree};

/// Why the program stopped.
#[derive(Clone, Copy, Debug, PartialEq, Eq)]
pub(crate) enum Fault {
    /// The input is no list of scripts.
    Input,
    /// A write failed.
    Write,
    /// Out of memory.
    Memory,
}

impl From<AllocError> for Fault {
    fn from(_: AllocError) -> Fault {
        Fault::Memory
    }
}

impl From<Failed> for Fault {
    fn from(_: Failed) -> Fault {
        Fault::Write
    }
}

// The words between single spaces.
fn words_in(alloc: Global, text: &str) -> Result<Vec<String>, AllocError> {
    let mut words = Vec::new(alloc);
    for word in text.split(' ') {
        words.push(String::from_str(alloc, word)?)?;
    }
    Ok(words)
}

// How the script ends, and what is written for it.
fn run<R: Threads + Wait + Sync>(
    rt: &R,
    alloc: Global,
    case: &Case<'_>,
) -> Result<(Ending, Vec<u8>), AllocError> {
    let words = words_in(alloc, case.words)?;
    let mut source = CalmSource::new(case.script.to_vec(alloc)?);
    let mut written = Vec::new(alloc);
    let mut sink = StdSink::new(&mut written);
    let mut kept = None;
    let ending = mtree(
        rt,
        alloc,
        words.as_slice(),
        &mut source,
        &mut sink,
        &OpenGate,
        &mut kept,
    );
    Ok((ending, written))
}

/// Runs each script of the input, and writes its name, its status, and what was written for it.
pub(crate) fn answer_all<R: Threads + Wait + Sync, K: Sink>(
    rt: &R,
    alloc: Global,
    text: &[u8],
    sink: &mut K,
) -> Result<(), Fault> {
    let mut rest = text;
    while !rest.is_empty() {
        let Some((case, after)) = first_case(rest) else {
            return Err(Fault::Input);
        };
        let (ending, written) = run(rt, alloc, &case)?;
        let name = case.name;
        let status = ending.status();
        let heading = format!(in alloc; "=== {name} {status}\n")?;
        write_all(sink, heading.as_bytes())?;
        write_all(sink, &written)?;
        rest = after;
    }
    Ok(())
}
