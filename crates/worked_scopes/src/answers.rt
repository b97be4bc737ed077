// What `mscope` writes for a case, and how it ends.

use crate::cases::{Case, first_case};
use crate::memory::CaseFiles;
use clap::Error;
use outside::{Failed, MemSink, Sink, StdSink, write_all};
use scope_json::mscope_json;
use scope_run::{Ending, Request, mscope};
use scope_words::{Asked, read_words};
use std::alloc::{AllocError, Global};

/// Why the program stopped.
#[derive(Clone, Copy, Debug, PartialEq, Eq)]
pub(crate) enum Fault {
    /// The input is no list of cases.
    Input,
    /// A write failed.
    Write,
    /// Out of memory.
    Memory,
}

impl From<AllocError> for Fault {
    fn from(_: AllocError) -> Fault {
        Fault::Memory
    }
}

impl From<Failed> for Fault {
    fn from(_: Failed) -> Fault {
        Fault::Write
    }
}

// The words between single spaces, after the name of the program.
fn words_in(alloc: Global, text: &str) -> Result<Vec<String>, AllocError> {
    let mut words = Vec::new(alloc);
    words.push(String::from_str(alloc, "mscope")?)?;
    for word in text.split(' ') {
        words.push(String::from_str(alloc, word)?)?;
    }
    Ok(words)
}

// What is written for a request, as text or as JSON, and how it ends.
fn answer(
    alloc: Global,
    request: &Request<'_>,
    json: bool,
    files: &mut CaseFiles<'_>,
) -> Result<(Ending, Vec<u8>), AllocError> {
    let mut written = Vec::new(alloc);
    let mut said = Vec::new(alloc);
    let mut out = StdSink::new(&mut written);
    let mut err = StdSink::new(&mut said);
    let ending = if json {
        mscope_json(alloc, request, files, &mut out, &mut err)
    } else {
        mscope(alloc, request, files, &mut out, &mut err)
    };
    written.extend_from_slice(said.as_slice())?;
    Ok((ending, written))
}

// What is said for it, and how it ends, where the output takes nothing.
fn answer_closed(
    alloc: Global,
    request: &Request<'_>,
    files: &mut CaseFiles<'_>,
) -> Result<(Ending, Vec<u8>), AllocError> {
    let mut out = MemSink::new(alloc, 0, Vec::new(alloc))?;
    let mut said = Vec::new(alloc);
    let mut err = StdSink::new(&mut said);
    let ending = mscope(alloc, request, files, &mut out, &mut err);
    Ok((ending, said))
}

// The same of a case, by its name.
fn answer_case(
    alloc: Global,
    request: &Request<'_>,
    json: bool,
    case: &Case<'_>,
    previous: &[u8],
    answered: &[u8],
) -> Result<(Ending, Vec<u8>), AllocError> {
    let mut files = CaseFiles::new(case.script, previous, answered);
    if case.name.ends_with("/closed-output") {
        answer_closed(alloc, request, &mut files)
    } else {
        answer(alloc, request, json, &mut files)
    }
}

// The status after a text of `clap`.
fn status_of(error: &Error) -> u8 {
    if error.use_stderr() {
        Ending::Wrong.status()
    } else {
        Ending::Nothing.status()
    }
}

// The same of words. What `clap` says of words that are no request is left out.
fn run(
    alloc: Global,
    case: &Case<'_>,
    previous: &[u8],
    answered: &[u8],
) -> Result<(u8, Vec<u8>), AllocError> {
    let words = words_in(alloc, case.words)?;
    match read_words(alloc, words.as_slice()) {
        Asked::Request(request) => {
            let (ending, written) = answer_case(alloc, &request, false, case, previous, answered)?;
            Ok((ending.status(), written))
        }
        Asked::Json(request) => {
            let (ending, written) = answer_case(alloc, &request, true, case, previous, answered)?;
            Ok((ending.status(), written))
        }
        Asked::Text(error) => Ok((status_of(&error), Vec::new(alloc))),
        Asked::Memory => Err(AllocError),
    }
}

/// Does the command of each case of the input, and writes its name, its status, and what was written for it.
pub(crate) fn answer_all<K: Sink>(alloc: Global, text: &[u8], sink: &mut K) -> Result<(), Fault> {
    let mut rest = text;
    let mut previous: &[u8] = &[];
    let mut answered = Vec::new(alloc);
    while !rest.is_empty() {
        let Some((case, after)) = first_case(rest) else {
            return Err(Fault::Input);
        };
        let (status, written) = run(alloc, &case, previous, &answered)?;
        let name = case.name;
        let heading = format!(in alloc; "=== {name} {status}\n")?;
        write_all(sink, heading.as_bytes())?;
        write_all(sink, &written)?;
        previous = case.script;
        answered = written;
        rest = after;
    }
    Ok(())
}
