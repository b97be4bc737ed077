//! The program `mscope`: tools for people who debug memory maps.
//!
//! `main` hands the words of the process to `scope_words`, and the request, the files and the standard output to `scope_run`, which does all
//! the rest, or to `scope_json` where the answer is to be JSON.
#![tactic(auto)]

mod host;

use crate::host::HostFiles;
use clap::Error;
use outside::StdSink;
use scope_json::mscope_json;
use scope_run::{Ending, Request, mscope};
use scope_words::{Asked, read_words};
use std::alloc::{AllocError, Global};
use std::env::Args;
use std::io;
use std::io::ErrorKind;
use std::process::ExitCode;

// The words; none where one of them is not UTF-8.
fn words_of(alloc: Global, args: io::Result<Args>) -> Result<Vec<String>, AllocError> {
    match args {
        Ok(args) => args.collect::<Vec<String>>(alloc),
        Err(error) => match error.kind() {
            ErrorKind::OutOfMemory => Err(AllocError),
            _ => Ok(Vec::new(alloc)),
        },
    }
}

// The exit status after a text of `clap`: that of a wrong request, but for help and the version.
fn status_of(error: &Error) -> u8 {
    if error.use_stderr() {
        Ending::Wrong.status()
    } else {
        Ending::Nothing.status()
    }
}

fn answer(rt: &HostRuntime, request: &Request<'_>) -> Ending {
    let mut files = HostFiles::new(rt);
    let mut out = StdSink::new(io::writer(rt));
    let mut err = StdSink::new(rt.stderr());
    mscope(rt.alloc(), request, &mut files, &mut out, &mut err)
}

fn answer_json(rt: &HostRuntime, request: &Request<'_>) -> Ending {
    let mut files = HostFiles::new(rt);
    let mut out = StdSink::new(io::writer(rt));
    let mut err = StdSink::new(rt.stderr());
    mscope_json(rt.alloc(), request, &mut files, &mut out, &mut err)
}

fn main(rt: HostRuntime) -> ExitCode {
    let words = match words_of(rt.alloc(), std::env::args(&rt)) {
        Ok(words) => words,
        Err(_) => return ExitCode::from(Ending::Memory.status()),
    };
    match read_words(rt.alloc(), words.as_slice()) {
        Asked::Request(request) => ExitCode::from(answer(&rt, &request).status()),
        Asked::Json(request) => ExitCode::from(answer_json(&rt, &request).status()),
        Asked::Text(error) => match error.print(&rt) {
            Ok(()) => ExitCode::from(status_of(&error)),
            Err(_) => ExitCode::from(Ending::WriteFault.status()),
        },
        Asked::Memory => ExitCode::from(Ending::Memory.status()),
    }
}
