//! Runs scripts that stand one after another on standard input, each by the top call over ends in memory, and prints what was
//! written for each.
//!
//! Before each script stands a line `=== NAME LENGTH WORDS`, with its length in bytes and the words that it is run with, and
//! after it a line feed. Before what was written for it a line `=== NAME STATUS` is printed. `examples/put-together` makes
//! the input, and the output that is wanted, of the scripts in `examples/`.
#![tactic(auto)]

mod answers;
mod cases;

use crate::answers::answer_all;
use outside::{StdSink, StdSource, read_all};
use std::io;
use std::process::ExitCode;

/// The greatest number of bytes of the input.
const MOST_INPUT: usize = 16_777_216;

fn main(rt: HostRuntime) -> ExitCode {
    let mut source = StdSource::new(rt.reader());
    let text = match read_all(rt.alloc(), &mut source, MOST_INPUT) {
        Ok(text) => text,
        Err(_) => return ExitCode::from(1),
    };
    let mut sink = StdSink::new(io::writer(&rt));
    match answer_all(&rt, rt.alloc(), &text, &mut sink) {
        Ok(()) => ExitCode::from(0),
        Err(_) => ExitCode::from(1),
    }
}
