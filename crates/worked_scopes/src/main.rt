//! Asks `mscope` about scripts that stand one after another on standard input, over files and ends in memory, and prints what was written.
//!
//! Before each script stands a line `=== NAME LENGTH WORDS`, with its length in bytes and the words of the command, and after it a line feed. The
//! file `-` is the script, `previous` the script of the case before, and `answer` what was written for that case; there is no other. Before what
//! was written for it a line `=== NAME STATUS` is printed; first comes what was written as the answer, and then what was said as an error. The
//! output of a case whose name ends with `/closed-output` takes nothing.
#![tactic(auto)]

mod answers;
mod cases;
mod memory;

use crate::answers::answer_all;
use outside::{StdSink, StdSource, read_all};
use std::io;
use std::process::ExitCode;

/// The greatest number of bytes of the input.
const MOST_INPUT: usize = 16_777_216;

fn main(rt: HostRuntime) -> ExitCode {
    let mut source = StdSource::new(rt.reader());
    let text = match read_all(rt.alloc(), &mut source, MOST_INPUT) {
        Ok(text) => text,
        Err(_) => return ExitCode::from(1),
    };
    let mut sink = StdSink::new(io::writer(&rt));
    match answer_all(rt.alloc(), &text, &mut sink) {
        Ok(()) => ExitCode::from(0),
        Err(_) => ExitCode::from(1),
    }
}
