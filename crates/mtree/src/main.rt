//! The program `mtree`: it reads a script, does its commands over the memory map of a machine, and writes what
//! they answer.
//!
//! `main` hands the words, the standard input and the standard output of the process to the top call (`top_call`), which does
//! all the rest.
//!
//! Its tests show what no clause says: the top call over ends in memory that fail, give little or take little; that threads which are started
//! at once go on beside each other and end; and that a race which has all memory that it asks for is done. What is written for scripts is
//! tested by the program `worked_scripts`.
#![tactic(auto)]

#[cfg(test)]
mod ends;
#[cfg(test)]
mod gates;
#[cfg(test)]
mod races;
#[cfg(test)]
mod rows;
#[cfg(test)]
mod runs;

use outside::{StdSink, StdSource};
use std::alloc::{AllocError, Global};
use std::env::Args;
use std::io;
use std::io::ErrorKind;
use std::process::ExitCode;
use top_call::{Ending, exit_code};

// The words after the program's name; none where one of them is not UTF-8, which no form of words has.
fn words_of(alloc: Global, args: io::Result<Args>) -> Result<Vec<String>, AllocError> {
    match args {
        Ok(args) => args.skip(1).collect::<Vec<String>>(alloc),
        Err(error) => match error.kind() {
            ErrorKind::OutOfMemory => Err(AllocError),
            _ => Ok(Vec::new(alloc)),
        },
    }
}

fn main(rt: HostRuntime) -> ExitCode {
    let words = match words_of(rt.alloc(), std::env::args(&rt)) {
        Ok(words) => words,
        Err(_) => return ExitCode::from(Ending::Memory.status()),
    };
    let mut source = StdSource::new(rt.reader());
    let mut sink = StdSink::new(io::writer(&rt));
    exit_code(&rt, rt.alloc(), words.as_slice(), &mut source, &mut sink)
}
