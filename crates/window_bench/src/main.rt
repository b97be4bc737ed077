//! How long mapped windows take, beside the same bytes moved by hand.
//!
//! Standard error has the times, in nanoseconds, each the mean of the 256 pages of a memory of one megabyte and the least of a hundred
//! rounds: a page got from an open window, and put into one; the same number of words loaded, and stored, one by one by atomic steps,
//! with the same bytes; as many bytes copied; a page got, and put, by a window that is opened for it and closed; a window of 64 bytes
//! opened and closed; and 8 bytes read by an access.
//! Standard output is the same in every run. It stands apart from `bench`, whose parts stand on nearly all crates.
#![tactic(auto)]

mod times;
mod windows;

use crate::windows::run_windows;
use std::process::ExitCode;

/// How often each is timed.
const ROUNDS: u32 = 100;

fn main(rt: HostRuntime) -> ExitCode {
    match run_windows(rt, &rt, ROUNDS) {
        Ok(()) => ExitCode::from(0),
        Err(_) => ExitCode::from(1),
    }
}
