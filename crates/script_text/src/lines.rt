// A line of a script: its comment, its bytes, its tokens.
ghost use Rattle.std.specs.Prelude.{◌≡◌, ◌==◌, position};
ghost use Rattle.std.specs.List.{list_all};
ghost use Rattle.mem_base.specs.script.Lines.{line_of, may_stand, uncommented, without_return};
ghost use Rattle.script_text.specs.Reads.{Reads};

use crate::forms::command;
use crate::stops::LineStop;
use crate::tokens::first_token;
use mem_base::{Cause, Command};
use std::alloc::Global;

fn may_stand(byte: u8) -> bool
    ensures { result ≡ may_stand byte }
{
    byte == b'\t' || (byte >= 32 && byte <= 126)
}

fn all_may_stand(text: &[u8]) -> bool
    ensures { result ≡ list_all may_stand text.now }
{
    text.iter().all(|byte| may_stand(*byte))
}

/// The line without a carriage return at its end.
pub fn without_return(line: &[u8]) -> &[u8]
    ensures { result.now ≡ without_return line.now }
{
    if line.last() == Some(&b'\r') {
        line.split_at(line.len() - 1).0
    } else {
        line
    }
}

fn hash_of(line: &[u8]) -> Option<usize>
    ensures { result ≡ position (λ b. b == 35) line.now }
{
    line.iter().position(|byte| *byte == b'#')
}

// What stands before the first `#`.
fn uncommented(line: &[u8]) -> &[u8]
    ensures { result.now ≡ uncommented line.now }
{
    match hash_of(line) {
        Some(end) => line.split_at(end).0,
        None => line,
    }
}

/// The command of a line, none where it is blank.
pub fn line_of(alloc: Global, line: &[u8]) -> Result<Option<Command>, LineStop>
    ensures { Reads result (line_of line.now) }
{
    let text = uncommented(line);
    if !all_may_stand(text) {
        return Err(LineStop::Bad(Cause::Byte));
    }
    match first_token(text) {
        Some((word, rest)) => Ok(Some(command(alloc, word, rest)?)),
        None => Ok(None),
    }
}
