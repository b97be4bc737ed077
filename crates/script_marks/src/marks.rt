// Where a line is at fault.
ghost use Rattle.std.specs.Prelude.{◌≡◌, ◌<◌, ◌==◌, IfOk, IfSome, MatchOption, length, position, take, not};
ghost use Rattle.mem_base.specs.script.Lines.{is_gap, may_stand, uncommented};
ghost use Rattle.script_marks.specs.Marks.{Fails, IsShort, Marks, MarksPart, part_of};
ghost use Rattle.script_marks.specs.declared.marks.Part.TheVariants.{Byte};

use crate::openings::{is_short, opens};
use mem_base::Cause;
use std::alloc::{AllocError, Global};

/// The bytes of a line that are at fault: the index of the first, and how many. None where a token is missing.
#[derive(Clone, Copy, Debug, PartialEq, Eq)]
pub struct Mark {
    pub start: usize,
    pub len: usize,
}

// Which part of a script a cause speaks of.
#[derive(Clone, Copy, Debug, PartialEq, Eq)]
enum Part {
    // A byte of a line.
    Byte,
    // A line that may not stand where it does.
    Line,
    // A token of a line.
    Token,
    // The text as a whole.
    Whole,
}

// Where the first space or tab stands.
fn gap_of(text: &[u8]) -> Option<usize>
    ensures value { result ≡ position is_gap text.now }
    ensures bound { IfSome result (λ i. i < length text.now) }
{
    text.iter().position(|byte| *byte == b' ' || *byte == b'\t')
}

// The first bytes, as many as a count says.
fn first_of(text: &[u8], count: usize) -> &[u8]
    ensures { result.now ≡ take count text.now }
{
    text.split_at(text.len().min(count)).0
}

// The token at which the grammar fails, in a line without its comment.
fn grammar_mark(alloc: Global, text: &[u8]) -> Result<Mark, AllocError>
    requires { IsShort text.now }
    ensures { IfOk result (λ m. Fails text.now m) }
{
    let mut start = 0;
    let mut rest = text;
    while let Some(len) = gap_of(rest) {
        let open_line = opens(alloc, first_of(text, start + len))?;
        if !open_line {
            return Ok(Mark { start, len });
        }
        rest = rest.split_at(len + 1).1;
        start += len + 1;
    }
    let len = rest.len();
    let open_line = opens(alloc, text)?;
    if open_line {
        return Ok(Mark {
            start: text.len(),
            len: 0,
        });
    }
    Ok(Mark { start, len })
}

fn may_stand(byte: u8) -> bool
    ensures { result ≡ may_stand byte }
{
    byte == b'\t' || (byte >= 32 && byte <= 126)
}

fn bad_byte(text: &[u8]) -> Option<usize>
    ensures { result ≡ position (λ b. not (may_stand b)) text.now }
{
    text.iter().position(|byte| !may_stand(*byte))
}

// The first byte that may not stand.
fn byte_mark(text: &[u8]) -> Option<Mark>
    ensures { MarksPart Byte text.now result }
{
    match bad_byte(text) {
        Some(start) => Some(Mark { start, len: 1 }),
        None => None,
    }
}

fn hash_of(line: &[u8]) -> Option<usize>
    ensures { result ≡ position (λ b. b == 35) line.now }
{
    line.iter().position(|byte| *byte == b'#')
}

// What stands before the first `#`.
fn uncommented(line: &[u8]) -> &[u8]
    ensures { result.now ≡ uncommented line.now }
{
    match hash_of(line) {
        Some(end) => line.split_at(end).0,
        None => line,
    }
}

// The token at which the grammar fails, where the text is looked at.
fn token_mark(alloc: Global, text: &[u8]) -> Result<Option<Mark>, AllocError>
    ensures { IfOk result (λ mark. MatchOption mark (IsShort text.now → ⊥) (λ m. Fails text.now m)) }
{
    if !is_short(text) {
        return Ok(None);
    }
    let mark = grammar_mark(alloc, text)?;
    Ok(Some(mark))
}

fn part_of(cause: Cause) -> Part
    ensures { result ≡ part_of cause }
{
    match cause {
        Cause::Byte => Part::Byte,
        Cause::Place => Part::Line,
        Cause::Long => Part::Whole,
        Cause::Word | Cause::Name | Cause::Number | Cause::Count => Part::Token,
    }
}

// What is marked in a line without its comment.
fn part_mark(alloc: Global, part: Part, text: &[u8]) -> Result<Option<Mark>, AllocError>
    ensures { IfOk result (λ mark. MarksPart part text.now mark) }
{
    match part {
        Part::Byte => Ok(byte_mark(text)),
        Part::Line => Ok(Some(Mark {
            start: 0,
            len: text.len(),
        })),
        Part::Token => {
            let mark = token_mark(alloc, text)?;
            Ok(mark)
        }
        Part::Whole => Ok(None),
    }
}

/// What is at fault in a line with this cause, if the cause speaks of a part of a line.
pub fn mark_of(alloc: Global, cause: Cause, line: &[u8]) -> Result<Option<Mark>, AllocError>
    ensures { IfOk result (λ mark. Marks cause (uncommented line.now) mark) }
{
    let mark = part_mark(alloc, part_of(cause), uncommented(line))?;
    Ok(mark)
}
