// The lines of a text that end with the comment ` # memory`.
ghost use Rattle.std.specs.Prelude.{◌≡◌, ◌==◌, IfOk, position};
ghost use Rattle.mem_base.specs.script.Lines.{without_return};
ghost use Rattle.script_memory.specs.Comments.{ends_so, is_commented, is_commented_at, lines_commented};

use std::alloc::{AllocError, Global};

// The line without a carriage return at its end.
fn without_return(line: &[u8]) -> &[u8]
    ensures { result.now ≡ without_return line.now }
{
    if line.last() == Some(&b'\r') {
        line.split_at(line.len() - 1).0
    } else {
        line
    }
}

// Whether a text ends with the comment.
fn ends_so(text: &[u8]) -> bool
    ensures { result ≡ ends_so text.now }
{
    let end = b" # memory".as_slice();
    text.len() >= end.len() && text.split_at(text.len() - end.len()).1 == end
}

// Whether a line ends with the comment.
fn is_commented(line: &[u8]) -> bool
    ensures { result ≡ is_commented line.now }
{
    ends_so(without_return(line))
}

// Where the first line ends.
fn line_end(text: &[u8]) -> Option<usize>
    ensures { result ≡ position (λ b. b == 10) text.now }
{
    text.iter().position(|byte| *byte == b'\n')
}

/// Of each line of a text, by its number, whether it ends with the comment. Lines are counted from 1: there is no line 0.
pub(crate) fn lines_commented(alloc: Global, text: &[u8]) -> Result<Vec<bool>, AllocError>
    ensures { IfOk result (λ lines. lines.items ≡ lines_commented text.now) }
{
    let mut lines = Vec::new(alloc);
    lines.push(false)?;
    let mut rest = text;
    while let Some(end) = line_end(rest) {
        let (line, after) = rest.split_at(end);
        lines.push(is_commented(line))?;
        rest = after.split_at(1).1;
    }
    lines.push(is_commented(rest))?;
    Ok(lines)
}

/// Whether the line with a number ends with the comment.
pub(crate) fn is_commented_at(lines: &[bool], number: u32) -> bool
    ensures { result ≡ is_commented_at lines.now number }
{
    lines.get(number as usize).copied().unwrap_or(false)
}
