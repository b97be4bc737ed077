// Lines and words of a text.
ghost use Rattle.std.specs.Prelude.{◌≡◌, ◌<◌, ◌==◌, IfSome, length, position};
ghost use Rattle.std.specs.List.{slice_split};
ghost use Rattle.mem_base.specs.script.Lines.{without_return};
ghost use Rattle.script_explain.specs.Faults.{line_at, part_at};

// Where the first line ends.
fn line_end(text: &[u8]) -> Option<usize>
    ensures value { result ≡ position (λ b. b == 10) text.now }
    ensures bound { IfSome result (λ i. i < length text.now) }
{
    text.iter().position(|byte| *byte == b'\n')
}

// The line without a carriage return at its end.
fn without_return(line: &[u8]) -> &[u8]
    ensures { result.now ≡ without_return line.now }
{
    if line.last() == Some(&b'\r') {
        line.split_at(line.len() - 1).0
    } else {
        line
    }
}

// The line with this number, counted from 0, without what ends it; empty where there is none.
fn line_of(text: &[u8], number: u32) -> &[u8]
    ensures { result.now ≡ part_at number (slice_split (λ b. b == 10) text.now) }
{
    let Some(end) = line_end(text) else {
        return if number == 0 { text } else { &[] };
    };
    let (line, rest) = text.split_at(end);
    if number == 0 {
        return without_return(line);
    }
    line_of(rest.split_at(1).1, number - 1)
}

/// The line with this number, counted from 1, without what ends it; empty where there is none.
pub(crate) fn line_at(text: &[u8], number: u32) -> &[u8]
    ensures { result.now ≡ line_at number text.now }
{
    line_of(text, number.saturating_sub(1))
}

/// What stands before the first space.
pub(crate) fn first_word(text: &[u8]) -> &[u8] {
    match text.iter().position(|byte| *byte == b' ') {
        Some(end) => text.get(..end).unwrap_or(text),
        None => text,
    }
}
