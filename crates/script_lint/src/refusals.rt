// Refused commands, each with the refused line that takes it along.
ghost use Rattle.std.specs.Prelude.{◌≡◌, ◌==◌, ◌++◌, OnOk, find, option_map, position, reverse};
ghost use Rattle.script_lint.specs.Refusals.{command_at, is_refused, is_unknown, lines_before, number_if_refused, refusal_text, refusals_text, since_text, taken_along_by, was_to_make};

use crate::names::{asks, made_name, made_sort};
use mem_base::{Command, Name};
use script_lines::Line;
use script_map::RefusedLine;
use std::alloc::AllocError;

/// Whether the command on this line is refused.
pub(crate) fn is_refused(refused: &[RefusedLine], number: u32) -> bool
    ensures { result ≡ is_refused refused.now number }
{
    refused.iter().any(|one| one.line() == number)
}

// Whether the words of a refusal are that this name is unknown.
fn is_unknown(words: &[u8], name: Option<&Name>) -> bool
    ensures { result ≡ is_unknown words.now (option_map (λ n. n.now) name.entry) }
{
    let Some(name) = name else {
        return false;
    };
    let (front, back) = words.split_at(words.len().min(11));
    front == b"F1 unknown ".as_slice() && back == name.as_bytes()
}

// Whether a line was to make the name that a command asks for, which is unknown by these words.
fn was_to_make(command: &Command, words: &[u8], line: &(u32, Command)) -> bool
    ensures { result ≡ was_to_make command.now words.now line.now }
{
    asks(command, made_sort(&line.1)) && is_unknown(words, made_name(&line.1))
}

// The last such line.
fn last_maker<'a>(
    before: &'a [(u32, Command)],
    command: &Command,
    words: &[u8],
) -> Option<&'a (u32, Command)>
    ensures { option_map (λ line. line.now) result ≡ find (was_to_make command.now words.now) (reverse before.now) }
{
    before
        .iter()
        .rev()
        .find(|line| was_to_make(command, words, line))
}

// The number of a line, where it is refused.
fn number_if_refused(refused: &[RefusedLine], line: Option<&(u32, Command)>) -> Option<u32>
    ensures { result ≡ number_if_refused refused.now (option_map (λ l. l.now) line.entry) }
{
    let line = line?;
    if is_refused(refused, line.0) {
        Some(line.0)
    } else {
        None
    }
}

fn index_of(lines: &[(u32, Command)], number: u32) -> Option<usize>
    ensures { result ≡ position (λ line. line.0 == number) lines.now }
{
    lines.iter().position(|line| line.0 == number)
}

// The lines before one.
fn lines_before(lines: &[(u32, Command)], number: u32) -> &[(u32, Command)]
    ensures { result.now ≡ lines_before lines.now number }
{
    match index_of(lines, number) {
        Some(index) => lines.split_at(index).0,
        None => lines,
    }
}

// The command of a line.
fn command_at(lines: &[(u32, Command)], number: u32) -> Option<&Command>
    ensures { option_map (λ c. c.now) result ≡ command_at lines.now number }
{
    let line = lines.iter().find(|line| line.0 == number)?;
    Some(&line.1)
}

/// The refused line that takes a refused command along: the last one before it that was to make the name that the command lacks.
pub fn taken_along_by(
    lines: &[(u32, Command)],
    refused: &[RefusedLine],
    one: &RefusedLine,
) -> Option<u32>
    ensures { result ≡ taken_along_by lines.now refused.now one.now }
{
    let command = command_at(lines, one.line())?;
    let before = lines_before(lines, one.line());
    number_if_refused(refused, last_maker(before, command, one.words()))
}

// Which line was to make the name.
fn add_since(out: &mut Line, line: Option<u32>) -> Result<(), AllocError>
    ensures { OnOk result (out.new ≡ out.old ++ since_text line) }
{
    let Some(number) = line else {
        return Ok(());
    };
    out.counted(", which line ", u64::from(number))?;
    out.text(" was to make")
}

// `line N is refused: WORDS`.
fn add_refusal(
    out: &mut Line,
    lines: &[(u32, Command)],
    refused: &[RefusedLine],
    one: &RefusedLine,
) -> Result<(), AllocError>
    ensures { OnOk result (out.new ≡ out.old ++ refusal_text lines.now refused.now one.now) }
{
    out.counted("line ", u64::from(one.line()))?;
    out.named(" is refused: ", one.words())?;
    add_since(out, taken_along_by(lines, refused, one))?;
    out.end()
}

/// Each refused command of a script with the words of its refusal; of a name that is unknown also the refused line that was to make it.
pub fn add_refusals(
    out: &mut Line,
    lines: &[(u32, Command)],
    refused: &[RefusedLine],
) -> Result<(), AllocError>
    ensures { OnOk result (out.new ≡ out.old ++ refusals_text lines.now refused.now) }
{
    for one in refused {
        add_refusal(out, lines, refused, one)?;
    }
    Ok(())
}
