// What is said of a request that cannot be answered.
ghost use Rattle.std.specs.Prelude.{◌≡◌, ◌++◌, IfOk, OnOk, codes, decimal, option_map, slice_get};
ghost use Rattle.scope_run.specs.Imports.{words_of};
ghost use Rattle.scope_run.specs.Said.{bad_text, cause_words, fault_text, file_of, line_text, monitor_said, said, spaces_word, unlike, word_at};

use crate::answers::{Fault, Which};
use crate::importing::MonitorStop;
use mem_base::{BadScript, Cause};
use scope_words::Request;
use script_lines::Line;
use std::alloc::{AllocError, Global};

fn cause_words(cause: Cause) -> &'static str
    ensures { result.now ≡ cause_words cause }
{
    match cause {
        Cause::Byte => "a byte that may not stand there",
        Cause::Word => "no such word",
        Cause::Name => "no name",
        Cause::Number => "no number that may stand there",
        Cause::Count => "a word too few or too many",
        Cause::Place => "a line that may not stand there",
        Cause::Long => "longer than a script may be, which is 1048576 bytes",
    }
}

// The file of a request.
fn file_of<'a>(request: &Request<'a>, which: Which) -> &'a str
    ensures { result.now ≡ file_of request.now which }
{
    match which {
        Which::First => request.first_file(),
        Which::Second => request.second_file(),
    }
}

// ` line N`, where a line is at fault.
fn add_line_number(line: &mut Line, number: u32) -> Result<(), AllocError>
    ensures { OnOk result (line.new ≡ line.old ++ line_text number) }
{
    if number == 0 {
        return Ok(());
    }
    line.counted(" line ", u64::from(number))?;
    line.text(":")
}

// What is wrong with a script.
fn add_bad(line: &mut Line, file: &str, bad: BadScript) -> Result<(), AllocError>
    ensures { OnOk result (line.new ≡ line.old ++ bad_text file.now bad) }
{
    line.text(file)?;
    line.text(":")?;
    add_line_number(line, bad.line)?;
    line.text(" ")?;
    line.text(cause_words(bad.cause))
}

// A name or another word, and what is said of it.
fn add_word(line: &mut Line, word: &str, text: &str) -> Result<(), AllocError>
    ensures { OnOk result (line.new ≡ line.old ++ (word.now ++ text.now)) }
{
    line.text(word)?;
    line.text(text)
}

// The command of the monitor that does not print such a line.
fn unlike(which: Which) -> &'static str
    ensures { result.now ≡ unlike which }
{
    match which {
        Which::First => ": no line of info mtree -D",
        Which::Second => ": no line of info mtree -f",
    }
}

// A line of a text that has no form of the monitor's.
fn add_bad_line(line: &mut Line, file: &str, which: Which, number: u32) -> Result<(), AllocError>
    ensures { OnOk result (line.new ≡ line.old ++ (file.now ++ ((codes ": line " ++ decimal number) ++ unlike which))) }
{
    line.text(file)?;
    line.counted(": line ", u64::from(number))?;
    line.text(unlike(which))
}

// The names of the spaces that are wanted, with commas between them.
fn spaces_word<'a>(request: &Request<'a>) -> &'a str
    ensures { result.now ≡ spaces_word request.now }
{
    match request {
        Request::Import {
            spaces: Some(spaces),
            ..
        } => spaces,
        _ => "",
    }
}

// One of the words between commas, if there is such a one.
fn found_at(text: &str, at: usize) -> Option<&str>
    ensures { option_map (λ w. w.now) result ≡ slice_get (words_of text.now) at }
{
    text.split(',').nth(at)
}

// One of the words between commas.
fn word_at(text: &str, at: usize) -> &str
    ensures { result.now ≡ word_at text.now at }
{
    match found_at(text, at) {
        Some(word) => word,
        None => "",
    }
}

// A wanted name that no line of the tree's text gives to a space.
fn add_unknown(line: &mut Line, request: &Request<'_>, at: usize) -> Result<(), AllocError>
    ensures { OnOk result (line.new ≡ line.old ++ monitor_said request.now (MonitorStop.Unknown at)) }
{
    line.text(word_at(spaces_word(request), at))?;
    add_word(
        line,
        ": no address space of this name in ",
        request.first_file(),
    )
}

// What is wrong with a text of the monitor's.
fn add_monitor(line: &mut Line, request: &Request<'_>, stop: MonitorStop) -> Result<(), AllocError>
    ensures { OnOk result (line.new ≡ line.old ++ monitor_said request.now stop) }
{
    match stop {
        MonitorStop::BadLine {
            which,
            line: number,
        } => add_bad_line(line, file_of(request, which), which, number),
        MonitorStop::Long(which) => add_word(
            line,
            file_of(request, which),
            ": longer than what is read of it, which is 16777216 bytes",
        ),
        MonitorStop::NoSpaces => add_word(
            line,
            request.first_file(),
            ": no address space is named in it",
        ),
        MonitorStop::Unknown { at } => add_unknown(line, request, at),
        MonitorStop::Made(bad) => add_bad(line, "the script that was made", bad),
    }
}

fn add_fault(line: &mut Line, request: &Request<'_>, fault: Fault) -> Result<(), AllocError>
    ensures { OnOk result (line.new ≡ line.old ++ said request.now fault) }
{
    match fault {
        Fault::File(which) => add_word(line, file_of(request, which), ": cannot be read"),
        Fault::Script { which, bad } => add_bad(line, file_of(request, which), bad),
        Fault::NoSpace => add_word(
            line,
            request.space(),
            ": the script has no space of this name",
        ),
        Fault::NoRegion => add_word(
            line,
            request.region(),
            ": the script has no region of this name",
        ),
        Fault::NoAddress => add_word(
            line,
            request.address(),
            ": no address; write c8000, 0xc8000 or 800K",
        ),
        Fault::Monitor(stop) => add_monitor(line, request, stop),
        Fault::Memory => line.text("out of memory"),
    }
}

/// What is said of a request that cannot be answered, as a line.
pub(crate) fn fault_line(
    alloc: Global,
    request: &Request<'_>,
    fault: Fault,
) -> Result<Line, AllocError>
    ensures { IfOk result (λ line. line ≡ fault_text request.now fault) }
{
    let mut line = Line::new(alloc);
    line.text("mscope: ")?;
    add_fault(&mut line, request, fault)?;
    line.end()?;
    Ok(line)
}
