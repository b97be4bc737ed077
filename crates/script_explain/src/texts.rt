// What is told of a fault, of a refused line, and of a refusal alone.
ghost use Rattle.std.specs.Prelude.{◌≡◌, ◌++◌, OnOk};
ghost use Rattle.mem_base.specs.script.RefusalLines.{bad_line, refused_line};
ghost use Rattle.script_explain.specs.Faults.{Adds, TellsFault, shown_text};
ghost use Rattle.script_explain.specs.Told.{GoesOn, advice_text, example_text, meaning_text, text_line, topic_text};

use crate::carets::add_shown;
use crate::choices::add_choice;
use crate::lines::{first_word, line_at};
use crate::topics::{Topic, topic_of};
use mem_base::{BadScript, Cause};
use script_lines::{Line, add_bad_line};
use script_marks::{Mark, mark_of};
use std::alloc::{AllocError, Global};

// A text as a line.
fn add_line(out: &mut Line, text: &str) -> Result<(), AllocError>
    ensures { OnOk result (out.new ≡ out.old ++ text_line text.now) }
{
    out.text(text)?;
    out.end()
}

// The number and words of a topic, and what is wrong.
fn add_meaning(out: &mut Line, topic: &Topic) -> Result<(), AllocError>
    ensures { OnOk result (out.new ≡ out.old ++ meaning_text topic.now) }
{
    out.text(topic.code)?;
    out.named(" ", topic.name.as_bytes())?;
    out.named(": ", topic.what.as_bytes())?;
    out.end()
}

// What to do.
fn add_advice(out: &mut Line, topic: &Topic) -> Result<(), AllocError>
    ensures { OnOk result (out.new ≡ out.old ++ advice_text topic.now) }
{
    out.text("what to do: ")?;
    out.text(topic.advice)?;
    out.end()
}

// An example with its answer.
fn add_example(out: &mut Line, topic: &Topic) -> Result<(), AllocError>
    ensures { OnOk result (out.new ≡ out.old ++ example_text topic.now) }
{
    add_line(out, "for example")?;
    add_line(out, topic.example)?;
    add_line(out, "writes")?;
    add_line(out, topic.answer)
}

/// What a refusal or a cause means: its number and words, what is wrong, what to do, and an example with its answer.
pub fn add_topic(out: &mut Line, topic: &Topic) -> Result<(), AllocError>
    ensures { OnOk result (out.new ≡ out.old ++ topic_text topic.now) }
{
    add_meaning(out, topic)?;
    add_advice(out, topic)?;
    add_example(out, topic)
}

// What the word for a fault means, and what to do.
fn add_sense(out: &mut Line, word: &[u8]) -> Result<(), AllocError> {
    if let Some(topic) = topic_of(word) {
        add_line(out, topic.what)?;
        add_advice(out, &topic)?;
    }
    Ok(())
}

// A line of a script with its number, and what the word for its fault means.
fn details(alloc: Global, text: &[u8], number: u32, word: &[u8]) -> Result<Line, AllocError> {
    let mut out = Line::new(alloc);
    out.counted("  ", u64::from(number))?;
    out.named(" | ", line_at(text, number))?;
    out.end()?;
    add_sense(&mut out, word)?;
    Ok(out)
}

fn cause_word(cause: Cause) -> &'static [u8] {
    match cause {
        Cause::Byte => b"byte",
        Cause::Word => b"word",
        Cause::Name => b"name",
        Cause::Number => b"number",
        Cause::Count => b"count",
        Cause::Place => b"place",
        Cause::Long => b"long",
    }
}

// What a cause means at a mark.
fn sense_at(cause: Cause, mark: Option<Mark>, what: &'static str) -> &'static str {
    match (cause, mark) {
        (Cause::Count, Some(mark)) if mark.len == 0 => "a token is missing at the end",
        (Cause::Count, Some(_)) => "a token is left over: the line ends before it",
        _ => what,
    }
}

// What a cause means, what may stand there, and what to do.
fn sense_of(
    alloc: Global,
    cause: Cause,
    line: &[u8],
    mark: Option<Mark>,
) -> Result<Line, AllocError> {
    let mut out = Line::new(alloc);
    if let Some(topic) = topic_of(cause_word(cause)) {
        add_line(&mut out, sense_at(cause, mark, topic.what))?;
        if let Some(mark) = mark {
            add_choice(alloc, &mut out, cause, line, mark)?;
        }
        add_advice(&mut out, &topic)?;
    }
    Ok(out)
}

// `bad script line N CAUSE`, the line with what is at fault marked, and more.
fn add_parts(
    alloc: Global,
    out: &mut Line,
    bad: BadScript,
    line: &[u8],
    mark: Option<Mark>,
    more: &[u8],
) -> Result<(), AllocError>
    ensures { OnOk result (out.new ≡ out.old ++ (bad_line bad ++ (shown_text bad.line line.now mark ++ more.now))) }
{
    add_bad_line(out, bad)?;
    add_shown(alloc, out, bad.line, line, mark)?;
    out.bytes(more)
}

/// The fault of a text: `bad script line N CAUSE`, the line with what is at fault marked, what is wrong, what may stand there, and what to
/// do.
pub fn add_fault(
    alloc: Global,
    out: &mut Line,
    text: &[u8],
    bad: BadScript,
) -> Result<(), AllocError>
    ensures { OnOk result (Adds (TellsFault text.now bad) out.old out.new) }
{
    let line = line_at(text, bad.line);
    let mark = mark_of(alloc, bad.cause, line)?;
    let sense = sense_of(alloc, bad.cause, line, mark)?;
    add_parts(alloc, out, bad, line, mark, sense.as_bytes())
}

/// The same, of which the clause tells the first line alone.
pub fn add_bad(alloc: Global, out: &mut Line, text: &[u8], bad: BadScript) -> Result<(), AllocError>
    ensures { OnOk result (GoesOn out.old (bad_line bad) out.new) }
{
    add_fault(alloc, out, text, bad)
}

// `refused N`, and the words of the refusal.
fn add_head(out: &mut Line, number: u32, words: &[u8]) -> Result<(), AllocError>
    ensures { OnOk result (out.new ≡ out.old ++ refused_line number words.now) }
{
    out.counted("refused ", u64::from(number))?;
    out.text(" ")?;
    out.bytes(words)?;
    out.end()
}

/// A refused line of a script: `refused N` with the words of the refusal, the line, what is wrong, and what to do.
pub fn add_refused(
    alloc: Global,
    out: &mut Line,
    text: &[u8],
    number: u32,
    words: &[u8],
) -> Result<(), AllocError>
    ensures { OnOk result (GoesOn out.old (refused_line number words.now) out.new) }
{
    let details = details(alloc, text, number, first_word(words))?;
    add_head(out, number, words)?;
    out.bytes(details.as_bytes())
}
