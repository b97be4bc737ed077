// What may stand at a place of a line.
use crate::carets::{after_first, first_of};
use mem_base::Cause;
use script_lines::Line;
use script_marks::{Mark, nearest, operand_at, words_at};
use std::alloc::{AllocError, Global};

// How long a line of words may be.
const MOST_WIDTH: usize = 100;

// A word as it is told: `v0` stands for each virtual CPU.
fn told_word(word: &'static str) -> &'static str {
    if word == "v0" { "v0 to v15" } else { word }
}

// The words, with commas between them, in lines.
fn add_words(out: &mut Line, words: &[&'static str]) -> Result<(), AllocError> {
    let mut width = 0;
    for (place, word) in words.iter().enumerate() {
        let word = told_word(*word);
        if place > 0 {
            out.text(",")?;
        }
        if width > MOST_WIDTH {
            out.end()?;
            out.text("   ")?;
            width = 0;
        }
        out.text(" ")?;
        out.text(word)?;
        width = word.len().saturating_add(width).saturating_add(2);
    }
    Ok(())
}

// What may stand there: an operand, one of the words, or nothing more.
fn add_possible(
    out: &mut Line,
    operand: Option<&'static str>,
    words: &[&'static str],
) -> Result<(), AllocError> {
    out.text("may stand there:")?;
    match operand {
        Some(text) => {
            out.text(" ")?;
            out.text(text)?;
        }
        None if words.is_empty() => out.text(" nothing more")?,
        None => add_words(out, words)?,
    }
    out.end()
}

// The word that is nearest to what stands there, where it stands for a word.
fn add_nearest(
    out: &mut Line,
    cause: Cause,
    token: &[u8],
    words: &[&'static str],
) -> Result<(), AllocError> {
    if cause != Cause::Word {
        return Ok(());
    }
    let Some(word) = nearest(token, words) else {
        return Ok(());
    };
    out.text("the nearest word: ")?;
    out.text(word)?;
    out.end()
}

// The same of a token.
fn add_token(
    alloc: Global,
    out: &mut Line,
    cause: Cause,
    line: &[u8],
    mark: Mark,
) -> Result<(), AllocError> {
    let before = first_of(line, mark.start);
    let operand = operand_at(alloc, before)?;
    let words = words_at(alloc, before)?;
    let token = first_of(after_first(line, mark.start), mark.len);
    if operand.is_none() {
        add_nearest(out, cause, token, words.as_slice())?;
    }
    add_possible(out, operand, words.as_slice())
}

/// What may stand at a mark, where the cause speaks of a token.
pub(crate) fn add_choice(
    alloc: Global,
    out: &mut Line,
    cause: Cause,
    line: &[u8],
    mark: Mark,
) -> Result<(), AllocError> {
    match cause {
        Cause::Byte | Cause::Place | Cause::Long => Ok(()),
        _ => add_token(alloc, out, cause, line, mark),
    }
}
