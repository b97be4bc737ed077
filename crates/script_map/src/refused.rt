// A command that was refused, by what it wrote.
ghost use Rattle.std.specs.Prelude.{◌≡◌, ◌++◌, ◌==◌, OnOk, IfOk, drop, position};
ghost use Rattle.mem_base.specs.script.Summary.{begins_with};
ghost use Rattle.script_map.specs.Refusals.{first_line, refusal_head, refused_by};

use script_lines::Line;
use std::alloc::{AllocError, Global};
use std::marker::Model;

/// A refused command: the number of its line, counted from 1, and the words of its refusal, as `F1 unknown A`.
#[derive(Debug, Drop)]
pub struct RefusedLine {
    line: u32,
    words: Vec<u8>,
}

impl Model for RefusedLine {
    ghost use Rattle.script_map.specs.Refusals.{Refused};

    ghost Value = { Refused };

    ghost view = { λ r. record { line = r.line; words = r.words.items } };
}

impl RefusedLine {
    /// The number of its line, counted from 1.
    pub fn line(&self) -> u32
        ensures { result ≡ self.now.line }
    {
        self.line
    }

    /// The words of its refusal, without a line feed.
    pub fn words(&self) -> &[u8]
        ensures { result.now ≡ self.now.words }
    {
        &self.words
    }
}

// What stands before the words of a refusal on this line.
fn head_of(alloc: Global, line: u32) -> Result<Line, AllocError>
    ensures { IfOk result (λ head. head ≡ refusal_head line) }
{
    let mut head = Line::new(alloc);
    head.counted("refused ", u64::from(line))?;
    head.text(" ")?;
    Ok(head)
}

fn begins_with(text: &[u8], front: &[u8]) -> bool
    ensures { result ≡ begins_with front.now text.now }
{
    text.split_at(text.len().min(front.len())).0 == front
}

// What stands after the first bytes, as many as a count says.
fn after_first(text: &[u8], count: usize) -> &[u8]
    ensures { result.now ≡ drop count text.now }
{
    text.split_at(text.len().min(count)).1
}

fn line_end(text: &[u8]) -> Option<usize>
    ensures { result ≡ position (λ b. b == 10) text.now }
{
    text.iter().position(|byte| *byte == b'\n')
}

// What stands before the first line feed.
fn first_line(text: &[u8]) -> &[u8]
    ensures { result.now ≡ first_line text.now }
{
    match line_end(text) {
        Some(end) => text.split_at(end).0,
        None => text,
    }
}

/// Adds the refusal with which what a command wrote begins, if it does.
pub(crate) fn note_refusal(
    alloc: Global,
    refused: &mut Vec<RefusedLine>,
    line: u32,
    said: &[u8],
) -> Result<(), AllocError>
    ensures { OnOk result (refused.new.items ≡ refused.old.items ++ refused_by line said.now) }
{
    let head = head_of(alloc, line)?;
    let front = head.as_bytes();
    if !begins_with(said, front) {
        return Ok(());
    }
    let words = first_line(after_first(said, front.len())).to_vec(alloc)?;
    refused.push(RefusedLine { line, words })?;
    Ok(())
}
