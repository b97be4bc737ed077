// What the lines of a pass wrote, where none of them gave an order to the desk.
ghost use Rattle.std.specs.Prelude.{◌≡◌, ◌++◌, OnOk};
ghost use Rattle.std.specs.List.{list_any};
ghost use Rattle.pass_lines.specs.declared.answers.LineAnswer.TheVariants.{Read};
ghost use Rattle.pass_lines.specs.Texts.{answer_text};
ghost use Rattle.race_block.specs.Resolving.{tasks_in};
ghost use Rattle.race_block.specs.Texts.{IsTextOf, gave_order, plain_text, plain_texts, refusal};

use crate::few::FewBytes;
use crate::tasks::{BlockLine, LineGot, PassLines, PassTask};
use mem_base::{Access, PassId};
use pass_lines::LineAnswer;
use race_lines::add_name_refused;
use script_lines::{
    Line, add_dma_line, add_enter_line, add_leave_line, add_read_line, add_write_line,
};
use std::alloc::{AllocError, Global};

/// Adds the refusal of a line by one of its names.
pub fn add_refusal(text: &mut Line, number: u32, task: &PassTask<'_>) -> Result<(), AllocError>
    ensures { OnOk result (text.new ≡ text.old ++ refusal number task.now) }
{
    match task {
        PassTask::Refused(why) => add_name_refused(text, number, why),
        _ => Ok(()),
    }
}

/// Adds the line of an answer that a pass got from the machine.
pub fn add_answer(text: &mut Line, pass: PassId, answer: &LineAnswer) -> Result<(), AllocError>
    ensures { OnOk result (text.new ≡ text.old ++ answer_text pass answer.now) }
{
    match answer {
        LineAnswer::Entered(generation) => add_enter_line(text, pass, *generation),
        LineAnswer::Left => add_leave_line(text, pass),
        LineAnswer::Read { access, bytes } => add_read_line(text, pass, *access, bytes.as_slice()),
        LineAnswer::Wrote(access) => add_write_line(text, pass, *access),
        LineAnswer::Copied(access) => add_dma_line(text, pass, *access),
    }
}

/// Adds the line of a read of few bytes.
pub fn add_few(
    text: &mut Line,
    pass: PassId,
    access: Access,
    bytes: &FewBytes,
) -> Result<(), AllocError>
    ensures { OnOk result (text.new ≡ text.old ++ answer_text pass (Read access bytes.now)) }
{
    add_read_line(text, pass, access, bytes.as_slice())
}

/// Adds what a line of a pass wrote that gave no order.
pub(crate) fn add_plain(
    text: &mut Line,
    pass: PassId,
    line: &BlockLine<'_>,
    got: &LineGot,
) -> Result<(), AllocError>
    ensures { OnOk result (text.new ≡ text.old ++ plain_text pass line.now got.now) }
{
    match got {
        LineGot::Refused => add_refusal(text, line.number, &line.task),
        LineGot::Ordered => Ok(()),
        LineGot::ReadFew { access, bytes } => add_few(text, pass, *access, bytes),
        LineGot::Answered(answer) => add_answer(text, pass, answer),
    }
}

// Adds what such lines wrote, as many as were done.
fn add_plain_lines(
    text: &mut Line,
    pass: PassId,
    lines: &[BlockLine<'_>],
    got: &[LineGot],
) -> Result<(), AllocError>
    ensures { OnOk result (text.new ≡ text.old ++ plain_texts pass lines.now got.now) }
{
    for i in 0..got.len() {
        if i >= lines.len() {
            return Ok(());
        }
        add_plain(text, pass, &lines[i], &got[i])?;
    }
    Ok(())
}

// Whether a line gave an order.
fn gave_order(got: &LineGot) -> bool
    ensures { result ≡ gave_order got.now }
{
    match got {
        LineGot::Ordered => true,
        _ => false,
    }
}

// Whether any line gave an order.
fn any_gave_order(all: &[LineGot]) -> bool
    ensures { result ≡ list_any gave_order all.now }
{
    for got in all {
        if gave_order(got) {
            return true;
        }
    }
    false
}

/// The text of what the lines of a pass wrote, as many as were done. There is none where a line gave an order: it takes the names at the end of
/// the block, and what listeners were told; and none where memory runs out.
pub(crate) fn text_of(
    alloc: Global,
    pass: PassId,
    lines: &[BlockLine<'_>],
    got: &[LineGot],
) -> Option<Line>
    ensures { IsTextOf pass lines.now got.now result }
{
    if any_gave_order(got) {
        return None;
    }
    let mut text = Line::new(alloc);
    match add_plain_lines(&mut text, pass, lines, got) {
        Ok(()) => Some(text),
        Err(_) => None,
    }
}

/// The tasks of a pass's lines.
pub fn tasks_in<'l, 'a>(lines: &'l PassLines<'a, '_>) -> &'l [BlockLine<'a>]
    ensures { result.now ≡ tasks_in lines.now }
{
    match lines {
        PassLines::Unresolved { lines: _, names: _ } => &[],
        PassLines::Resolved(tasks) => tasks.as_slice(),
    }
}
