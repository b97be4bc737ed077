// The lines that an order's answer writes.
ghost use Rattle.std.specs.Prelude.{◌≡◌, ◌++◌, OnOk};
ghost use Rattle.mem_base.specs.declared.machine.records.DeskAnswer.TheVariants as answers;
ghost use Rattle.mem_base.specs.script.RaceLines.{answer_text, do_text};
ghost use Rattle.script_names.specs.Tables.{printed_names};

use crate::lists::add_released_lines;
use mem_base::{DeskAnswer, DeskOrder, PassId};
use script_lines::{Line, add_dirty_line, add_do_line, add_notified_line, add_refused_line};
use script_names::Names;
use std::alloc::AllocError;

// The pages that a harvest found.
fn add_pages(
    line: &mut Line,
    names: &Names,
    number: u32,
    order: &DeskOrder,
    pages: &[u64],
) -> Result<(), AllocError>
    ensures { OnOk result (line.new ≡ line.old ++ answer_text (printed_names names.now) number order.now (answers.Pages pages.now)) }
{
    match order {
        DeskOrder::Harvest { region, client } => {
            add_dirty_line(line, names.region_name(*region), *client, pages)
        }
        _ => Ok(()),
    }
}

// The value of a notifier.
fn add_value(
    line: &mut Line,
    names: &Names,
    number: u32,
    order: &DeskOrder,
    value: u64,
) -> Result<(), AllocError>
    ensures { OnOk result (line.new ≡ line.old ++ answer_text (printed_names names.now) number order.now (answers.Value value)) }
{
    match order {
        DeskOrder::Notified(notifier) => add_notified_line(line, notifier.number(), value),
        _ => Ok(()),
    }
}

/// Adds the lines that the answer to an order writes on the line of a script with this number, by the names after the order.
pub fn add_answer(
    line: &mut Line,
    names: &Names,
    number: u32,
    order: &DeskOrder,
    answer: &DeskAnswer,
) -> Result<(), AllocError>
    ensures { OnOk result (line.new ≡ line.old ++ answer_text (printed_names names.now) number order.now answer.now) }
{
    match answer {
        DeskAnswer::Refused(why) => add_refused_line(line, number, names, *why),
        DeskAnswer::Released(regions) => add_released_lines(line, names, regions.as_slice()),
        DeskAnswer::Pages(pages) => add_pages(line, names, number, order, pages.as_slice()),
        DeskAnswer::Value(value) => add_value(line, names, number, order, *value),
        _ => Ok(()),
    }
}

/// Adds the lines that the answer to `vN do` writes.
pub fn add_do_answer(
    line: &mut Line,
    names: &Names,
    number: u32,
    pass: PassId,
    answer: &DeskAnswer,
) -> Result<(), AllocError>
    ensures { OnOk result (line.new ≡ line.old ++ do_text (printed_names names.now) number pass answer.now) }
{
    match answer {
        DeskAnswer::Refused(why) => add_refused_line(line, number, names, *why),
        DeskAnswer::Called {
            applied: _,
            number: published,
        } => add_do_line(line, pass, *published),
        _ => Ok(()),
    }
}
