// The steps from one view, or one table of slots, to another.
ghost use Rattle.std.specs.Prelude.{◌≡◌, IfOk};
ghost use Rattle.serde_json.specs.View.{view};
ghost use Rattle.script_names.specs.Tables.{printed_names};
ghost use Rattle.view_slots.specs.Texts.{range_of};
ghost use Rattle.scope_values.specs.Steps.{change_data, slot_data, step_word};

use crate::ranges::{add_labelled, add_range};
use json_build::{Fields, Value};
use mem_base::{FlatRange, RangeEvent};
use script_names::{NameTable, Names};
use std::alloc::{AllocError, Global};

fn step_word(step: RangeEvent) -> &'static str
    ensures { result.now ≡ step_word step }
{
    match step {
        RangeEvent::Delete(_) => "goes",
        RangeEvent::Add(_) => "comes",
        RangeEvent::Keep(_) => "stays",
        RangeEvent::LogStart { .. } | RangeEvent::LogStop { .. } => "log",
    }
}

fn range_of(step: RangeEvent) -> FlatRange
    ensures { result ≡ range_of step }
{
    match step {
        RangeEvent::Delete(range) => range,
        RangeEvent::Add(range) => range,
        RangeEvent::Keep(range) => range,
        RangeEvent::LogStart { range, .. } => range,
        RangeEvent::LogStop { range, .. } => range,
    }
}

/// A step between the views of two scripts, whose leaves are told by labels: what comes of a range, and the range.
pub fn change(alloc: Global, labels: &NameTable, step: RangeEvent) -> Result<Value, AllocError>
    ensures { IfOk result (λ v. view v ≡ change_data labels.now.made step) }
{
    let mut fields = Fields::new(alloc);
    fields.text(alloc, "step", step_word(step))?;
    add_labelled(alloc, &mut fields, labels, range_of(step))?;
    Ok(fields.object())
}

/// A step between two tables of slots: what comes of a slot, its number, and its range.
pub fn slot(
    alloc: Global,
    number: u64,
    names: &Names,
    step: RangeEvent,
) -> Result<Value, AllocError>
    ensures { IfOk result (λ v. view v ≡ slot_data number (printed_names names.now) step) }
{
    let mut fields = Fields::new(alloc);
    fields.text(alloc, "step", step_word(step))?;
    fields.number(alloc, "slot", number)?;
    add_range(alloc, &mut fields, names, range_of(step))?;
    Ok(fields.object())
}
