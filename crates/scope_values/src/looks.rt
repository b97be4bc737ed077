// The regions that a search looked into.
ghost use Rattle.std.specs.Prelude.{◌≡◌, ◌++◌, ◌==◌, IfOk, OnOk, flat_map, map};
ghost use Rattle.serde_json.specs.View.{view};
ghost use Rattle.json_build.specs.Held.{values};
ghost use Rattle.json_build.specs.Parts.{list_of};
ghost use Rattle.script_names.specs.Tables.{printed_names};
ghost use Rattle.scope_lines.specs.Whys.{reason_text};
ghost use Rattle.scope_values.specs.Searches.{concern, look_concern, look_data, root_concern, root_data, tried_data};

use crate::ranges::kind_text;
use find_why::{Look, Outcome, Tried};
use json_build::{Fields, Items, Value};
use mem_base::RegionId;
use script_names::Names;
use std::alloc::{AllocError, Global};

fn reason_text(outcome: Outcome) -> &'static str
    ensures { result.now ≡ reason_text outcome }
{
    match outcome {
        Outcome::Answers { at: _ } => "answers",
        Outcome::Hole { at: _ } => "has a hole there",
        Outcome::Disabled => "is disabled",
        Outcome::BeginsAfter => "begins after it",
        Outcome::EndsBefore => "ends before it",
        Outcome::TriedLater => "is tried later",
    }
}

fn tried_value(alloc: Global, names: &Names, tried: &Tried) -> Result<Value, AllocError>
    ensures { IfOk result (λ v. view v ≡ tried_data (printed_names names.now) tried.now) }
{
    let mut fields = Fields::new(alloc);
    fields.name(alloc, "region", names.region_name(tried.region))?;
    fields.text(alloc, "reason", reason_text(tried.outcome))?;
    Ok(fields.object())
}

/// The root of a space and what came of it, or `null`.
pub(crate) fn root_value(
    alloc: Global,
    names: &Names,
    root: Option<Tried>,
) -> Result<Value, AllocError>
    ensures { IfOk result (λ v. view v ≡ root_data (printed_names names.now) root) }
{
    match root {
        Some(tried) => tried_value(alloc, names, &tried),
        None => Ok(Value::Null),
    }
}

// Regions as they are tried, each with what came of it.
fn trial_list(alloc: Global, names: &Names, trials: &[Tried]) -> Result<Value, AllocError>
    ensures { IfOk result (λ v. view v ≡ list_of (map (tried_data (printed_names names.now)) trials.now)) }
{
    let mut items = Items::new(alloc);
    for tried in trials {
        items.push(tried_value(alloc, names, tried)?)?;
    }
    Ok(items.list())
}

// A region that was looked into.
fn look_value(alloc: Global, names: &Names, look: &Look) -> Result<Value, AllocError>
    ensures { IfOk result (λ v. view v ≡ look_data (printed_names names.now) look.now) }
{
    let mut fields = Fields::new(alloc);
    let kind = kind_text(names.kind_of(look.region)).as_bytes();
    fields.name(alloc, "region", names.region_name(look.region))?;
    fields.name(alloc, "kind", kind)?;
    fields.address(alloc, "offset", look.at)?;
    fields.value(alloc, "answers", Value::Bool(look.answers))?;
    let trials = trial_list(alloc, names, look.trials.as_slice())?;
    fields.value(alloc, "trials", trials)?;
    Ok(fields.object())
}

/// All regions that were looked into.
pub(crate) fn look_list(alloc: Global, names: &Names, looks: &[Look]) -> Result<Value, AllocError>
    ensures { IfOk result (λ v. view v ≡ list_of (map (look_data (printed_names names.now)) looks.now)) }
{
    let mut items = Items::new(alloc);
    for look in looks {
        items.push(look_value(alloc, names, look)?)?;
    }
    Ok(items.list())
}

// What came of a region, if it is this one.
fn add_concern(
    alloc: Global,
    items: &mut Items,
    names: &Names,
    region: RegionId,
    tried: &Tried,
) -> Result<(), AllocError>
    ensures { OnOk result (values items.new ≡ values items.old ++ concern (printed_names names.now) region tried.now) }
{
    if tried.region.0 == region.0 {
        items.push(tried_value(alloc, names, tried)?)
    } else {
        Ok(())
    }
}

/// What came of a root, if it is this region.
pub(crate) fn add_root_concern(
    alloc: Global,
    items: &mut Items,
    names: &Names,
    region: RegionId,
    root: Option<Tried>,
) -> Result<(), AllocError>
    ensures { OnOk result (values items.new ≡ values items.old ++ root_concern (printed_names names.now) region root) }
{
    match root {
        Some(tried) => add_concern(alloc, items, names, region, &tried),
        None => Ok(()),
    }
}

// What came of a region wherever it was tried inside another.
fn add_concerns(
    alloc: Global,
    items: &mut Items,
    names: &Names,
    region: RegionId,
    trials: &[Tried],
) -> Result<(), AllocError>
    ensures { OnOk result (values items.new ≡ values items.old ++ flat_map (concern (printed_names names.now) region) trials.now) }
{
    for tried in trials {
        add_concern(alloc, items, names, region, tried)?;
    }
    Ok(())
}

/// The same of all regions that were looked into.
pub(crate) fn add_look_concerns(
    alloc: Global,
    items: &mut Items,
    names: &Names,
    region: RegionId,
    looks: &[Look],
) -> Result<(), AllocError>
    ensures { OnOk result (values items.new ≡ values items.old
        ++ flat_map (look_concern (printed_names names.now) region) looks.now) }
{
    for look in looks {
        add_concerns(alloc, items, names, region, look.trials.as_slice())?;
    }
    Ok(())
}
