// `diff`.
ghost use Rattle.std.specs.Prelude.{◌≡◌, ◌++◌, Some, List, IfOk, IfErr, OnOk, flat_map};
ghost use Rattle.serde_json.specs.Data.{Data};
ghost use Rattle.serde_json.specs.View.{view};
ghost use Rattle.json_build.specs.Held.{values};
ghost use Rattle.scope_run.specs.Scripts.{FailsOnBoth, FailsOnSecond, OfScript, TellsAll, told_by};
ghost use Rattle.scope_run.specs.declared.answers.Fault.TheVariants.{Memory};
ghost use Rattle.scope_json.specs.Diffs.{TellsBetween, TellsDiff, TellsFirst, alone_data, changes_of, diff_data, difference_data, second_data, space_data};
ghost use Rattle.scope_json.specs.Texts.{has_any};

use crate::answers::{Told, answer_to};
use json_build::{Fields, Items, Value};
use mem_base::{RangeEvent, SpaceId};
use scope_run::{
    Fault, ToldMap, Which, difference_of, differs, is_kept, read_told, space_count, space_of,
    stopped,
};
use scope_values::change;
use script_names::NameTable;
use std::alloc::{AllocError, Global};
use view_diff::Difference;

// A step that changes something.
fn add_change(
    alloc: Global,
    items: &mut Items,
    labels: &NameTable,
    step: RangeEvent,
) -> Result<(), AllocError>
    ensures { OnOk result (values items.new ≡ values items.old ++ changes_of labels.now.made step) }
{
    if is_kept(step) {
        return Ok(());
    }
    items.push(change(alloc, labels, step)?)
}

// The steps that change something.
fn changes_in(alloc: Global, labels: &NameTable, steps: &[RangeEvent]) -> Result<Items, AllocError>
    ensures { IfOk result (λ items. values items ≡ flat_map (changes_of labels.now.made) steps.now) }
{
    let mut items = Items::new(alloc);
    for step in steps {
        add_change(alloc, &mut items, labels, *step)?;
    }
    Ok(items)
}

// A space, where it is, and what changes in its view.
fn space_value(alloc: Global, name: &[u8], which: &str, changes: Items) -> Result<Value, AllocError>
    ensures { IfOk result (λ v. view v ≡ space_data name.now which.now (values changes)) }
{
    let mut fields = Fields::new(alloc);
    fields.name(alloc, "space", name)?;
    fields.text(alloc, "in", which)?;
    fields.value(alloc, "changes", changes.list())?;
    Ok(fields.object())
}

// A space of both scripts whose views differ.
fn add_difference(
    alloc: Global,
    items: &mut Items,
    name: &[u8],
    difference: &Difference,
) -> Result<(), AllocError>
    ensures { OnOk result (values items.new ≡ values items.old ++ difference_data name.now difference.now) }
{
    let steps = difference.walk.as_slice();
    if !differs(steps) {
        return Ok(());
    }
    let changes = changes_in(alloc, &difference.labels, steps)?;
    items.push(space_value(alloc, name, "both", changes)?)
}

// A space of both scripts.
fn add_common(
    alloc: Global,
    items: &mut Items,
    name: &[u8],
    first: &ToldMap,
    from: SpaceId,
    second: &ToldMap,
    to: SpaceId,
) -> Result<(), AllocError>
    ensures { OnOk result ((here : List Data) × (values items.new ≡ values items.old ++ here)
        × TellsBetween first.now.state second.now.state name.now (Some from) (Some to) here) }
{
    let difference = difference_of(alloc, first, from, second, to)?;
    let added = add_difference(alloc, items, name, &difference);
    drop(difference);
    added
}

// A space of one script alone.
fn add_alone(alloc: Global, items: &mut Items, name: &[u8], which: &str) -> Result<(), AllocError>
    ensures { OnOk result (values items.new ≡ values items.old ++ alone_data name.now which.now) }
{
    items.push(space_value(alloc, name, which, Items::new(alloc))?)
}

// A space of the first script, with that of the second of the same name, if there is one.
fn add_between(
    alloc: Global,
    items: &mut Items,
    name: &[u8],
    first: &ToldMap,
    from: Option<SpaceId>,
    second: &ToldMap,
    to: Option<SpaceId>,
) -> Result<(), AllocError>
    ensures { OnOk result ((here : List Data) × (values items.new ≡ values items.old ++ here)
        × TellsBetween first.now.state second.now.state name.now from to here) }
{
    match (from, to) {
        (Some(from), Some(to)) => add_common(alloc, items, name, first, from, second, to),
        (Some(_), None) => add_alone(alloc, items, name, "first"),
        (None, _) => Ok(()),
    }
}

// A space of the first script.
fn add_first(
    alloc: Global,
    items: &mut Items,
    name: &[u8],
    first: &ToldMap,
    second: &ToldMap,
) -> Result<(), AllocError>
    ensures { OnOk result ((here : List Data) × (values items.new ≡ values items.old ++ here)
        × TellsFirst first.now.state second.now.state name.now here) }
{
    let from = space_of(alloc, first, name)?;
    let to = space_of(alloc, second, name)?;
    add_between(alloc, items, name, first, from, second, to)
}

// A space of the second script, where the first has none of that name.
fn add_second(
    alloc: Global,
    items: &mut Items,
    name: &[u8],
    first: &ToldMap,
) -> Result<(), AllocError>
    ensures { OnOk result (values items.new ≡ values items.old ++ second_data first.now.state name.now) }
{
    match space_of(alloc, first, name)? {
        Some(_) => Ok(()),
        None => add_alone(alloc, items, name, "second"),
    }
}

// The spaces of the first script.
fn add_firsts(
    alloc: Global,
    items: &mut Items,
    first: &ToldMap,
    second: &ToldMap,
) -> Result<(), AllocError>
    ensures { OnOk result ((here : List Data) × (values items.new ≡ values items.old ++ here)
        × TellsAll (TellsFirst first.now.state second.now.state) first.now.state.names.spaces here) }
{
    let names = first.names();
    let spaces = names.spaces();
    for number in 0..space_count(names)? {
        add_first(alloc, items, spaces.name_at(number), first, second)?;
    }
    Ok(())
}

// The spaces that the second script has alone.
fn add_seconds(
    alloc: Global,
    items: &mut Items,
    first: &ToldMap,
    second: &ToldMap,
) -> Result<(), AllocError>
    ensures { OnOk result (values items.new
        ≡ values items.old ++ flat_map (second_data first.now.state) second.now.state.names.spaces) }
{
    let names = second.names();
    let spaces = names.spaces();
    for number in 0..space_count(names)? {
        add_second(alloc, items, spaces.name_at(number), first)?;
    }
    Ok(())
}

// The spaces of the first script, and then those of the second alone.
fn spaces_of(alloc: Global, first: &ToldMap, second: &ToldMap) -> Result<Items, AllocError>
    ensures { IfOk result (λ items. TellsDiff first.now.state second.now.state (values items)) }
{
    let mut items = Items::new(alloc);
    add_firsts(alloc, &mut items, first, second)?;
    add_seconds(alloc, &mut items, first, second)?;
    Ok(items)
}

fn told_of(alloc: Global, first: &ToldMap, second: &ToldMap) -> Result<Told, AllocError>
    ensures { IfOk result (λ t. (items : List Data) × TellsDiff first.now.state second.now.state items
        × (view t.value ≡ diff_data items) × (t.something ≡ has_any items)) }
{
    let items = spaces_of(alloc, first, second)?;
    let something = !items.is_empty();
    let mut fields = answer_to(alloc, "diff")?;
    fields.value(alloc, "spaces", items.list())?;
    Ok(Told {
        value: fields.object(),
        something,
    })
}

fn diff_in(alloc: Global, first: &ToldMap, second: &ToldMap) -> Result<Told, Fault>
    ensures told { IfOk result (λ t. (items : List Data) × TellsDiff first.now.state second.now.state items
        × (view t.value ≡ diff_data items) × (t.something ≡ has_any items)) }
    ensures fails { IfErr result (λ fault. fault ≡ Memory) }
{
    let told = told_of(alloc, first, second)?;
    Ok(told)
}

fn diff_with(alloc: Global, first: &ToldMap, second: &[u8]) -> Result<Told, Fault>
    ensures told { IfOk result (λ t. OfScript second.now (λ lines. (items : List Data) × TellsDiff first.now.state (told_by second.now lines) items
        × (view t.value ≡ diff_data items) × (t.something ≡ has_any items))) }
    ensures fails { IfErr result (λ fault. FailsOnSecond second.now fault) }
{
    match read_told(alloc, second) {
        Ok(map) => {
            let answer = diff_in(alloc, first, &map);
            drop(map);
            answer
        }
        Err(stop) => Err(stopped(Which::Second, stop)),
    }
}

/// How the views of the spaces of two scripts differ, by names.
pub(crate) fn diff(alloc: Global, first: &[u8], second: &[u8]) -> Result<Told, Fault>
    ensures told { IfOk result (λ t. OfScript first.now (λ old. OfScript second.now (λ new.
        (items : List Data) × TellsDiff (told_by first.now old) (told_by second.now new) items × (view t.value ≡ diff_data items)
        × (t.something ≡ has_any items)))) }
    ensures fails { IfErr result (λ fault. FailsOnBoth first.now second.now fault) }
{
    match read_told(alloc, first) {
        Ok(map) => {
            let answer = diff_with(alloc, &map, second);
            drop(map);
            answer
        }
        Err(stop) => Err(stopped(Which::First, stop)),
    }
}
