// `diff`.
ghost use Rattle.std.specs.Prelude.{◌≡◌, ◌++◌, Some, not, IfOk, IfErr, OnOk, flat_map};
ghost use Rattle.std.specs.List.{list_any};
ghost use Rattle.mem_base.specs.script.States.{space_named};
ghost use Rattle.mem_base.specs.script.Spelling.{Text};
ghost use Rattle.scope_run.specs.Diffs.{Compares, TellsBetween, TellsDiff, TellsFirst, alone_text, change_text, difference_text, is_kept, second_text};
ghost use Rattle.scope_run.specs.Lints.{tells_something};
ghost use Rattle.scope_run.specs.Scripts.{FailsOnBoth, FailsOnSecond, OfScript, TellsAll, told_by};
ghost use Rattle.scope_run.specs.declared.answers.Fault.TheVariants.{Memory};

use crate::answers::{Answer, Fault, Which, found, stopped};
use crate::views::{space_count, view_in};
use mem_base::{Name, RangeEvent, SpaceId};
use script_lines::Line;
use script_memory::{ToldMap, read_told};
use script_names::NameTable;
use std::alloc::{AllocError, Global};
use view_diff::{Difference, add_step, compare};

/// Whether both views show the range of a step alike.
pub fn is_kept(step: RangeEvent) -> bool
    ensures { result ≡ is_kept step }
{
    matches!(step, RangeEvent::Keep(_))
}

// The line of a step that changes something.
fn add_change(text: &mut Line, labels: &NameTable, step: RangeEvent) -> Result<(), AllocError>
    ensures { OnOk result (text.new ≡ text.old ++ change_text labels.now.made step) }
{
    if is_kept(step) {
        return Ok(());
    }
    add_step(text, labels, step)
}

// The steps that change something, a line each.
fn add_changes(text: &mut Line, labels: &NameTable, steps: &[RangeEvent]) -> Result<(), AllocError>
    ensures { OnOk result (text.new ≡ text.old ++ flat_map (change_text labels.now.made) steps.now) }
{
    for step in steps {
        add_change(text, labels, *step)?;
    }
    Ok(())
}

/// Whether some step changes something.
pub fn differs(steps: &[RangeEvent]) -> bool
    ensures { result ≡ list_any (λ step. not (is_kept step)) steps.now }
{
    steps.iter().any(|step| !is_kept(*step))
}

// `space NAME differs`, and the steps that change something; nothing where none does.
fn add_difference(text: &mut Line, name: &[u8], difference: &Difference) -> Result<(), AllocError>
    ensures { OnOk result (text.new ≡ text.old ++ difference_text name.now difference.now) }
{
    let steps = difference.walk.as_slice();
    if !differs(steps) {
        return Ok(());
    }
    text.named("space ", name)?;
    text.text(" differs")?;
    text.end()?;
    add_changes(text, &difference.labels, steps)
}

/// How the view of a space of one script differs from that of a space of another.
pub fn difference_of(
    alloc: Global,
    first: &ToldMap,
    from: SpaceId,
    second: &ToldMap,
    to: SpaceId,
) -> Result<Difference, AllocError>
    ensures { IfOk result (λ d. Compares first.now.state second.now.state from to d) }
{
    let old = view_in(alloc, first.generation(), from)?;
    let new = view_in(alloc, second.generation(), to)?;
    compare(alloc, &old, first.names(), &new, second.names())
}

// A space of both scripts.
fn add_common(
    alloc: Global,
    text: &mut Line,
    name: &[u8],
    first: &ToldMap,
    from: SpaceId,
    second: &ToldMap,
    to: SpaceId,
) -> Result<(), AllocError>
    ensures { OnOk result ((here : Text) × (text.new ≡ text.old ++ here)
        × TellsBetween first.now.state second.now.state name.now (Some from) (Some to) here) }
{
    let difference = difference_of(alloc, first, from, second, to)?;
    let added = add_difference(text, name, &difference);
    drop(difference);
    added
}

// `space NAME`, and in which script alone it is.
fn add_alone(text: &mut Line, name: &[u8], which: &str) -> Result<(), AllocError>
    ensures { OnOk result (text.new ≡ text.old ++ alone_text name.now which.now) }
{
    text.named("space ", name)?;
    text.text(which)?;
    text.end()
}

/// The space of a script with a name, as bytes.
pub fn space_of(alloc: Global, map: &ToldMap, name: &[u8]) -> Result<Option<SpaceId>, AllocError>
    ensures { IfOk result (λ space. space ≡ space_named map.now.state name.now) }
{
    let name = Name::new(name.to_vec(alloc)?);
    Ok(map.space(&name))
}

// A space of the first script, with that of the second of the same name, if there is one.
fn add_between(
    alloc: Global,
    text: &mut Line,
    name: &[u8],
    first: &ToldMap,
    from: Option<SpaceId>,
    second: &ToldMap,
    to: Option<SpaceId>,
) -> Result<(), AllocError>
    ensures { OnOk result ((here : Text) × (text.new ≡ text.old ++ here)
        × TellsBetween first.now.state second.now.state name.now from to here) }
{
    match (from, to) {
        (Some(from), Some(to)) => add_common(alloc, text, name, first, from, second, to),
        (Some(_), None) => add_alone(text, name, " is in the first script alone"),
        (None, _) => Ok(()),
    }
}

// A space of the first script.
fn add_first(
    alloc: Global,
    text: &mut Line,
    name: &[u8],
    first: &ToldMap,
    second: &ToldMap,
) -> Result<(), AllocError>
    ensures { OnOk result ((here : Text) × (text.new ≡ text.old ++ here)
        × TellsFirst first.now.state second.now.state name.now here) }
{
    let from = space_of(alloc, first, name)?;
    let to = space_of(alloc, second, name)?;
    add_between(alloc, text, name, first, from, second, to)
}

// A space of the second script: a line where the first has none of that name.
fn add_second(
    alloc: Global,
    text: &mut Line,
    name: &[u8],
    first: &ToldMap,
) -> Result<(), AllocError>
    ensures { OnOk result (text.new ≡ text.old ++ second_text first.now.state name.now) }
{
    match space_of(alloc, first, name)? {
        Some(_) => Ok(()),
        None => add_alone(text, name, " is in the second script alone"),
    }
}

// The spaces of the first script.
fn add_firsts(
    alloc: Global,
    text: &mut Line,
    first: &ToldMap,
    second: &ToldMap,
) -> Result<(), AllocError>
    ensures { OnOk result ((here : Text) × (text.new ≡ text.old ++ here)
        × TellsAll (TellsFirst first.now.state second.now.state) first.now.state.names.spaces here) }
{
    let names = first.names();
    let spaces = names.spaces();
    for number in 0..space_count(names)? {
        add_first(alloc, text, spaces.name_at(number), first, second)?;
    }
    Ok(())
}

// The spaces that the second script has alone.
fn add_seconds(
    alloc: Global,
    text: &mut Line,
    first: &ToldMap,
    second: &ToldMap,
) -> Result<(), AllocError>
    ensures { OnOk result (text.new ≡ text.old ++ flat_map (second_text first.now.state) second.now.state.names.spaces) }
{
    let names = second.names();
    let spaces = names.spaces();
    for number in 0..space_count(names)? {
        add_second(alloc, text, spaces.name_at(number), first)?;
    }
    Ok(())
}

// The spaces of the first script, and then those of the second alone.
fn text_of(alloc: Global, first: &ToldMap, second: &ToldMap) -> Result<Line, AllocError>
    ensures { IfOk result (λ text. TellsDiff first.now.state second.now.state text) }
{
    let mut text = Line::new(alloc);
    add_firsts(alloc, &mut text, first, second)?;
    add_seconds(alloc, &mut text, first, second)?;
    Ok(text)
}

fn diff_in(alloc: Global, first: &ToldMap, second: &ToldMap) -> Result<Answer, Fault>
    ensures told { IfOk result (λ a. TellsDiff first.now.state second.now.state a.text) }
    ensures something { IfOk result (λ a. a.something ≡ tells_something a.text) }
    ensures fails { IfErr result (λ fault. fault ≡ Memory) }
{
    let text = text_of(alloc, first, second)?;
    Ok(found(text))
}

fn diff_with(alloc: Global, first: &ToldMap, second: &[u8]) -> Result<Answer, Fault>
    ensures told { IfOk result (λ a. OfScript second.now (λ lines. TellsDiff first.now.state (told_by second.now lines) a.text)) }
    ensures something { IfOk result (λ a. a.something ≡ tells_something a.text) }
    ensures fails { IfErr result (λ fault. FailsOnSecond second.now fault) }
{
    match read_told(alloc, second) {
        Ok(map) => {
            let answer = diff_in(alloc, first, &map);
            drop(map);
            answer
        }
        Err(stop) => Err(stopped(Which::Second, stop)),
    }
}

/// How the views of the spaces of two scripts differ, by names: of each space that both have the ranges that one view shows and the other
/// does not, and of each other space in which script it is.
///
/// There is something to mend just where the text is not empty. It answers `Script` where a text is no script.
pub fn diff(alloc: Global, first: &[u8], second: &[u8]) -> Result<Answer, Fault>
    ensures told { IfOk result (λ a. OfScript first.now (λ old. OfScript second.now (λ new.
        TellsDiff (told_by first.now old) (told_by second.now new) a.text))) }
    ensures something { IfOk result (λ a. a.something ≡ tells_something a.text) }
    ensures fails { IfErr result (λ fault. FailsOnBoth first.now second.now fault) }
{
    match read_told(alloc, first) {
        Ok(map) => {
            let answer = diff_with(alloc, &map, second);
            drop(map);
            answer
        }
        Err(stop) => Err(stopped(Which::First, stop)),
    }
}
