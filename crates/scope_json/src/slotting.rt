// `slots`.
ghost use Rattle.std.specs.Prelude.{◌≡◌, ◌++◌, false, List, IfOk, IfErr, OnOk, None, Some, map};
ghost use Rattle.serde_json.specs.Data.{Data};
ghost use Rattle.serde_json.specs.View.{view};
ghost use Rattle.json_build.specs.Held.{values};
ghost use Rattle.json_build.specs.Parts.{list_of};
ghost use Rattle.mem_base.specs.script.States.{space_named};
ghost use Rattle.script_names.specs.Tables.{printed_names};
ghost use Rattle.view_slots.specs.Texts.{range_of};
ghost use Rattle.script_map.specs.Left.{all_shown};
ghost use Rattle.scope_run.specs.Scripts.{FailsOn, OfScript};
ghost use Rattle.scope_run.specs.Tables.{HasEdges, slot_number};
ghost use Rattle.scope_run.specs.declared.answers.Fault.TheVariants.{Memory};
ghost use Rattle.scope_json.specs.Tables.{TellsSlots, TellsSlotsIn, TellsSlotsOf, TellsTables, slots_data, step_data, table_data};

use crate::answers::{Told, answer_to};
use generation::Generation;
use json_build::{Fields, Items, Value};
use mem_base::{Edition, FlatRange, RangeEvent, SpaceId, View};
use scope_run::{
    Fault, ToldHistory, ToldMap, Which, edges_of, follow_told, slot_number, space_count, space_of,
    table_in,
};
use scope_values::slot;
use script_names::Names;
use script_text::{ParseFault, Script, parse};
use std::alloc::{AllocError, Global};
use std::sync::Arc;
use view_slots::{Edges, steps};

// The range of a step.
fn range_of(step: RangeEvent) -> FlatRange
    ensures { result ≡ range_of step }
{
    match step {
        RangeEvent::Delete(range) => range,
        RangeEvent::Add(range) => range,
        RangeEvent::Keep(range) => range,
        RangeEvent::LogStart { range, .. } => range,
        RangeEvent::LogStop { range, .. } => range,
    }
}

// A step, with the number of its slot.
fn step_value(
    alloc: Global,
    names: &Names,
    edges: &Edges,
    step: RangeEvent,
) -> Result<Value, AllocError>
    ensures { IfOk result (λ v. view v ≡ step_data edges.now (printed_names names.now) step) }
{
    slot(alloc, slot_number(edges, range_of(step)), names, step)
}

// The steps from one table to the next.
fn step_list(
    alloc: Global,
    names: &Names,
    edges: &Edges,
    steps: &[RangeEvent],
) -> Result<Value, AllocError>
    ensures { IfOk result (λ v. view v ≡ list_of (map (step_data edges.now (printed_names names.now)) steps.now)) }
{
    let mut items = Items::new(alloc);
    for step in steps {
        items.push(step_value(alloc, names, edges, *step)?)?;
    }
    Ok(items.list())
}

// The table of a generation, told by the steps to it from the one before; nothing where there is none, as in a space without memory.
fn add_table(
    alloc: Global,
    items: &mut Items,
    names: &Names,
    edges: &Edges,
    walk: &[RangeEvent],
    generation: &Generation,
    space: SpaceId,
) -> Result<(), AllocError>
    ensures { OnOk result (values items.new
        ≡ values items.old ++ table_data edges.now (printed_names names.now) space generation.now.number walk.now) }
{
    if walk.is_empty() {
        return Ok(());
    }
    let mut fields = Fields::new(alloc);
    fields.name(alloc, "space", names.space_name(space))?;
    fields.number(alloc, "generation", generation.number())?;
    let steps = step_list(alloc, names, edges, walk)?;
    fields.value(alloc, "steps", steps)?;
    items.push(fields.object())
}

// The tables of a space in generations, one after another.
fn add_tables(
    alloc: Global,
    items: &mut Items,
    names: &Names,
    edges: &Edges,
    old: &View,
    published: &[Arc<Generation, Global>],
    space: SpaceId,
) -> Result<(), AllocError>
    requires { HasEdges edges.now space (all_shown published.now) }
    ensures { OnOk result ((more : List Data) × (values items.new ≡ values items.old ++ more)
        × TellsTables edges.now (printed_names names.now) space old.now (all_shown published.now) more) }
{
    let [generation, rest @ ..] = published else {
        return Ok(());
    };
    let new = table_in(alloc, names, edges, generation, space)?;
    let walk = steps(alloc, old, &new)?;
    add_table(
        alloc,
        items,
        names,
        edges,
        walk.as_slice(),
        generation,
        space,
    )?;
    add_tables(alloc, items, names, edges, &new, rest, space)?;
    Ok(())
}

// The tables of a space in all generations, from an empty one on.
fn add_space(
    alloc: Global,
    items: &mut Items,
    names: &Names,
    published: &[Arc<Generation, Global>],
    space: SpaceId,
) -> Result<(), AllocError>
    ensures { OnOk result ((more : List Data) × (values items.new ≡ values items.old ++ more)
        × TellsSlotsOf (printed_names names.now) (all_shown published.now) (Some space) more) }
{
    let edges = edges_of(alloc, published, space)?;
    let none = View::new(Vec::new(alloc));
    add_tables(alloc, items, names, &edges, &none, published, space)?;
    Ok(())
}

// A space by its name.
fn add_named(
    alloc: Global,
    items: &mut Items,
    name: &[u8],
    map: &ToldMap,
    published: &[Arc<Generation, Global>],
) -> Result<(), AllocError>
    ensures { OnOk result ((more : List Data) × (values items.new ≡ values items.old ++ more)
        × TellsSlotsOf map.now.state.names (all_shown published.now) (space_named map.now.state name.now) more) }
{
    match space_of(alloc, map, name)? {
        Some(space) => add_space(alloc, items, map.names(), published, space),
        None => Ok(()),
    }
}

// All spaces.
fn add_spaces(
    alloc: Global,
    items: &mut Items,
    map: &ToldMap,
    published: &[Arc<Generation, Global>],
) -> Result<(), AllocError>
    ensures { OnOk result ((more : List Data) × (values items.new ≡ values items.old ++ more)
        × TellsSlotsIn map.now.state (all_shown published.now) more) }
{
    let names = map.names();
    let spaces = names.spaces();
    for number in 0..space_count(names)? {
        add_named(alloc, items, spaces.name_at(number), map, published)?;
    }
    Ok(())
}

fn tables_of(alloc: Global, history: &ToldHistory) -> Result<Items, AllocError>
    ensures { IfOk result (λ items. TellsSlotsIn history.now.map.state (all_shown history.now.published.items) (values items)) }
{
    let mut items = Items::new(alloc);
    add_spaces(
        alloc,
        &mut items,
        &history.map,
        history.published.as_slice(),
    )?;
    Ok(items)
}

fn told_of(alloc: Global, history: &ToldHistory) -> Result<Told, AllocError>
    ensures told { IfOk result (λ t. (items : List Data) × TellsSlotsIn history.now.map.state (all_shown history.now.published.items) items
        × (view t.value ≡ slots_data items)) }
    ensures nothing { IfOk result (λ t. t.something ≡ false) }
{
    let items = tables_of(alloc, history)?;
    let mut fields = answer_to(alloc, "slots")?;
    fields.value(alloc, "tables", items.list())?;
    Ok(Told {
        value: fields.object(),
        something: false,
    })
}

fn slots_in(alloc: Global, history: &ToldHistory) -> Result<Told, Fault>
    ensures told { IfOk result (λ t. (items : List Data) × TellsSlotsIn history.now.map.state (all_shown history.now.published.items) items
        × (view t.value ≡ slots_data items)) }
    ensures nothing { IfOk result (λ t. t.something ≡ false) }
    ensures fails { IfErr result (λ fault. fault ≡ Memory) }
{
    let told = told_of(alloc, history)?;
    Ok(told)
}

// The slots of a script that was read.
fn slots_of(alloc: Global, text: &[u8], script: &Script) -> Result<Told, Fault>
    ensures told { IfOk result (λ t. (items : List Data) × TellsSlots text.now script.now items × (view t.value ≡ slots_data items)) }
    ensures nothing { IfOk result (λ t. t.something ≡ false) }
    ensures fails { IfErr result (λ fault. fault ≡ Memory) }
{
    match follow_told(alloc, text, script) {
        Ok(history) => {
            let answer = slots_in(alloc, &history);
            drop(history);
            answer
        }
        Err(_) => Err(Fault::Memory),
    }
}

/// The memory slots of each space in each generation that a script publishes.
pub(crate) fn slots(alloc: Global, script: &[u8]) -> Result<Told, Fault>
    ensures told { IfOk result (λ t. OfScript script.now (λ lines. (items : List Data) × TellsSlots script.now lines items
        × (view t.value ≡ slots_data items))) }
    ensures nothing { IfOk result (λ t. t.something ≡ false) }
    ensures fails { IfErr result (λ fault. FailsOn script.now None None fault) }
{
    match parse(alloc, script) {
        Ok(lines) => slots_of(alloc, script, &lines),
        Err(ParseFault::Bad(bad)) => Err(Fault::Script {
            which: Which::First,
            bad,
        }),
        Err(ParseFault::Memory) => Err(Fault::Memory),
    }
}
