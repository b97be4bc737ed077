// `slots`.
ghost use Rattle.std.specs.Prelude.{◌≡◌, ◌++◌, false, IfOk, IfErr, OnOk, None, Some, flat_map};
ghost use Rattle.mem_base.specs.script.Spelling.{Text};
ghost use Rattle.mem_base.specs.script.States.{space_named};
ghost use Rattle.mem_base.specs.views.Flattened.{view_of};
ghost use Rattle.script_names.specs.Tables.{printed_names};
ghost use Rattle.mem_base.specs.lists.Every.{Every};
ghost use Rattle.view_slots.specs.Edges.{HasEnds, Keeps};
ghost use Rattle.view_slots.specs.Texts.{range_of};
ghost use Rattle.script_map.specs.Left.{all_shown};
ghost use Rattle.scope_run.specs.Scripts.{FailsOn, OfScript};
ghost use Rattle.scope_run.specs.Tables.{HasEdges, IsTable, TellsSlots, TellsSlotsIn, TellsSlotsOf, TellsTables, numbered_step, slot_number, table_text};
ghost use Rattle.scope_run.specs.declared.answers.Fault.TheVariants.{Memory};

use crate::answers::{Answer, Fault, Which, told};
use crate::differing::space_of;
use crate::views::{space_count, view_in};
use generation::Generation;
use mem_base::{Edition, FlatRange, RangeEvent, SpaceId, View};
use script_lines::Line;
use script_memory::{ToldHistory, ToldMap, follow_told};
use script_names::Names;
use script_text::{ParseFault, Script, parse};
use std::alloc::{AllocError, Global};
use std::sync::Arc;
use view_slots::{Edges, add_header, add_step, steps, table};

// Adds the edges of a space's view in a generation.
fn add_edges(
    alloc: Global,
    edges: &mut Edges,
    generation: &Generation,
    space: SpaceId,
) -> Result<(), AllocError>
    ensures found { OnOk result (Every (HasEnds edges.new) (view_of generation.now.forest space)) }
    ensures keeps { Keeps edges.old edges.new }
{
    let view = view_in(alloc, generation, space)?;
    edges.add(&view)
}

/// The edges of a space's views in all generations.
pub fn edges_of(
    alloc: Global,
    published: &[Arc<Generation, Global>],
    space: SpaceId,
) -> Result<Edges, AllocError>
    ensures { IfOk result (λ edges. HasEdges edges space (all_shown published.now)) }
{
    let mut edges = Edges::new(alloc);
    for generation in published {
        add_edges(alloc, &mut edges, generation, space)?;
    }
    Ok(edges)
}

// The range of a step.
fn range_of(step: RangeEvent) -> FlatRange
    ensures { result ≡ range_of step }
{
    match step {
        RangeEvent::Delete(range) => range,
        RangeEvent::Add(range) => range,
        RangeEvent::Keep(range) => range,
        RangeEvent::LogStart { range, .. } => range,
        RangeEvent::LogStop { range, .. } => range,
    }
}

/// The number of a slot: that of the edge at which it begins.
pub fn slot_number(edges: &Edges, range: FlatRange) -> u64
    ensures { result ≡ slot_number edges.now range }
{
    edges.number(range.start).unwrap_or(0) as u64
}

// A step, with the number of its slot.
fn add_numbered(
    text: &mut Line,
    names: &Names,
    edges: &Edges,
    step: RangeEvent,
) -> Result<(), AllocError>
    ensures { OnOk result (text.new ≡ text.old ++ numbered_step edges.now (printed_names names.now) step) }
{
    add_step(text, slot_number(edges, range_of(step)), names, step)
}

// The steps from one table to the next.
fn add_steps(
    text: &mut Line,
    names: &Names,
    edges: &Edges,
    steps: &[RangeEvent],
) -> Result<(), AllocError>
    ensures { OnOk result (text.new ≡ text.old ++ flat_map (numbered_step edges.now (printed_names names.now)) steps.now) }
{
    for step in steps {
        add_numbered(text, names, edges, *step)?;
    }
    Ok(())
}

// The table of a generation, told by the steps to it from the one before; nothing where there is none, as in a space without memory.
fn add_table(
    text: &mut Line,
    names: &Names,
    edges: &Edges,
    walk: &[RangeEvent],
    generation: &Generation,
    space: SpaceId,
) -> Result<(), AllocError>
    ensures { OnOk result (text.new ≡ text.old ++ table_text edges.now (printed_names names.now) space generation.now.number walk.now) }
{
    if walk.is_empty() {
        return Ok(());
    }
    add_header(text, names.space_name(space), generation.number())?;
    add_steps(text, names, edges, walk)
}

/// The slots of a space in a generation.
pub fn table_in(
    alloc: Global,
    names: &Names,
    edges: &Edges,
    generation: &Generation,
    space: SpaceId,
) -> Result<View, AllocError>
    requires { Every (HasEnds edges.now) (view_of generation.now.forest space) }
    ensures { IfOk result (λ new. IsTable edges.now (printed_names names.now) (view_of generation.now.forest space) new) }
{
    let view = view_in(alloc, generation, space)?;
    table(alloc, edges, &view, names, &[])
}

// The tables of a space in generations, one after another.
fn add_tables(
    alloc: Global,
    text: &mut Line,
    names: &Names,
    edges: &Edges,
    old: &View,
    published: &[Arc<Generation, Global>],
    space: SpaceId,
) -> Result<(), AllocError>
    requires { HasEdges edges.now space (all_shown published.now) }
    ensures { OnOk result ((more : Text) × (text.new ≡ text.old ++ more)
        × TellsTables edges.now (printed_names names.now) space old.now (all_shown published.now) more) }
{
    let [generation, rest @ ..] = published else {
        return Ok(());
    };
    let new = table_in(alloc, names, edges, generation, space)?;
    let walk = steps(alloc, old, &new)?;
    add_table(text, names, edges, walk.as_slice(), generation, space)?;
    add_tables(alloc, text, names, edges, &new, rest, space)?;
    Ok(())
}

// The tables of a space in all generations, from an empty one on.
fn add_space(
    alloc: Global,
    text: &mut Line,
    names: &Names,
    published: &[Arc<Generation, Global>],
    space: SpaceId,
) -> Result<(), AllocError>
    ensures { OnOk result ((more : Text) × (text.new ≡ text.old ++ more)
        × TellsSlotsOf (printed_names names.now) (all_shown published.now) (Some space) more) }
{
    let edges = edges_of(alloc, published, space)?;
    let none = View::new(Vec::new(alloc));
    add_tables(alloc, text, names, &edges, &none, published, space)?;
    Ok(())
}

// A space by its name.
fn add_named(
    alloc: Global,
    text: &mut Line,
    name: &[u8],
    map: &ToldMap,
    published: &[Arc<Generation, Global>],
) -> Result<(), AllocError>
    ensures { OnOk result ((more : Text) × (text.new ≡ text.old ++ more)
        × TellsSlotsOf map.now.state.names (all_shown published.now) (space_named map.now.state name.now) more) }
{
    match space_of(alloc, map, name)? {
        Some(space) => add_space(alloc, text, map.names(), published, space),
        None => Ok(()),
    }
}

// All spaces.
fn add_spaces(
    alloc: Global,
    text: &mut Line,
    map: &ToldMap,
    published: &[Arc<Generation, Global>],
) -> Result<(), AllocError>
    ensures { OnOk result ((more : Text) × (text.new ≡ text.old ++ more) × TellsSlotsIn map.now.state (all_shown published.now) more) }
{
    let names = map.names();
    let spaces = names.spaces();
    for number in 0..space_count(names)? {
        add_named(alloc, text, spaces.name_at(number), map, published)?;
    }
    Ok(())
}

fn text_of(alloc: Global, history: &ToldHistory) -> Result<Line, AllocError>
    ensures { IfOk result (λ text. TellsSlotsIn history.now.map.state (all_shown history.now.published.items) text) }
{
    let mut text = Line::new(alloc);
    add_spaces(alloc, &mut text, &history.map, history.published.as_slice())?;
    Ok(text)
}

fn slots_in(alloc: Global, history: &ToldHistory) -> Result<Answer, Fault>
    ensures told { IfOk result (λ a. TellsSlotsIn history.now.map.state (all_shown history.now.published.items) a.text) }
    ensures nothing { IfOk result (λ a. a.something ≡ false) }
    ensures fails { IfErr result (λ fault. fault ≡ Memory) }
{
    let text = text_of(alloc, history)?;
    Ok(told(text))
}

// The slots of a script that was read.
fn slots_of(alloc: Global, text: &[u8], script: &Script) -> Result<Answer, Fault>
    ensures told { IfOk result (λ a. TellsSlots text.now script.now a.text) }
    ensures nothing { IfOk result (λ a. a.something ≡ false) }
    ensures fails { IfErr result (λ fault. fault ≡ Memory) }
{
    match follow_told(alloc, text, script) {
        Ok(history) => {
            let answer = slots_in(alloc, &history);
            drop(history);
            answer
        }
        Err(_) => Err(Fault::Memory),
    }
}

/// The memory slots of each space in each generation that a script publishes, from the first on: of each generation the steps to its table
/// from the one before. The memory of a space is cut at the edges of its views in all generations, once and for all.
///
/// There is never something to mend. It answers `Script` where the text is no script.
pub fn slots(alloc: Global, script: &[u8]) -> Result<Answer, Fault>
    ensures told { IfOk result (λ a. OfScript script.now (λ lines. TellsSlots script.now lines a.text)) }
    ensures nothing { IfOk result (λ a. a.something ≡ false) }
    ensures fails { IfErr result (λ fault. FailsOn script.now None None fault) }
{
    match parse(alloc, script) {
        Ok(lines) => slots_of(alloc, script, &lines),
        Err(ParseFault::Bad(bad)) => Err(Fault::Script {
            which: Which::First,
            bad,
        }),
        Err(ParseFault::Memory) => Err(Fault::Memory),
    }
}
