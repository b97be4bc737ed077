// What a block writes, after it: the desk's lines, each pass's, and where what an actor got differs from the record.
ghost use Rattle.std.specs.Prelude.{◌≡◌, ◌++◌, false, flat_map, OnOk};
ghost use Rattle.std.specs.List.{list_any};
ghost use Rattle.mem_base.specs.script.Race.{differs_line};
ghost use Rattle.mem_base.specs.script.RaceLines.{entry_at, said_text};
ghost use Rattle.race_block.specs.declared.blocks.BlockActor.TheVariants.{Pass};
ghost use Rattle.race_block.specs.Texts.{line_said, lines_said, ordered_said, taken_by};
ghost use Rattle.race_seats.specs.Ran.{is_out_of_memory};
ghost use Rattle.race_seats.specs.Seats.{IsKnown};
ghost use Rattle.race_seats.specs.Texts.{actor_said, actors_said, names_now};
ghost use Rattle.script_names.specs.Tables.{printed_names};

use mem_base::{DeskEntry, Differs, ListenerEvent, ListenerId, PassId};
use race_block::{
    BlockActor, BlockLine, Clerk, LineGot, PassActor, add_answer, add_few, add_refusal, tasks_in,
};
use race_lines::{
    KnownNames, LineSaid, add_differs_line, add_do_answer, add_told_lines, delivered_between,
};
use script_lines::Line;
use script_names::Names;
use std::alloc::AllocError;

// The lines that the order of a pass wrote, by the entry at a place of its clerk's list.
fn add_ordered(
    text: &mut Line,
    names: &Names,
    journal: &[(ListenerId, ListenerEvent)],
    number: u32,
    pass: PassId,
    entries: &[DeskEntry],
    at: usize,
) -> Result<(), AllocError>
    ensures { OnOk result (text.new ≡ text.old ++ said_text (printed_names names.now) journal.now
        (ordered_said (printed_names names.now) number pass (entry_at entries.now at))) }
{
    if at >= entries.len() {
        return Ok(());
    }
    let entry = &entries[at];
    add_do_answer(text, names, number, pass, &entry.answer)?;
    add_told_lines(
        text,
        names,
        delivered_between(journal, entry.from, entry.to),
    )
}

// What a line of a pass wrote.
fn add_line(
    text: &mut Line,
    names: &Names,
    journal: &[(ListenerId, ListenerEvent)],
    pass: PassId,
    line: &BlockLine<'_>,
    got: &LineGot,
    entries: &[DeskEntry],
    at: usize,
) -> Result<(), AllocError>
    ensures { OnOk result (text.new ≡ text.old ++ said_text (printed_names names.now) journal.now
        (line_said (printed_names names.now) pass line.now got.now (entry_at entries.now at))) }
{
    match got {
        LineGot::Refused => add_refusal(text, line.number, &line.task),
        LineGot::Ordered => add_ordered(text, names, journal, line.number, pass, entries, at),
        LineGot::ReadFew { access, bytes } => add_few(text, pass, *access, bytes),
        LineGot::Answered(answer) => add_answer(text, pass, answer),
    }
}

// How many entries of its clerk's list are a line's.
fn taken_by(got: &LineGot) -> usize
    ensures { result ≡ taken_by got.now }
{
    match got {
        LineGot::Ordered => 1,
        _ => 0,
    }
}

// What the lines of a pass wrote, as many as were done.
fn add_lines(
    text: &mut Line,
    names: &Names,
    journal: &[(ListenerId, ListenerEvent)],
    pass: PassId,
    lines: &[BlockLine<'_>],
    got: &[LineGot],
    entries: &[DeskEntry],
) -> Result<(), AllocError>
    ensures { OnOk result (text.new ≡ text.old ++ flat_map (said_text (printed_names names.now) journal.now)
        (lines_said (printed_names names.now) pass lines.now got.now entries.now)) }
{
    let mut at = 0;
    for i in 0..got.len() {
        if i >= lines.len() {
            return Ok(());
        }
        add_line(text, names, journal, pass, &lines[i], &got[i], entries, at)?;
        at += taken_by(&got[i]);
    }
    Ok(())
}

// What the lines of the desk wrote.
fn add_said(
    text: &mut Line,
    names: &Names,
    journal: &[(ListenerId, ListenerEvent)],
    said: &[LineSaid],
) -> Result<(), AllocError>
    ensures { OnOk result (text.new ≡ text.old ++ flat_map (said_text (printed_names names.now) journal.now) said.now) }
{
    for line in said {
        line.add_text(text, names, journal)?;
    }
    Ok(())
}

// What the lines of a pass wrote: the text that it has made of them, or else, line by line.
fn add_pass(
    text: &mut Line,
    names: &Names,
    journal: &[(ListenerId, ListenerEvent)],
    pass: &PassActor<'_, '_>,
    clerk: &Clerk,
) -> Result<(), AllocError>
    ensures { OnOk result (text.new ≡ text.old ++ actor_said (printed_names names.now) journal.now (Pass pass.now) clerk.now) }
{
    match &pass.text {
        Some(own) => {
            text.bytes(own.as_bytes())?;
            Ok(())
        }
        None => add_lines(
            text,
            names,
            journal,
            pass.vcpu.id(),
            tasks_in(&pass.lines),
            pass.got.as_slice(),
            clerk.got(),
        ),
    }
}

// What the lines of an actor wrote.
fn add_actor(
    text: &mut Line,
    names: &Names,
    journal: &[(ListenerId, ListenerEvent)],
    actor: &BlockActor<'_, '_>,
    clerk: &Clerk,
) -> Result<(), AllocError>
    ensures { OnOk result (text.new ≡ text.old ++ actor_said (printed_names names.now) journal.now actor.now clerk.now) }
{
    match actor {
        BlockActor::Desk(desk) => add_said(text, names, journal, desk.said.as_slice()),
        BlockActor::Pass(pass) => add_pass(text, names, journal, pass, clerk),
        BlockActor::Gone => Ok(()),
    }
}

// What the lines of all actors wrote, each with its clerk.
fn add_actors(
    text: &mut Line,
    names: &Names,
    journal: &[(ListenerId, ListenerEvent)],
    actors: &[BlockActor<'_, '_>],
    clerks: &[Clerk],
) -> Result<(), AllocError>
    ensures { OnOk result (text.new ≡ text.old ++ actors_said (printed_names names.now) journal.now actors.now clerks.now) }
{
    for i in 0..actors.len() {
        if i >= clerks.len() {
            return Ok(());
        }
        add_actor(text, names, journal, &actors[i], &clerks[i])?;
    }
    Ok(())
}

// The same, by the names that the desk has made.
fn add_by_desk(
    text: &mut Line,
    journal: &[(ListenerId, ListenerEvent)],
    actors: &[BlockActor<'_, '_>],
    clerks: &[Clerk],
) -> Result<(), AllocError>
    requires known { IsKnown None actors.now }
    ensures { OnOk result (text.new ≡ text.old ++ actors_said (names_now None actors.now) journal.now actors.now clerks.now) }
{
    match actors.first() {
        Some(BlockActor::Desk(desk)) => {
            add_actors(text, desk.known.names(), journal, actors, clerks)
        }
        _ => unreachable!(),
    }
}

// Whether memory ran out for an actor.
fn is_out_of_memory(actor: &BlockActor<'_, '_>) -> bool
    ensures { result ≡ is_out_of_memory actor.now }
{
    match actor {
        BlockActor::Desk(desk) => desk.out_of_memory,
        BlockActor::Pass(pass) => pass.out_of_memory,
        BlockActor::Gone => false,
    }
}

// Whether memory ran out for any of them.
fn any_out_of_memory(actors: &[BlockActor<'_, '_>]) -> bool
    ensures { result ≡ list_any is_out_of_memory actors.now }
{
    for actor in actors {
        if is_out_of_memory(actor) {
            return true;
        }
    }
    false
}

/// Adds what a block wrote: the lines of its actors, each with its clerk, and where what an actor got is not the record's. The names are
/// those that were kept, or that the desk has. It fails where memory runs out, or did for an actor.
pub fn add_block(
    text: &mut Line,
    known: &Option<KnownNames>,
    journal: &[(ListenerId, ListenerEvent)],
    actors: &[BlockActor<'_, '_>],
    clerks: &[Clerk],
    differs: Option<Differs>,
) -> Result<(), AllocError>
    requires known { IsKnown known.now actors.now }
    ensures lasted { OnOk result (list_any is_out_of_memory actors.now ≡ false) }
    ensures text { OnOk result (text.new ≡ text.old
        ++ (actors_said (names_now known.now actors.now) journal.now actors.now clerks.now ++ differs_line differs)) }
{
    if any_out_of_memory(actors) {
        return Err(AllocError);
    }
    match known {
        Some(known) => add_actors(text, known.names(), journal, actors, clerks)?,
        None => add_by_desk(text, journal, actors, clerks)?,
    }
    add_differs_line(text, differs)
}
