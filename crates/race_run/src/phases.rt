// The phases of a race, one after another.
ghost use Rattle.std.specs.Prelude.{◌≡◌, ◌<◌, ◌≤◌, [], ◌∷◌, Err, IfSome, OnErr, OnOk, length, map};
ghost use Rattle.outside.specs.Causes.{failed};
ghost use Rattle.outside.specs.Sink.{Writes};
ghost use Rattle.mem_base.specs.script.Race.{alone, phases_of};
ghost use Rattle.run_laws.specs.Fitting.{AreFitting, FitsCommand};
ghost use Rattle.race_laws.specs.Outside.{block_of, phases_alone};
ghost use Rattle.race_phases.specs.Plain.{whose_line};
ghost use Rattle.race_run.specs.Racing.{Goes, IsReady};

use crate::racers::Racer;
use io_window::Bounce;
use mem_base::Command;
use outside::{Failed, Gate, Sink, write_all};
use race_inside::{block, outside_line};
use race_phases::parts_of;
use script_lines::Line;
use script_run::RunFault;
use script_text::Script;
use std::alloc::{AllocError, Global};
use std::sync::Wait;
use std::thread::Threads;

// Where the first line of a text ends, if it has one.
fn line_end(text: &[u8]) -> Option<usize>
    ensures { IfSome result (λ end. end < length text.now) }
{
    text.iter().position(|byte| *byte == b'\n')
}

// Writes a text line by line, each as one piece with its line feed.
fn write_lines<S: Sink>(text: &[u8], sink: &mut S) -> Result<(), Failed>
    ensures { Writes S.written S.holds S.faults sink.old sink.new text.now failed result }
{
    let mut rest = text;
    while let Some(end) = line_end(rest) {
        let (line, more) = rest.split_at(end + 1);
        write_all(sink, line)?;
        rest = more;
    }
    write_all(sink, rest)?;
    Ok(())
}

// Writes the text of a phase that was done.
fn say<S: Sink>(done: Result<(), AllocError>, text: &Line, sink: &mut S) -> Result<(), RunFault>
    ensures wrote { OnOk done (Writes S.written S.holds S.faults sink.old sink.new text.now RunFault.Write result) }
    ensures memory { OnErr done ((result ≡ Err RunFault.Memory) × (sink.new ≡ sink.old)) }
{
    match done {
        Ok(()) => {
            write_lines(text.as_bytes(), sink)?;
            Ok(())
        }
        Err(AllocError) => Err(RunFault::Memory),
    }
}

// A line outside the block. `text` is the caller's room, and comes with anything in it.
fn go_line<'c, R: Wait, S: Sink>(
    rt: &R,
    alloc: Global,
    racer: &mut Racer<'c>,
    bounce: Bounce,
    text: &mut Line,
    number: u32,
    command: &Command,
    sink: &mut S,
) -> (Bounce, Result<(), RunFault>)
    requires fits { FitsCommand command.now }
    requires ready { IsReady racer.old }
    requires room { 64 ≤ bounce }
    ensures ready { IsReady racer.new }
    ensures room { result.0 ≡ bounce }
    ensures goes { Goes S.written S.holds S.faults sink.old sink.new (alone (number, command.now) ∷ []) racer.old racer.new result.1 }
{
    text.clear();
    let (bounce, done) = outside_line(
        rt,
        alloc,
        &mut racer.desk,
        &mut racer.cpus,
        &mut racer.known,
        bounce,
        text,
        number,
        command,
    );
    (bounce, say(done, text, sink))
}

// Lines outside the block, one after another.
fn go_lines<'c, R: Wait, S: Sink>(
    rt: &R,
    alloc: Global,
    racer: &mut Racer<'c>,
    bounce: Bounce,
    lines: &'c [(u32, Command)],
    sink: &mut S,
) -> (Bounce, Result<(), RunFault>)
    requires fits { AreFitting lines.now }
    requires ready { IsReady racer.old }
    requires room { 64 ≤ bounce }
    ensures ready { IsReady racer.new }
    ensures room { result.0 ≡ bounce }
    ensures goes { Goes S.written S.holds S.faults sink.old sink.new (phases_alone lines.now) racer.old racer.new result.1 }
{
    let mut bounce = bounce;
    let mut text = Line::new(alloc);
    for (number, command) in lines {
        let (back, done) = go_line(rt, alloc, racer, bounce, &mut text, *number, command, sink);
        bounce = back;
        if let Err(fault) = done {
            return (bounce, Err(fault));
        }
    }
    (bounce, Ok(()))
}

// The lines of the block, if it has any, each actor's beside the others'.
fn go_block<'c, R: Threads + Wait + Sync, S: Sink, G: Gate>(
    rt: &R,
    alloc: Global,
    racer: Racer<'c>,
    lines: &'c [(u32, Command)],
    whose: &[u32],
    sink: &mut S,
    gate: &G,
) -> (Racer<'c>, Result<(), RunFault>)
    requires fits { AreFitting lines.now }
    requires whose { whose.now ≡ map whose_line lines.now }
    requires ready { IsReady racer }
    ensures ready { IsReady result.0 }
    ensures goes { Goes S.written S.holds S.faults sink.old sink.new (block_of lines.now) racer.entry result.0 result.1 }
{
    if lines.is_empty() {
        return (racer, Ok(()));
    }
    let Racer { desk, cpus, known } = racer;
    let mut text = Line::new(alloc);
    let (desk, cpus, known, done) = block(
        rt, alloc, gate, desk, cpus, known, lines, whose, &mut text,
    );
    let said = say(done, &text, sink);
    let racer = Racer { desk, cpus, known };
    (racer, said)
}

/// All phases of a script: the lines before its block, the block, and the lines after it.
pub(crate) fn go_through<'c, R: Threads + Wait + Sync, S: Sink, G: Gate>(
    rt: &R,
    alloc: Global,
    racer: Racer<'c>,
    bounce: Bounce,
    script: &'c Script,
    sink: &mut S,
    gate: &G,
) -> (Racer<'c>, Result<(), RunFault>)
    requires ready { IsReady racer }
    requires room { 64 ≤ bounce }
    ensures fits { AreFitting script.now }
    ensures ready { IsReady result.0 }
    ensures goes { Goes S.written S.holds S.faults sink.old sink.new (phases_of script.now) racer.entry result.0 result.1 }
{
    let mut racer = racer;
    let parts = parts_of(script.lines(), script.actors());
    let (bounce, done) = go_lines(rt, alloc, &mut racer, bounce, parts.before, sink);
    if let Err(fault) = done {
        return (racer, Err(fault));
    }
    let (mut racer, done) = go_block(rt, alloc, racer, parts.block, parts.whose, sink, gate);
    if let Err(fault) = done {
        return (racer, Err(fault));
    }
    let (_bounce, done) = go_lines(rt, alloc, &mut racer, bounce, parts.after, sink);
    (racer, done)
}
