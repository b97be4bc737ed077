// `race`: the bytes of a source are read as a script, which runs on a machine of its own, its actors beside one another.
ghost use Rattle.std.specs.Prelude.{◌≡◌, ◌≤◌, ◌⊎◌, None, Ok};
ghost use Rattle.std.specs.Arc.{arc_value};
ghost use Rattle.outside.specs.Causes.{Rose};
ghost use Rattle.mem_base.specs.script.Scripts.{script_of};
ghost use Rattle.mem_base.specs.script.Run.{pool_words};
ghost use Rattle.race_run.specs.Ends.{IsFresh};
ghost use Rattle.top_call.specs.RacedText.{WritesRaceOf};
ghost use Rattle.top_runs.specs.Runs.{ending_of};
ghost use Rattle.top_call.specs.Races.{Races};

use crate::machines::{Machine, parse_and_make, pool_ahead, pool_of_script, with_pool};
use outside::{Gate, ReadStop, Sink, Source, read_all};
use race_run::{Config, RunFault, race};
use script_text::{MOST_TEXT, ParseFault, Script};
use std::alloc::{AllocError, Global};
use std::sync::Wait;
use std::thread::Threads;
use top_runs::{Ending, refuse, too_long};

// How a race ends that stopped by this fault.
fn ending_after(fault: RunFault) -> Ending
    ensures write { fault ≡ RunFault.Write → result ≡ Ending.WriteFault }
    ensures memory { fault ≡ RunFault.Memory → result ≡ Ending.Memory }
    ensures only { (result ≡ Ending.WriteFault) ⊎ (result ≡ Ending.Memory) }
{
    match fault {
        RunFault::Write => Ending::WriteFault,
        RunFault::Memory => Ending::Memory,
    }
}

// Races a script on a machine of its own, and hands it out once all was done.
fn race_script<R: Threads + Wait + Sync, K: Sink, G: Gate>(
    rt: &R,
    alloc: Global,
    script: &Script,
    machine: Machine,
    sink: &mut K,
    gate: &G,
) -> (Ending, Option<Config>)
    requires own { machine.1.seat.cabinet ≡ (arc_value machine.0).id }
    requires fresh { IsFresh (pool_words script.now) machine.1 }
    ensures writes { WritesRaceOf K.written K.holds (Ok script.now) sink.old sink.new result.1 result.0 }
    ensures write { result.0 ≡ Ending.WriteFault → Rose (K.faults sink.old) (K.faults sink.new) }
    ensures only { (result.0 ≡ Ending.Done) ⊎ (result.0 ≡ Ending.WriteFault) ⊎ (result.0 ≡ Ending.Memory) }
    ensures later { K.faults sink.old ≤ K.faults sink.new }
{
    let (cabinet, config) = machine;
    let (config, done) = race(rt, alloc, script, &cabinet, config, sink, gate);
    drop(cabinet);
    match done {
        Ok(()) => {
            config.has_seen_all();
            config.is_lawful();
            (Ending::Done, Some(config))
        }
        Err(fault) => {
            drop(config);
            (ending_after(fault), None)
        }
    }
}

/// Races the script that the bytes are.
pub(crate) fn race_text<R: Threads + Wait + Sync, K: Sink, G: Gate>(
    rt: &R,
    alloc: Global,
    text: &[u8],
    sink: &mut K,
    gate: &G,
) -> (Ending, Option<Config>)
    ensures writes { WritesRaceOf K.written K.holds (script_of text.now) sink.old sink.new result.1 result.0 }
    ensures write { result.0 ≡ Ending.WriteFault → Rose (K.faults sink.old) (K.faults sink.new) }
    ensures never { (result.0 ≡ Ending.Usage → ⊥) × (result.0 ≡ Ending.ReadFault → ⊥) }
    ensures complete { (Rose (K.faults sink.old) (K.faults sink.new) → ⊥)
        → (result.0 ≡ ending_of (script_of text.now)) ⊎ (result.0 ≡ Ending.Memory) }
    ensures later { K.faults sink.old ≤ K.faults sink.new }
{
    let pool = pool_ahead(alloc, text);
    let (parsed, made) = parse_and_make(rt, alloc, text, pool);
    match parsed {
        Ok(script) => match with_pool(alloc, made, pool, pool_of_script(&script)) {
            Ok(machine) => race_script(rt, alloc, &script, machine, sink, gate),
            Err(AllocError) => (Ending::Memory, None),
        },
        Err(fault) => {
            drop(made);
            match fault {
                ParseFault::Bad(bad) => (refuse(alloc, bad, sink), None),
                ParseFault::Memory => (Ending::Memory, None),
            }
        }
    }
}

/// Races the script that the source gives, and hands out the machine on which it ran, where it ended with `Done`.
pub(crate) fn race_source<R: Threads + Wait + Sync, S: Source, K: Sink, G: Gate>(
    rt: &R,
    alloc: Global,
    source: &mut S,
    sink: &mut K,
    gate: &G,
) -> (Ending, Option<Config>)
    ensures { Races S.left S.faults K.written K.holds K.faults source.old source.new sink.old sink.new result.1 result.0 }
{
    match read_all(alloc, source, MOST_TEXT) {
        Ok(bytes) => race_text(rt, alloc, &bytes, sink, gate),
        Err(ReadStop::Failed) => (Ending::ReadFault, None),
        Err(ReadStop::Long) => (refuse(alloc, too_long(), sink), None),
        Err(ReadStop::Memory) => (Ending::Memory, None),
    }
}
