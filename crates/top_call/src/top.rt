// The top call: all that the program does, over the words, the source and the sink that it is handed.
ghost use Rattle.std.specs.Prelude.{◌≡◌, None, Option, map, string_bytes};
ghost use Rattle.mem_base.specs.script.Words.{task_of, usage_line};
ghost use Rattle.script_make.specs.Texts.{text_of_seed};
ghost use Rattle.race_run.specs.HandedOn.{ConfigState};
ghost use Rattle.top_runs.specs.Asks.{IfDemo, IfMake, IfRace, IfRun, IfUsage, UnlessRace, UnlessReads};
ghost use Rattle.top_call.specs.Races.{Races};
ghost use Rattle.top_runs.specs.Runs.{Runs};
ghost use Rattle.top_runs.specs.Says.{IsLeftAlone, Says, demo_text};
ghost use Rattle.top_runs.specs.Statuses.{ExitsWith};

use crate::racing::race_source;
use outside::{Gate, OpenGate, Sink, Source};
use race_run::Config;
use std::alloc::Global;
use std::mem;
use std::process::ExitCode;
use std::sync::Wait;
use std::thread::Threads;
use top_runs::{Ending, alone, asks_race};

/// Does what the words ask, as `alone` does, and `race` beside: it reads the source to its end, runs the script that it is on a
/// machine of its own, with the desk and the passes of its block beside one another, and writes its text.
///
/// Each actor of the block arrives at the gate before each of its lines. After `race` has ended with `Done`, the desk of the machine on
/// which the script ran is kept, with all passes taken in; after anything else none is. With `race` it may wait.
pub fn mtree<R: Threads + Wait + Sync, S: Source, K: Sink, G: Gate>(
    rt: &R,
    alloc: Global,
    words: &[String],
    source: &mut S,
    sink: &mut K,
    gate: &G,
    kept: &mut Option<Config>,
) -> Ending
    ensures run { IfRun (task_of (map string_bytes words.now))
        (Runs S.left S.faults K.written K.holds K.faults source.old source.new sink.old sink.new result) }
    // What is read is a script, and what is written is its text for the history of the machine that is kept; each fault has its cause.
    ensures race { IfRace (task_of (map string_bytes words.now))
        (Races S.left S.faults K.written K.holds K.faults source.old source.new sink.old sink.new kept.new result) }
    ensures kept { UnlessRace (task_of (map string_bytes words.now)) (kept.new ≡ None) }
    ensures make { IfMake (task_of (map string_bytes words.now))
        (λ seed. Says K.written K.holds K.faults (text_of_seed seed) Ending.Done sink.old sink.new result) }
    ensures demo { IfDemo (task_of (map string_bytes words.now))
        (λ seed. Says K.written K.holds K.faults (demo_text seed) Ending.Done sink.old sink.new result) }
    ensures usage { IfUsage (task_of (map string_bytes words.now))
        (Says K.written K.holds K.faults usage_line Ending.Usage sink.old sink.new result) }
    ensures unread { UnlessReads (task_of (map string_bytes words.now)) (IsLeftAlone S.left S.faults source.old source.new) }
{
    if asks_race(words) {
        let (ending, machine) = race_source(rt, alloc, source, sink, gate);
        drop(mem::replace(kept, machine));
        return ending;
    }
    drop(kept.take());
    alone(alloc, words, source, sink)
}

/// Does what the words ask, and gives the exit status of the ending. No actor waits at a gate, and no machine is kept.
pub fn exit_code<R: Threads + Wait + Sync, S: Source, K: Sink>(
    rt: &R,
    alloc: Global,
    words: &[String],
    source: &mut S,
    sink: &mut K,
) -> ExitCode
    ensures run { ExitsWith result (λ ending. IfRun (task_of (map string_bytes words.now))
        (Runs S.left S.faults K.written K.holds K.faults source.old source.new sink.old sink.new ending)) }
    ensures race { ExitsWith result (λ ending. IfRace (task_of (map string_bytes words.now)) ((machine : Option ConfigState)
        × Races S.left S.faults K.written K.holds K.faults source.old source.new sink.old sink.new machine ending)) }
    ensures make { ExitsWith result (λ ending. IfMake (task_of (map string_bytes words.now))
        (λ seed. Says K.written K.holds K.faults (text_of_seed seed) Ending.Done sink.old sink.new ending)) }
    ensures demo { ExitsWith result (λ ending. IfDemo (task_of (map string_bytes words.now))
        (λ seed. Says K.written K.holds K.faults (demo_text seed) Ending.Done sink.old sink.new ending)) }
    ensures usage { ExitsWith result (λ ending. IfUsage (task_of (map string_bytes words.now))
        (Says K.written K.holds K.faults usage_line Ending.Usage sink.old sink.new ending)) }
    ensures unread { UnlessReads (task_of (map string_bytes words.now)) (IsLeftAlone S.left S.faults source.old source.new) }
{
    let mut kept = None;
    let ending = mtree(rt, alloc, words, source, sink, &OpenGate, &mut kept);
    drop(kept);
    ExitCode::from(ending.status())
}
