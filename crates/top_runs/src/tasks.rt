// What the words ask for, but for `race`.
ghost use Rattle.std.specs.Prelude.{◌≡◌, ◌≢◌, MatchBool, Some, map, string_bytes};
ghost use Rattle.mem_base.specs.declared.script.tasks.Task.TheVariants.{Race};
ghost use Rattle.mem_base.specs.script.Words.{task_of, usage_line};
ghost use Rattle.script_make.specs.Texts.{text_of_seed};
ghost use Rattle.top_runs.specs.Asks.{IfDemo, IfMake, IfRun, IfUsage, UnlessReads};
ghost use Rattle.top_runs.specs.Runs.{Runs};
ghost use Rattle.top_runs.specs.Says.{IsLeftAlone, Says, demo_text};

use crate::endings::Ending;
use crate::running::run_source;
use crate::seeds::{demo, make};
use mem_base::Task;
use outside::{Failed, Sink, Source, write_all};
use script_words::{WordsStop, task_of};
use std::alloc::Global;

// Writes the usage line.
fn show_usage<K: Sink>(sink: &mut K) -> Ending
    ensures { Says K.written K.holds K.faults usage_line Ending.Usage sink.old sink.new result }
{
    match write_all(sink, b"usage: mtree run | race | make SEED | demo SEED\n") {
        Ok(()) => Ending::Usage,
        Err(Failed) => Ending::WriteFault,
    }
}

/// Whether the words are exactly the one word `race`.
pub fn asks_race(words: &[String]) -> bool
    ensures { MatchBool result (task_of (map string_bytes words.now) ≡ Some Race) (task_of (map string_bytes words.now) ≢ Some Race) }
{
    match words {
        [word] => word.as_bytes() == b"race".as_slice(),
        _ => false,
    }
}

/// Does what the words ask: `run` reads the source to its end, and writes the text of the script that it is; `make SEED`
/// writes the script of the seed, and `demo SEED` the summary of what that script writes. Any other words are answered with the
/// usage line; they are not the one word `race`, which needs other threads. Only `run` reads the source.
///
/// It never waits.
pub fn alone<S: Source, K: Sink>(
    alloc: Global,
    words: &[String],
    source: &mut S,
    sink: &mut K,
) -> Ending
    requires { task_of (map string_bytes words.now) ≢ Some Race }
    // What is read is a script, and what is written is its text, of a run that is one legal history of the machine; each
    // fault has its cause.
    ensures run { IfRun (task_of (map string_bytes words.now))
        (Runs S.left S.faults K.written K.holds K.faults source.old source.new sink.old sink.new result) }
    ensures make { IfMake (task_of (map string_bytes words.now))
        (λ seed. Says K.written K.holds K.faults (text_of_seed seed) Ending.Done sink.old sink.new result) }
    ensures demo { IfDemo (task_of (map string_bytes words.now))
        (λ seed. Says K.written K.holds K.faults (demo_text seed) Ending.Done sink.old sink.new result) }
    ensures usage { IfUsage (task_of (map string_bytes words.now))
        (Says K.written K.holds K.faults usage_line Ending.Usage sink.old sink.new result) }
    ensures unread { UnlessReads (task_of (map string_bytes words.now)) (IsLeftAlone S.left S.faults source.old source.new) }
{
    match task_of(alloc, words) {
        Ok(Task::Run) => run_source(alloc, source, sink),
        Ok(Task::Race) => unreachable!(),
        Ok(Task::Make { seed }) => make(alloc, seed, sink),
        Ok(Task::Demo { seed }) => demo(alloc, seed, sink),
        Err(WordsStop::Usage) => show_usage(sink),
        Err(WordsStop::Memory) => Ending::Memory,
    }
}
