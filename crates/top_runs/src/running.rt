// `run`: the bytes of a source are read as a script, and what the script means is written.
ghost use Rattle.std.specs.Prelude.{◌≡◌, ◌≤◌, ◌⊎◌, List, IfOk, Ok, Err};
ghost use Rattle.outside.specs.Causes.{Rose};
ghost use Rattle.outside.specs.Sink.{Takes, TakesPrefix};
ghost use Rattle.mem_base.specs.script.Scripts.{script_of};
ghost use Rattle.mem_base.specs.script.Scripts as scripts;
ghost use Rattle.mem_base.specs.script.RefusalLines.{bad_line};
ghost use Rattle.mem_base.specs.script.Run.{text_of};
ghost use Rattle.top_runs.specs.Runs.{Runs, ending_of};
ghost use Rattle.top_runs.specs.Says.{Says};
ghost use Rattle.top_runs.specs.Statuses.{IfBad};
ghost use Rattle.top_runs.specs.WrittenText.{text_of_script};

use crate::endings::Ending;
use mem_base::{BadScript, Cause};
use outside::{Failed, ReadStop, Sink, Source, read_all, write_all};
use script_lines::{Line, add_bad_line};
use script_run::RunFault;
use script_text::{MOST_TEXT, ParseFault, parse};
use script_world::run;
use std::alloc::{AllocError, Global};

/// What is said of a text that is longer than a script may be: no line of it is named.
pub fn too_long() -> BadScript
    ensures { result ≡ record { line = 0; cause = Cause.Long } }
{
    BadScript {
        line: 0,
        cause: Cause::Long,
    }
}

// The line of a text that is no script.
fn line_of(alloc: Global, bad: BadScript) -> Result<Line, AllocError>
    ensures { IfOk result (λ line. line ≡ bad_line bad) }
{
    let mut line = Line::new(alloc);
    add_bad_line(&mut line, bad)?;
    Ok(line)
}

/// Writes the line of a text that is no script.
pub fn refuse<K: Sink>(alloc: Global, bad: BadScript, sink: &mut K) -> Ending
    ensures says { Says K.written K.holds K.faults (bad_line bad) (Ending.BadScript bad) sink.old sink.new result }
    ensures later { K.faults sink.old ≤ K.faults sink.new }
{
    let line = match line_of(alloc, bad) {
        Ok(line) => line,
        Err(_) => return Ending::Memory,
    };
    match write_all(sink, line.as_bytes()) {
        Ok(()) => Ending::BadScript(bad),
        Err(Failed) => Ending::WriteFault,
    }
}

/// Runs the script that the bytes are.
pub(crate) fn run_text<K: Sink>(alloc: Global, text: &[u8], sink: &mut K) -> Ending
    ensures done { result ≡ Ending.Done → (lines : List scripts.Line) × (script_of text.now ≡ Ok lines)
        × Takes K.written K.holds sink.old sink.new (text_of lines) }
    ensures bad { IfBad result (λ bad. (script_of text.now ≡ Err bad)
        × Takes K.written K.holds sink.old sink.new (bad_line bad)) }
    ensures prefix { TakesPrefix K.written K.holds sink.old sink.new (text_of_script (script_of text.now)) }
    ensures write { result ≡ Ending.WriteFault → Rose (K.faults sink.old) (K.faults sink.new) }
    ensures never { (result ≡ Ending.Usage → ⊥) × (result ≡ Ending.ReadFault → ⊥) }
    ensures complete { (Rose (K.faults sink.old) (K.faults sink.new) → ⊥)
        → (result ≡ ending_of (script_of text.now)) ⊎ (result ≡ Ending.Memory) }
    ensures later { K.faults sink.old ≤ K.faults sink.new }
{
    match parse(alloc, text) {
        Ok(script) => match run(alloc, &script, sink) {
            Ok(()) => Ending::Done,
            Err(RunFault::Write) => Ending::WriteFault,
            Err(RunFault::Memory) => Ending::Memory,
        },
        Err(ParseFault::Bad(bad)) => refuse(alloc, bad, sink),
        Err(ParseFault::Memory) => Ending::Memory,
    }
}

/// Runs the script that the source gives.
pub(crate) fn run_source<S: Source, K: Sink>(alloc: Global, source: &mut S, sink: &mut K) -> Ending
    ensures { Runs S.left S.faults K.written K.holds K.faults source.old source.new sink.old sink.new result }
{
    match read_all(alloc, source, MOST_TEXT) {
        Ok(bytes) => run_text(alloc, &bytes, sink),
        Err(ReadStop::Failed) => Ending::ReadFault,
        Err(ReadStop::Long) => refuse(alloc, too_long(), sink),
        Err(ReadStop::Memory) => Ending::Memory,
    }
}
