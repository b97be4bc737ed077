// `make` and `demo`: the script of a seed, and the summary of what it writes.
ghost use Rattle.std.specs.Prelude.{◌≡◌, IfOk};
ghost use Rattle.mem_base.specs.script.Scripts.{script_of};
ghost use Rattle.mem_base.specs.script.Run.{text_of};
ghost use Rattle.script_make.specs.Texts.{script_of_seed, text_of_seed};
ghost use Rattle.top_runs.specs.Says.{Says, demo_text};
ghost use Rattle.top_runs.specs.WrittenText.{text_of_script};

use crate::endings::Ending;
use crate::kept::Kept;
use crate::running::run_text;
use outside::{Failed, Sink, write_all};
use run_summary::summary;
use script_lines::Line;
use script_make::{seeds_give_scripts, text_of_seed};
use std::alloc::{AllocError, Global};

/// Writes the script of a seed.
pub(crate) fn make<K: Sink>(alloc: Global, seed: u64, sink: &mut K) -> Ending
    ensures { Says K.written K.holds K.faults (text_of_seed seed) Ending.Done sink.old sink.new result }
{
    let text = match text_of_seed(alloc, seed) {
        Ok(text) => text,
        Err(_) => return Ending::Memory,
    };
    match write_all(sink, &text) {
        Ok(()) => Ending::Done,
        Err(Failed) => Ending::WriteFault,
    }
}

// What `run` writes for a text.
fn run_kept(alloc: Global, text: &[u8]) -> Result<Vec<u8>, AllocError>
    ensures { IfOk result (λ written. written.items ≡ text_of_script (script_of text.now)) }
{
    let mut kept = Kept::new(alloc);
    match run_text(alloc, text, &mut kept) {
        Ending::Done | Ending::BadScript(_) => Ok(kept.into_vec()),
        _ => Err(AllocError),
    }
}

// What `run` writes for the script of a seed.
fn run_seed(alloc: Global, seed: u64) -> Result<Vec<u8>, AllocError>
    ensures { IfOk result (λ written. written.items ≡ text_of (script_of_seed seed)) }
{
    seeds_give_scripts();
    let script = text_of_seed(alloc, seed)?;
    let written = run_kept(alloc, &script)?;
    Ok(written)
}

// The summary of that.
fn summary_of_seed(alloc: Global, seed: u64) -> Result<Line, AllocError>
    ensures { IfOk result (λ line. line ≡ demo_text seed) }
{
    let written = run_seed(alloc, seed)?;
    let line = summary(alloc, &written)?;
    Ok(line)
}

/// Writes the summary of what `run` writes for the script of a seed.
pub(crate) fn demo<K: Sink>(alloc: Global, seed: u64, sink: &mut K) -> Ending
    ensures { Says K.written K.holds K.faults (demo_text seed) Ending.Done sink.old sink.new result }
{
    let line = match summary_of_seed(alloc, seed) {
        Ok(line) => line,
        Err(_) => return Ending::Memory,
    };
    match write_all(sink, line.as_bytes()) {
        Ok(()) => Ending::Done,
        Err(Failed) => Ending::WriteFault,
    }
}
