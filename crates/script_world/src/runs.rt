// A script on a pure machine of its own.
ghost use Rattle.mem_base.specs.script.Run.{text_of};
ghost use Rattle.outside.specs.Sink.{Writes};

use mem_base::MOST_PASSES;
use outside::Sink;
use script_run::{RunFault, run_on};
use script_text::{Script, pool_words};
use std::alloc::Global;
use world_core::World;

/// Runs a script on a machine of its own, with the pool that the script names and 16 passes, and writes the script's text:
/// each line as one piece with its line feed.
///
/// It answers `Write` only where a write failed. After that and after `Memory`, a prefix of the text was written.
pub fn run<K: Sink>(alloc: Global, script: &Script, sink: &mut K) -> Result<(), RunFault>
    ensures { Writes K.written K.holds K.faults sink.old sink.new (text_of script.now) RunFault.Write result }
{
    // The pool of such a script is no larger than the largest one.
    script.knows_sound();
    let machine = World::new(alloc, pool_words(script), MOST_PASSES)?;
    run_on(alloc, machine, script, sink)
}
