// A script over a machine, from its first command to its last.
ghost use Rattle.std.specs.Prelude.{◌≡◌};
ghost use Rattle.outside.specs.Sink.{Writes};
ghost use Rattle.mem_base.specs.map.Limits.{most_passes};
ghost use Rattle.mem_base.specs.machine.World.{opening};
ghost use Rattle.mem_base.specs.script.Run.{pool_words, text_from, text_of};
ghost use Rattle.run_laws.specs.Fitting.{AreFitting};
ghost use Rattle.script_run.specs.Standing.{MayGoOn, state_of};

use crate::faults::RunFault;
use crate::pieces::write_lines;
use crate::session::Session;
use mem_base::Command;
use outside::Sink;
use script_lines::Line;
use script_machine::Machine;
use script_text::Script;
use std::alloc::Global;

// Does commands one after another, and writes what they write. `text` is the caller's room, and comes with anything in it.
fn run_lines<M: Machine + Drop, K: Sink>(
    session: &mut Session<M>,
    text: &mut Line,
    lines: &[(u32, Command)],
    sink: &mut K,
) -> Result<(), RunFault>
    requires ready { MayGoOn session.old }
    requires fits { AreFitting lines.now }
    ensures { Writes K.written K.holds K.faults sink.old sink.new (text_from (state_of session.old) lines.now) RunFault.Write
        result }
{
    for (number, command) in lines {
        text.clear();
        session.step(text, *number, command)?;
        write_lines(text.as_bytes(), sink)?;
    }
    Ok(())
}

/// Runs a script on a machine on which no call was made yet, with the pool that the script names and 16 passes, and writes the
/// script's text: each line as one piece with its line feed.
///
/// It answers `Write` only where a write failed. After that and after `Memory`, a prefix of the text was written.
pub fn run_on<M: Machine + Drop, K: Sink>(
    alloc: Global,
    machine: M,
    script: &Script,
    sink: &mut K,
) -> Result<(), RunFault>
    requires { M.world machine ≡ opening (pool_words script.now) most_passes }
    ensures { Writes K.written K.holds K.faults sink.old sink.new (text_of script.now) RunFault.Write result }
{
    let mut session = Session::new(alloc, machine);
    let mut text = Line::new(alloc);
    let done = run_lines(&mut session, &mut text, script.lines(), sink);
    drop(text);
    drop(session);
    done
}
