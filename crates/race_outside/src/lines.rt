// A line outside the block.
ghost use Rattle.std.specs.Prelude.{◌≡◌, ◌≤◌, OnErr, OnOk};
ghost use Rattle.mem_base.specs.script.Race.{actor_number, alone, desk_number};
ghost use Rattle.run_laws.specs.Fitting.{FitsCommand};
ghost use Rattle.desk_orders.specs.Records.{IsLater};
ghost use Rattle.race_levels.specs.Ready.{AreReady};
ghost use Rattle.race_levels.specs.Outside.{StopsIn, WritesOn};

use crate::desks::desk_line;
use crate::passes::pass_line;
use desk_lock::Record;
use io_window::Bounce;
use mem_base::Command;
use race_lines::{KnownNames, LineSaid};
use race_phases::pass_of_line;
use script_lines::Line;
use std::alloc::{AllocError, Global};
use std::sync::Wait;
use vcpu_pass::Vcpu;

// A line of the desk, with its text.
fn write_desk_line<R: Wait>(
    rt: &R,
    alloc: Global,
    desk: &mut Record,
    cpus: &mut [Vcpu<'_>],
    known: &mut KnownNames,
    text: &mut Line,
    number: u32,
    command: &Command,
) -> Result<(), AllocError>
    requires actor { actor_number command.now ≡ desk_number }
    requires fits { FitsCommand command.now }
    requires ready { AreReady desk.old cpus.old }
    ensures ready { AreReady desk.new cpus.new }
    ensures later { IsLater desk.old desk.new }
    ensures step { OnOk result (WritesOn desk.old known.old (alone (number, command.now)) desk.new known.new text.old text.new) }
    ensures stopped { OnErr result (StopsIn desk.old known.old (alone (number, command.now)) desk.new) }
{
    let mut said = LineSaid::new(alloc);
    match desk_line(rt, alloc, desk, cpus, known, &mut said, number, command) {
        Ok(()) => said.add_text(text, known.names(), desk.journal()),
        Err(error) => Err(error),
    }
}

/// A line of a race outside the block, the desk's or a pass's: it is done on the running machine, what it writes is added to the
/// text, and all virtual CPUs and the record have then seen the same history.
///
/// The numbers of the command fit, as those of every script that was read do, and the bounce holds the 64 bytes that a line copies at
/// most. It may wait where a part of a word is replaced. Out of memory the line was not done, or the first of its orders was given, or
/// it was done and its text is lost: the text may then end within the line's. All have seen the same history then too.
pub fn outside_line<'c, R: Wait>(
    rt: &R,
    alloc: Global,
    desk: &mut Record,
    cpus: &mut Vec<Vcpu<'c>>,
    known: &mut KnownNames,
    bounce: Bounce,
    text: &mut Line,
    number: u32,
    command: &Command,
) -> (Bounce, Result<(), AllocError>)
    requires fits { FitsCommand command.now }
    requires ready { AreReady desk.old cpus.old.items }
    requires room { 64 ≤ bounce }
    ensures ready { AreReady desk.new cpus.new.items }
    ensures later { IsLater desk.old desk.new }
    ensures step { OnOk result.1 (WritesOn desk.old known.old (alone (number, command.now)) desk.new known.new text.old text.new) }
    ensures stopped { OnErr result.1 (StopsIn desk.old known.old (alone (number, command.now)) desk.new) }
    ensures room { result.0 ≡ bounce }
{
    match pass_of_line(command) {
        Some(pass) => pass_line(
            rt, alloc, desk, cpus, known, bounce, text, number, pass, command,
        ),
        None => {
            let done = write_desk_line(
                rt,
                alloc,
                desk,
                cpus.as_mut_slice(),
                known,
                text,
                number,
                command,
            );
            (bounce, done)
        }
    }
}
