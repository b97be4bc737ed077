// A line of the desk.
ghost use Rattle.std.specs.Prelude.{◌≡◌, IfOk, OnOk, false, true};
ghost use Rattle.mem_base.specs.machine.World.{is_at_rest};
ghost use Rattle.mem_base.specs.script.Race.{actor_number, desk_number, is_end, is_par};
ghost use Rattle.mem_base.specs.script.Run.{step};
ghost use Rattle.run_laws.specs.Fitting.{FitsCommand};
ghost use Rattle.run_laws.specs.TaskSteps.{known_state};
ghost use Rattle.race_lines.specs.DeskLines.{entry_got};
ghost use Rattle.race_lines.specs.LineTasks.{resolved};
ghost use Rattle.script_run.specs.Asking.{TakesOwn, entry_of};
ghost use Rattle.script_run.specs.Adding.{Adds};
ghost use Rattle.script_run.specs.Standing.{IsReady};

use crate::orders::ask;
use mem_base::{Command, DeskAnswer};
use race_lines::{Answered, KnownNames, LineSaid, LineTask, ResolvedTask, task_of};
use script_lines::Line;
use script_machine::Machine;
use std::alloc::{AllocError, Global};

// Gives the order of a line, where its task has one.
fn own_order<M: Machine>(
    machine: &mut M,
    task: &ResolvedTask<'_>,
) -> Result<Option<DeskAnswer>, AllocError>
    requires { is_at_rest (M.world machine.old).writer.desk ≡ true }
    ensures took { IfOk result (λ got. TakesOwn (M.world machine.old) (resolved task.now) got (M.world machine.new)) }
    ensures rest { OnOk result (is_at_rest (M.world machine.new).writer.desk ≡ true) }
    ensures passes { OnOk result ((M.world machine.new).passes ≡ (M.world machine.old).passes) }
{
    match task {
        Ok(LineTask::Ordered { order, naming: _ }) => {
            let answer = ask(machine, order)?;
            Ok(Some(answer))
        }
        _ => Ok(None),
    }
}

// What a line got for its order, with the lengths of the journal before and after it.
fn answered(got: &Option<DeskAnswer>, from: usize, to: usize) -> Option<Answered<'_>>
    ensures { entry_got result ≡ entry_of got.now from to }
{
    match got {
        Some(answer) => Some(Answered { answer, from, to }),
        None => None,
    }
}

// Does a line of the desk, and adds what it writes to a text. `said` is the caller's room, and comes with anything in it.
pub(crate) fn desk_line<M: Machine>(
    alloc: Global,
    machine: &mut M,
    known: &mut KnownNames,
    said: &mut LineSaid,
    text: &mut Line,
    number: u32,
    command: &Command,
) -> Result<(), AllocError>
    requires ready { IsReady known.old (M.world machine.old) }
    requires fits { FitsCommand command.now }
    requires desk { actor_number command.now ≡ desk_number }
    requires par { is_par command.now ≡ false }
    requires end { is_end command.now ≡ false }
    ensures { OnOk result (Adds text.old text.new (step (known_state known.old (M.world machine.old)) number command.now)
        known.new (M.world machine.new)) }
{
    let task = task_of(alloc, known, command)?;
    let from = machine.journal().len();
    let got = own_order(machine, &task)?;
    let to = machine.journal().len();
    known.take_line(
        said,
        number,
        &task,
        answered(&got, from, to),
        machine.current(),
    )?;
    said.add_text(text, known.names(), machine.journal())
}
