// A line of a virtual CPU: enter, leave, read, write, a copy from one space to another, and a change of the map.
ghost use Rattle.std.specs.Prelude.{◌≡◌, ◌≤◌, [], length, false, true, Ok, OnOk, if◌then◌else◌};
ghost use Rattle.mem_base.specs.declared.machine.events.Event.TheVariants as events;
ghost use Rattle.mem_base.specs.access.AccessSteps.{either};
ghost use Rattle.mem_base.specs.machine.World.{possible};
ghost use Rattle.mem_base.specs.machine.History.{run_events};
ghost use Rattle.mem_base.specs.machine.Composites.{enters_unless, is_entered, leaves, leaves_unless};
ghost use Rattle.mem_base.specs.machine.Completions.{may_access, KeepsWriter};
ghost use Rattle.mem_base.specs.script.PassSteps.{copy, enter, leave, read, write};
ghost use Rattle.mem_base.specs.script.Race.{actor_number, is_end, is_par};
ghost use Rattle.mem_base.specs.script.Run.{step};
ghost use Rattle.run_laws.specs.Fitting.{FitsCommand};
ghost use Rattle.run_laws.specs.KnownNames.{IsChangeOrder, IsPassTask};
ghost use Rattle.run_laws.specs.TaskSteps.{known_state, pass_order, pass_step};
ghost use Rattle.race_lines.specs.LineTasks.{task_meant};
ghost use Rattle.script_run.specs.Asking.{FitsTask};
ghost use Rattle.script_run.specs.Adding.{Adds, PassAdds};
ghost use Rattle.script_run.specs.Standing.{IsReady};

use crate::orders::ask;
use mem_base::{Access, Command, DeskOrder, PassId, SpaceId, TxResult};
use race_lines::{
    KnownNames, LineTask, add_do_answer, add_name_refused, add_told_lines, later, task_of,
};
use script_lines::{
    Line, add_dma_line, add_enter_line, add_leave_line, add_read_line, add_write_line,
};
use script_machine::Machine;
use std::alloc::{AllocError, Global};

fn either(x: TxResult, y: TxResult) -> TxResult
    ensures { result ≡ either x y }
{
    TxResult {
        error: x.error || y.error,
        decode: x.decode || y.decode,
    }
}

// Leaves where the pass is entered; it may enter then.
fn leave_first<M: Machine>(machine: &mut M, pass: PassId)
    requires { may_access (M.world machine.old) pass ≡ true }
    ensures after { M.world machine.new
        ≡ (run_events (M.world machine.old) (if is_entered (M.world machine.old) pass then leaves pass else [])).world }
    ensures keeps { KeepsWriter (M.world machine.old) (M.world machine.new) }
    ensures outside { possible (M.world machine.new) (events.Look pass) ≡ true }
{
    if machine.entered(pass).is_some() {
        machine.leave(pass);
    }
}

// Enters where the pass is not entered, and gives whether it was.
fn enter_unless<M: Machine>(machine: &mut M, pass: PassId) -> bool
    requires { may_access (M.world machine.old) pass ≡ true }
    ensures was { result ≡ is_entered (M.world machine.old) pass }
    ensures after { M.world machine.new ≡ (run_events (M.world machine.old) (enters_unless result pass)).world }
    ensures keeps { KeepsWriter (M.world machine.old) (M.world machine.new) }
    ensures inside { is_entered (M.world machine.new) pass ≡ true }
{
    let entered = machine.entered(pass).is_some();
    if !entered {
        machine.enter(pass);
    }
    entered
}

// Leaves unless the pass was entered before.
fn leave_unless<M: Machine>(machine: &mut M, pass: PassId, entered: bool)
    requires { is_entered (M.world machine.old) pass ≡ true }
    ensures after { M.world machine.new ≡ (run_events (M.world machine.old) (leaves_unless entered pass)).world }
    ensures keeps { KeepsWriter (M.world machine.old) (M.world machine.new) }
{
    if !entered {
        machine.leave(pass);
    }
}

// `vN enter`
fn enter<M: Machine>(machine: &mut M, text: &mut Line, pass: PassId) -> Result<(), AllocError>
    requires { may_access (M.world machine.old) pass ≡ true }
    ensures { OnOk result (PassAdds text.old text.new (M.world machine.old) (λ s. enter s pass) (M.world machine.new)) }
{
    leave_first(machine, pass);
    let generation = machine.enter(pass);
    add_enter_line(text, pass, generation)
}

// `vN leave`
fn leave<M: Machine>(machine: &mut M, text: &mut Line, pass: PassId) -> Result<(), AllocError>
    requires { may_access (M.world machine.old) pass ≡ true }
    ensures { OnOk result (PassAdds text.old text.new (M.world machine.old) (λ s. leave s pass) (M.world machine.new)) }
{
    leave_first(machine, pass);
    add_leave_line(text, pass)
}

// A read of as many bytes as there is room for.
fn read_into<M: Machine>(
    machine: &mut M,
    text: &mut Line,
    pass: PassId,
    space: SpaceId,
    addr: u64,
    out: &mut [u8],
) -> Result<(), AllocError>
    requires { may_access (M.world machine.old) pass ≡ true }
    ensures { OnOk result (PassAdds text.old text.new (M.world machine.old) (λ s. read s pass space addr (length out.old))
        (M.world machine.new)) }
{
    let access = machine.read(pass, space, addr, out);
    add_read_line(text, pass, access, out)
}

// `vN read SPACE ADDR LEN`
fn read<M: Machine>(
    machine: &mut M,
    text: &mut Line,
    pass: PassId,
    space: SpaceId,
    addr: u64,
    len: u8,
) -> Result<(), AllocError>
    requires may { may_access (M.world machine.old) pass ≡ true }
    requires len { len ≤ 64 }
    ensures { OnOk result (PassAdds text.old text.new (M.world machine.old) (λ s. read s pass space addr len)
        (M.world machine.new)) }
{
    let mut bytes = [0; 64];
    read_into(
        machine,
        text,
        pass,
        space,
        addr,
        &mut bytes[..usize::from(len)],
    )
}

// `vN write SPACE ADDR BYTES`
fn write<M: Machine>(
    machine: &mut M,
    text: &mut Line,
    pass: PassId,
    space: SpaceId,
    addr: u64,
    bytes: &[u8],
) -> Result<(), AllocError>
    requires { may_access (M.world machine.old) pass ≡ true }
    ensures { OnOk result (PassAdds text.old text.new (M.world machine.old) (λ s. write s pass space addr bytes.now)
        (M.world machine.new)) }
{
    let access = machine.write(pass, space, addr, bytes);
    add_write_line(text, pass, access)
}

// A copy of as many bytes as there is room for, by way of that room.
fn copy_through<M: Machine>(
    machine: &mut M,
    text: &mut Line,
    pass: PassId,
    space: SpaceId,
    addr: u64,
    to_space: SpaceId,
    to_addr: u64,
    out: &mut [u8],
) -> Result<(), AllocError>
    requires { may_access (M.world machine.old) pass ≡ true }
    ensures { OnOk result (PassAdds text.old text.new (M.world machine.old)
        (λ s. copy s pass space addr (length out.old) to_space to_addr) (M.world machine.new)) }
{
    let entered = enter_unless(machine, pass);
    let read = machine.read(pass, space, addr, out);
    let written = machine.write(pass, to_space, to_addr, out);
    leave_unless(machine, pass, entered);
    let access = Access {
        result: either(read.result, written.result),
        number: read.number,
    };
    add_dma_line(text, pass, access)
}

// `vN dma SPACE ADDR LEN to SPACE ADDR`
fn copy<M: Machine>(
    machine: &mut M,
    text: &mut Line,
    pass: PassId,
    space: SpaceId,
    addr: u64,
    len: u8,
    to_space: SpaceId,
    to_addr: u64,
) -> Result<(), AllocError>
    requires may { may_access (M.world machine.old) pass ≡ true }
    requires len { len ≤ 64 }
    ensures { OnOk result (PassAdds text.old text.new (M.world machine.old) (λ s. copy s pass space addr len to_space to_addr)
        (M.world machine.new)) }
{
    let mut bytes = [0; 64];
    copy_through(
        machine,
        text,
        pass,
        space,
        addr,
        to_space,
        to_addr,
        &mut bytes[..usize::from(len)],
    )
}

// `vN do COMMAND`
fn order_by<M: Machine>(
    machine: &mut M,
    known: &KnownNames,
    text: &mut Line,
    number: u32,
    pass: PassId,
    order: &DeskOrder,
) -> Result<(), AllocError>
    requires ready { IsReady known.now (M.world machine.old) }
    requires change { IsChangeOrder order.now }
    ensures { OnOk result (Adds text.old text.new (pass_order known.now (M.world machine.old) pass number order.now)
        known.now (M.world machine.new)) }
{
    let from = machine.journal().len();
    let answer = ask(machine, order)?;
    add_do_answer(text, known.names(), number, pass, &answer)?;
    add_told_lines(text, known.names(), later(machine.journal(), from))
}

// Does what a line asks for, once its names are resolved.
fn do_task<M: Machine>(
    machine: &mut M,
    known: &KnownNames,
    text: &mut Line,
    number: u32,
    pass: PassId,
    task: &LineTask<'_>,
) -> Result<(), AllocError>
    requires ready { IsReady known.now (M.world machine.old) }
    requires fits { FitsTask (Ok (task_meant task.now)) }
    requires change { IsPassTask (Ok (task_meant task.now)) }
    ensures { OnOk result (Adds text.old text.new
        (pass_step known.now (M.world machine.old) pass number (Ok (task_meant task.now))) known.now (M.world machine.new)) }
{
    pass.knows_bound();
    match task {
        LineTask::Ordered { order, naming: _ } => {
            order_by(machine, known, text, number, pass, order)
        }
        LineTask::Entered => enter(machine, text, pass),
        LineTask::Left => leave(machine, text, pass),
        LineTask::Read { space, addr, len } => read(machine, text, pass, *space, *addr, *len),
        LineTask::Written { space, addr, bytes } => {
            write(machine, text, pass, *space, *addr, bytes.as_slice())
        }
        LineTask::Copied {
            space,
            addr,
            len,
            to_space,
            to_addr,
        } => copy(
            machine, text, pass, *space, *addr, *len, *to_space, *to_addr,
        ),
        _ => Ok(()),
    }
}

// Does a line of a pass, and adds what it writes to a text.
pub(crate) fn pass_line<M: Machine>(
    alloc: Global,
    machine: &mut M,
    known: &KnownNames,
    text: &mut Line,
    number: u32,
    pass: PassId,
    command: &Command,
) -> Result<(), AllocError>
    requires ready { IsReady known.now (M.world machine.old) }
    requires fits { FitsCommand command.now }
    requires actor { actor_number command.now ≡ pass.0 }
    requires par { is_par command.now ≡ false }
    requires end { is_end command.now ≡ false }
    ensures { OnOk result (Adds text.old text.new (step (known_state known.now (M.world machine.old)) number command.now)
        known.now (M.world machine.new)) }
{
    pass.knows_bound();
    let task = task_of(alloc, known, command)?;
    match &task {
        Ok(task) => do_task(machine, known, text, number, pass, task),
        Err(why) => add_name_refused(text, number, why),
    }
}
