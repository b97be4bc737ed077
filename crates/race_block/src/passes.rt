// A pass that does its lines.
ghost use Rattle.std.specs.Prelude.{◌≡◌, ◌≤◌, [], true, false, All, IfOk, OnErr, length, take};
ghost use Rattle.mem_base.specs.access.AccessSteps.{reading};
ghost use Rattle.mem_base.specs.script.Tasks.{accessed};
ghost use Rattle.pass_lines.specs.Doing.{IsInItsGeneration};
ghost use Rattle.race_block.specs.Lines.{FitsLine, FitsTask, HasDone, HasDoneTasks, HasGot, HasOrdered, HasRun, HasRunBy, HasRunLines, HasStepped, IsReady};
ghost use Rattle.race_block.specs.Resolving.{IsPassLine, copy_room};
ghost use Rattle.race_block.specs.declared.tasks.LineGot.TheVariants.{Ordered};
ghost use Rattle.vcpu_pass.specs.Calls.{HasAccessed};

use crate::few::FewBytes;
use crate::plain::{any_gives_order, run_plain};
use crate::resolving::resolve_lines;
use crate::tasks::{BlockLine, LineGot, OwnLine, PassLines, PassTask};
use crate::texts::{tasks_in, text_of};
use desk_orders::{Clerk, Orderly, Receipt};
use io_window::Bounce;
use mem_base::{Access, DeskOrder, SpaceId};
use outside::{Actor, Gate};
use pass_lines::{copy, enter, leave, read, write};
use race_lines::KnownNames;
use script_lines::Line;
use std::alloc::{AllocError, Global};
use std::sync::Wait;
use vcpu_pass::Vcpu;

/// A pass in a block: its virtual CPU with a bounce for what is copied, the clerk of its orders, its lines, what they got, and their text.
#[derive(Drop)]
pub struct PassActor<'a, 'k> {
    pub vcpu: Vcpu<'a>,
    pub bounce: Bounce,
    pub clerk: Clerk,
    pub lines: PassLines<'a, 'k>,
    /// What the first lines got, one for each; nothing where their text alone is kept.
    pub got: Vec<LineGot>,
    /// Memory ran out before the next line was done.
    pub out_of_memory: bool,
    /// The text of all that the lines wrote, where none of them gave an order; else, or where there was no memory for it, it is made later.
    pub text: Option<Line>,
}

// Gives an order, and sees what the writer had seen then. Out of memory nothing was done.
fn order<O: Orderly, R: Wait>(
    rt: &R,
    desk: &mut O,
    vcpu: &mut Vcpu<'_>,
    clerk: &mut Clerk,
    order: &DeskOrder,
) -> Result<LineGot, AllocError>
    requires own { O.cabinet desk.old ≡ vcpu.old.cabinet }
    requires inside { IsInItsGeneration vcpu.old }
    ensures done { IfOk result (λ got. (got ≡ Ordered) × HasOrdered order.now clerk.old vcpu.old clerk.new vcpu.new) }
    ensures err { OnErr result ((vcpu.new ≡ vcpu.old) × (clerk.new ≡ clerk.old)) }
    ensures desk { O.cabinet desk.new ≡ O.cabinet desk.old }
{
    let Receipt { note, .. } = desk.give(rt, clerk, order)?;
    vcpu.meet(note);
    Ok(LineGot::Ordered)
}

/// Reads bytes into the first places of what is at hand.
pub(crate) fn read_first(
    vcpu: &mut Vcpu<'_>,
    space: SpaceId,
    addr: u64,
    count: usize,
    bytes: &mut [u8],
) -> Access
    requires few { count ≤ length bytes.old }
    ensures { HasAccessed vcpu.old space addr (reading count) result (take count bytes.new) vcpu.new }
{
    vcpu.read(space, addr, &mut bytes[..count])
}

// Reads few bytes: they take no memory of their own.
fn read_few(vcpu: &mut Vcpu<'_>, space: SpaceId, addr: u64, len: u8) -> LineGot
    requires inside { IsInItsGeneration vcpu.old }
    requires few { len ≤ 16 }
    ensures { HasGot (accessed space addr (reading len)) vcpu.old result vcpu.new }
{
    let mut bytes = [0u8; 16];
    let access = read_first(vcpu, space, addr, len as usize, &mut bytes);
    LineGot::ReadFew {
        access,
        bytes: FewBytes::new(bytes, len),
    }
}

// Reads bytes. Out of memory nothing was done.
fn read_bytes(
    alloc: Global,
    vcpu: &mut Vcpu<'_>,
    space: SpaceId,
    addr: u64,
    len: u8,
) -> Result<LineGot, AllocError>
    requires inside { IsInItsGeneration vcpu.old }
    ensures done { IfOk result (λ got. HasGot (accessed space addr (reading len)) vcpu.old got vcpu.new) }
    ensures unchanged { OnErr result (vcpu.new ≡ vcpu.old) }
{
    if len <= 16 {
        return Ok(read_few(vcpu, space, addr, len));
    }
    let answer = read(alloc, vcpu, space, addr, len)?;
    Ok(LineGot::Answered(answer))
}

/// Does what a line asks for. Out of memory nothing was done.
pub(crate) fn do_task<'a, O: Orderly, R: Wait>(
    rt: &R,
    alloc: Global,
    desk: &mut O,
    vcpu: Vcpu<'a>,
    bounce: Bounce,
    clerk: &mut Clerk,
    task: &PassTask<'_>,
) -> (Vcpu<'a>, Bounce, Result<LineGot, AllocError>)
    requires own { O.cabinet desk.old ≡ vcpu.cabinet }
    requires inside { IsInItsGeneration vcpu }
    requires fits { FitsTask bounce task.now }
    ensures done { IfOk result.2 (λ got. HasDone task.now clerk.old vcpu.entry got clerk.new result.0) }
    ensures err { OnErr result.2 ((result.0 ≡ vcpu.entry) × (clerk.new ≡ clerk.old)) }
    ensures room { result.1 ≡ bounce }
    ensures desk { O.cabinet desk.new ≡ O.cabinet desk.old }
{
    let mut vcpu = vcpu;
    match task {
        PassTask::Refused(_) => (vcpu, bounce, Ok(LineGot::Refused)),
        PassTask::Order(asked) => {
            let got = order(rt, desk, &mut vcpu, clerk, asked);
            (vcpu, bounce, got)
        }
        PassTask::Enter => {
            let answer = enter(&mut vcpu);
            (vcpu, bounce, Ok(LineGot::Answered(answer)))
        }
        PassTask::Leave => {
            let answer = leave(&mut vcpu);
            (vcpu, bounce, Ok(LineGot::Answered(answer)))
        }
        PassTask::Read { space, addr, len } => {
            let got = read_bytes(alloc, &mut vcpu, *space, *addr, *len);
            (vcpu, bounce, got)
        }
        PassTask::Write { space, addr, bytes } => {
            let answer = write(rt, &mut vcpu, *space, *addr, bytes.as_slice());
            (vcpu, bounce, Ok(LineGot::Answered(answer)))
        }
        PassTask::Copy {
            from,
            addr,
            len,
            to,
            to_addr,
        } => {
            let (vcpu, bounce, answer) = copy(
                rt,
                alloc,
                vcpu,
                bounce,
                (*from, *addr),
                (*to, *to_addr),
                *len,
            );
            match answer {
                Ok(answer) => (vcpu, bounce, Ok(LineGot::Answered(answer))),
                Err(error) => (vcpu, bounce, Err(error)),
            }
        }
    }
}

// Reaches the gate and does a line, and answers whether it was done. Out of memory nothing was done.
fn do_line<'a, O: Orderly, G: Gate, R: Wait>(
    rt: &R,
    alloc: Global,
    gate: &G,
    desk: &mut O,
    vcpu: Vcpu<'a>,
    bounce: Bounce,
    clerk: &mut Clerk,
    got: &mut Vec<LineGot>,
    line: &BlockLine<'_>,
) -> (Vcpu<'a>, Bounce, bool)
    requires own { O.cabinet desk.old ≡ vcpu.cabinet }
    requires inside { IsInItsGeneration vcpu }
    requires fits { FitsLine bounce line.now }
    ensures done { result.2 ≡ true → HasStepped line.now clerk.old vcpu.entry got.old.items clerk.new result.0 got.new.items }
    ensures stopped { result.2 ≡ false → (result.0 ≡ vcpu.entry) × (clerk.new ≡ clerk.old) × (got.new.items ≡ got.old.items) }
    ensures room { result.1 ≡ bounce }
    ensures desk { O.cabinet desk.new ≡ O.cabinet desk.old }
{
    gate.arrive(Actor::Pass(vcpu.id()), line.number);
    let Ok(()) = got.reserve(1) else {
        return (vcpu, bounce, false);
    };
    let (vcpu, bounce, done) = do_task(rt, alloc, desk, vcpu, bounce, clerk, &line.task);
    match done {
        Ok(answer) => {
            got.push_reserved(answer);
            (vcpu, bounce, true)
        }
        Err(_) => (vcpu, bounce, false),
    }
}

// Does lines in order, and reaches the gate before each. Where memory runs out it stops, and has done the first of them.
fn run_lines<'a, 'k, O: Orderly, G: Gate, R: Wait>(
    rt: &R,
    alloc: Global,
    gate: &G,
    desk: &mut O,
    mut vcpu: Vcpu<'a>,
    mut bounce: Bounce,
    mut clerk: Clerk,
    lines: Vec<BlockLine<'a>>,
    mut got: Vec<LineGot>,
) -> PassActor<'a, 'k>
    requires own { O.cabinet desk.old ≡ vcpu.cabinet }
    requires inside { IsInItsGeneration vcpu }
    requires fits { All (FitsLine bounce) lines.items }
    requires nothing { got.items ≡ [] }
    ensures run { HasRunLines lines.entry.items bounce clerk vcpu.entry result }
    ensures desk { O.cabinet desk.new ≡ O.cabinet desk.old }
{
    let _ = got.reserve(lines.len());
    for at in 0..lines.len() {
        let line = &lines[at];
        let (next, room, done) = do_line(
            rt, alloc, gate, desk, vcpu, bounce, &mut clerk, &mut got, line,
        );
        vcpu = next;
        bounce = room;
        if !done {
            return PassActor {
                vcpu,
                bounce,
                clerk,
                lines: PassLines::Resolved(lines),
                got,
                out_of_memory: true,
                text: None,
            };
        }
    }
    PassActor {
        vcpu,
        bounce,
        clerk,
        lines: PassLines::Resolved(lines),
        got,
        out_of_memory: false,
        text: None,
    }
}

// Does lines with their tasks, and then makes the text of what they wrote, where none gave an order.
fn run_tasks<'a, 'k, O: Orderly, G: Gate, R: Wait>(
    rt: &R,
    alloc: Global,
    gate: &G,
    desk: &mut O,
    vcpu: Vcpu<'a>,
    bounce: Bounce,
    clerk: Clerk,
    tasks: Vec<BlockLine<'a>>,
    got: Vec<LineGot>,
) -> PassActor<'a, 'k>
    requires own { O.cabinet desk.old ≡ vcpu.cabinet }
    requires inside { IsInItsGeneration vcpu }
    requires fits { All (FitsLine bounce) tasks.items }
    requires nothing { got.items ≡ [] }
    ensures run { HasDoneTasks tasks.entry.items bounce clerk vcpu.entry result }
    ensures desk { O.cabinet desk.new ≡ O.cabinet desk.old }
{
    let pass = vcpu.id();
    let mut actor = run_lines(rt, alloc, gate, desk, vcpu, bounce, clerk, tasks, got);
    actor.text = text_of(alloc, pass, tasks_in(&actor.lines), actor.got.as_slice());
    actor
}

// Resolves the names of lines, and does them then. Out of memory for that nothing was done.
fn run_resolved<'a, 'k, O: Orderly, G: Gate, R: Wait>(
    rt: &R,
    alloc: Global,
    gate: &G,
    desk: &mut O,
    vcpu: Vcpu<'a>,
    bounce: Bounce,
    clerk: Clerk,
    lines: &[OwnLine<'a>],
    names: &KnownNames,
    got: Vec<LineGot>,
) -> PassActor<'a, 'k>
    requires own { O.cabinet desk.old ≡ vcpu.cabinet }
    requires inside { IsInItsGeneration vcpu }
    requires room { bounce ≡ copy_room }
    requires fits { All IsPassLine lines.now }
    requires nothing { got.items ≡ [] }
    ensures run { HasRunBy names.now lines.now bounce clerk vcpu.entry result }
    ensures desk { O.cabinet desk.new ≡ O.cabinet desk.old }
{
    let Ok(tasks) = resolve_lines(alloc, names, lines) else {
        return PassActor {
            vcpu,
            bounce,
            clerk,
            lines: PassLines::Resolved(Vec::new(alloc)),
            got,
            out_of_memory: true,
            text: None,
        };
    };
    run_tasks(rt, alloc, gate, desk, vcpu, bounce, clerk, tasks, got)
}

// Does lines by names that nobody changes: one after another, where none gives an order.
fn run_unresolved<'a, 'k, O: Orderly, G: Gate, R: Wait>(
    rt: &R,
    alloc: Global,
    gate: &G,
    desk: &mut O,
    vcpu: Vcpu<'a>,
    bounce: Bounce,
    clerk: Clerk,
    lines: &[OwnLine<'a>],
    names: &KnownNames,
    got: Vec<LineGot>,
) -> PassActor<'a, 'k>
    requires own { O.cabinet desk.old ≡ vcpu.cabinet }
    requires inside { IsInItsGeneration vcpu }
    requires room { bounce ≡ copy_room }
    requires fits { All IsPassLine lines.now }
    requires nothing { got.items ≡ [] }
    ensures run { HasRunBy names.now lines.now bounce clerk vcpu.entry result }
    ensures desk { O.cabinet desk.new ≡ O.cabinet desk.old }
{
    if any_gives_order(lines) {
        return run_resolved(
            rt, alloc, gate, desk, vcpu, bounce, clerk, lines, names, got,
        );
    }
    run_plain(
        rt, alloc, gate, desk, vcpu, bounce, clerk, lines, names, got,
    )
}

impl<'a, 'k> PassActor<'a, 'k> {
    /// Does the lines in order, and reaches the gate before each. Where memory runs out it stops, and has done the first of them.
    ///
    /// Where their names are not resolved yet and none gives an order, each line is resolved, done and told before the next one, and its text alone
    /// is kept. Else all names are resolved before, and what the lines got is kept; the text of what they wrote is made at the end, where no line
    /// gave an order.
    ///
    /// The desk is of the machine of the virtual CPU, the bounce has room for what is copied, and nothing was done yet.
    pub fn run<O: Orderly, G: Gate, R: Wait>(
        self,
        rt: &R,
        alloc: Global,
        gate: &G,
        desk: &mut O,
    ) -> PassActor<'a, 'k>
        requires own { O.cabinet desk.old ≡ self.vcpu.cabinet }
        requires ready { IsReady self }
        ensures run { HasRun self.entry result }
        ensures desk { O.cabinet desk.new ≡ O.cabinet desk.old }
    {
        let PassActor {
            vcpu,
            bounce,
            clerk,
            lines,
            got,
            out_of_memory: _,
            text: _text,
        } = self;
        match lines {
            PassLines::Resolved(tasks) => {
                run_tasks(rt, alloc, gate, desk, vcpu, bounce, clerk, tasks, got)
            }
            PassLines::Unresolved { lines, names } => run_unresolved(
                rt,
                alloc,
                gate,
                desk,
                vcpu,
                bounce,
                clerk,
                lines.as_slice(),
                names,
                got,
            ),
        }
    }
}
