// A line of a pass.
ghost use Rattle.std.specs.Prelude.{◌≡◌, ◌≢◌, ℕ, ◌<◌, ◌≤◌, All, IfOk, OnErr, OnOk, length, slice_index_or};
ghost use Rattle.mem_base.specs.script.Race.{actor_number, alone};
ghost use Rattle.run_laws.specs.Fitting.{FitsCommand};
ghost use Rattle.generation.specs.Published.{Published};
ghost use Rattle.epoch_rule.specs.Values.{PassValue};
ghost use Rattle.pass_lines.specs.Doing.{IsInItsGeneration};
ghost use Rattle.desk_orders.specs.Records.{IsLater};
ghost use Rattle.race_levels.specs.Levels.{IsHeard, IsOfCabinet};
ghost use Rattle.race_levels.specs.Ready.{AreReady};
ghost use Rattle.race_levels.specs.Outside.{StopsIn, WritesOn};
ghost use Rattle.race_outside.specs.Passes.{DoesPassLine, FitsTask, HasDoneLine, HasDoneNothing, HasOrdered, HasSettled, IsWritten, said_by};

use crate::levels::level;
use desk_lock::{Receipt, Record};
use io_window::Bounce;
use mem_base::{Command, DeskOrder, PassId};
use pass_lines::{LineAnswer, copy, enter, leave, read, write};
use race_lines::{KnownNames, LineTask, PassSaid, ResolvedTask, task_of};
use script_lines::Line;
use std::alloc::{AllocError, Global};
use std::sync::Wait;
use vcpu_pass::Vcpu;

// What is kept of an answer until it is written.
fn said_by<'a>(answer: LineAnswer) -> PassSaid<'a>
    ensures { result ≡ said_by answer }
{
    match answer {
        LineAnswer::Entered(number) => PassSaid::Entered(number),
        LineAnswer::Left => PassSaid::Left,
        LineAnswer::Read { access, bytes } => PassSaid::Read { access, bytes },
        LineAnswer::Wrote(access) => PassSaid::Written(access),
        LineAnswer::Copied(access) => PassSaid::Copied(access),
    }
}

// Gives an order of the pass of this number to the record. Out of memory nothing was done.
fn give<'a, R: Wait>(
    rt: &R,
    desk: &mut Record,
    who: u32,
    order: &DeskOrder,
) -> Result<PassSaid<'a>, AllocError>
    ensures given { IfOk result (λ said. (a : PassValue Published) → HasOrdered who desk.old a order.now said desk.new a) }
    ensures err { OnErr result (desk.new ≡ desk.old) }
    ensures later { IsLater desk.old desk.new }
{
    let Receipt {
        answer,
        from,
        to,
        note: _note,
        current: _current,
    } = desk.order(rt, who, order)?;
    Ok(PassSaid::Answered { answer, from, to })
}

// Does what a line of the pass of this number asks for, on its virtual CPU or by an order. Out of memory nothing was done.
fn do_task<'a, 'c, R: Wait>(
    rt: &R,
    alloc: Global,
    desk: &mut Record,
    vcpu: Vcpu<'c>,
    bounce: Bounce,
    who: u32,
    task: &ResolvedTask<'a>,
) -> (Vcpu<'c>, Bounce, Result<PassSaid<'a>, AllocError>)
    requires inside { IsInItsGeneration vcpu }
    requires fits { FitsTask bounce task.now }
    ensures done { IfOk result.2 (λ said. DoesPassLine who desk.old vcpu.entry task.now said desk.new result.0) }
    ensures err { OnErr result.2 ((desk.new ≡ desk.old) × (result.0 ≡ vcpu.entry)) }
    ensures room { result.1 ≡ bounce }
    ensures later { IsLater desk.old desk.new }
{
    let mut vcpu = vcpu;
    match task {
        Ok(LineTask::Ordered { order, naming: _ }) => {
            let said = give(rt, desk, who, order);
            (vcpu, bounce, said)
        }
        Ok(LineTask::Entered) => {
            let answer = enter(&mut vcpu);
            (vcpu, bounce, Ok(said_by(answer)))
        }
        Ok(LineTask::Left) => {
            let answer = leave(&mut vcpu);
            (vcpu, bounce, Ok(said_by(answer)))
        }
        Ok(LineTask::Read { space, addr, len }) => {
            let said = match read(alloc, &mut vcpu, *space, *addr, *len) {
                Ok(answer) => Ok(said_by(answer)),
                Err(error) => Err(error),
            };
            (vcpu, bounce, said)
        }
        Ok(LineTask::Written { space, addr, bytes }) => {
            let answer = write(rt, &mut vcpu, *space, *addr, bytes.as_slice());
            (vcpu, bounce, Ok(said_by(answer)))
        }
        Ok(
            LineTask::Copied {
                space,
                addr,
                len,
                to_space,
                to_addr,
            },
        ) => {
            let (vcpu, bounce, answer) = copy(
                rt,
                alloc,
                vcpu,
                bounce,
                (*space, *addr),
                (*to_space, *to_addr),
                *len,
            );
            match answer {
                Ok(answer) => (vcpu, bounce, Ok(said_by(answer))),
                Err(error) => (vcpu, bounce, Err(error)),
            }
        }
        Ok(_) => (vcpu, bounce, Ok(PassSaid::Nothing)),
        Err(why) => (vcpu, bounce, Ok(PassSaid::Refused(*why))),
    }
}

// Does what a line of the pass of this number asks for, with its virtual CPU among those of the race. Out of memory nothing was done.
fn do_line<'a, 'c, R: Wait>(
    rt: &R,
    alloc: Global,
    desk: &mut Record,
    cpus: &mut Vec<Vcpu<'c>>,
    bounce: Bounce,
    who: u32,
    task: &ResolvedTask<'a>,
) -> (Bounce, Result<PassSaid<'a>, AllocError>)
    requires near { who < length cpus.old.items }
    requires inside { All IsInItsGeneration cpus.old.items }
    requires fits { FitsTask bounce task.now }
    ensures done { IfOk result.1 (λ said. HasDoneLine who desk.old cpus.old.items task.now said desk.new cpus.new.items) }
    ensures err { OnErr result.1 (HasDoneNothing who desk.old cpus.old.items desk.new cpus.new.items) }
    ensures room { result.0 ≡ bounce }
    ensures later { IsLater desk.old desk.new }
{
    let at = who as usize;
    let vcpu = cpus.remove(at);
    let (vcpu, bounce, said) = do_task(rt, alloc, desk, vcpu, bounce, who, task);
    let _ = cpus.insert(at, vcpu);
    (bounce, said)
}

// The record hears the virtual CPU of this number, which did a line, and all meet it. What the others have seen it heard before.
fn settle(desk: &mut Record, cpus: &mut Vec<Vcpu<'_>>, who: u32)
    requires near { who < length cpus.old.items }
    requires own { All (IsOfCabinet desk.old.seat.cabinet) cpus.old.items }
    requires others { (i : ℕ) (d : PassValue Published) → i < length cpus.old.items → i ≢ who
        → IsHeard desk.old.seat.seen (slice_index_or cpus.old.items i d) }
    ensures settled { HasSettled desk.old cpus.old.items desk.new cpus.new.items }
{
    level(desk, cpus.as_mut_slice(), who as usize);
}

// Adds what a line writes to the text, where it was done.
fn write_line(
    text: &mut Line,
    known: &KnownNames,
    desk: &Record,
    number: u32,
    pass: PassId,
    said: Result<PassSaid<'_>, AllocError>,
) -> Result<(), AllocError>
    ensures written { OnOk result
        (IsWritten known.now.names desk.now.part.desk.listening.journal pass number text.old text.new said.entry) }
{
    match said {
        Ok(said) => said.add_text(text, known.names(), desk.journal(), number, pass),
        Err(error) => Err(error),
    }
}

/// A line of a pass outside the block: its virtual CPU does it, or the record takes its order; all virtual CPUs and the record see
/// the same history then, and what the line writes is added to the text.
///
/// The numbers of the command fit, as those of every script that was read do, and the bounce holds the 64 bytes that a line copies at
/// most. It may wait where a part of a word is replaced. Out of memory the line was not done, or it was done and its text is lost. All
/// have seen the same history then too.
pub fn pass_line<'c, R: Wait>(
    rt: &R,
    alloc: Global,
    desk: &mut Record,
    cpus: &mut Vec<Vcpu<'c>>,
    known: &KnownNames,
    bounce: Bounce,
    text: &mut Line,
    number: u32,
    pass: PassId,
    command: &Command,
) -> (Bounce, Result<(), AllocError>)
    requires actor { actor_number command.now ≡ pass.0 }
    requires fits { FitsCommand command.now }
    requires ready { AreReady desk.old cpus.old.items }
    requires room { 64 ≤ bounce }
    ensures ready { AreReady desk.new cpus.new.items }
    ensures later { IsLater desk.old desk.new }
    ensures step { OnOk result.1 (WritesOn desk.old known.now (alone (number, command.now)) desk.new known.now text.old text.new) }
    ensures stopped { OnErr result.1 (StopsIn desk.old known.now (alone (number, command.now)) desk.new) }
    ensures room { result.0 ≡ bounce }
{
    let who = pass.number();
    let Ok(task) = task_of(alloc, known, command) else {
        return (bounce, Err(AllocError));
    };
    let (bounce, said) = do_line(rt, alloc, desk, cpus, bounce, who, &task);
    settle(desk, cpus, who);
    let done = write_line(text, known, desk, number, pass, said);
    (bounce, done)
}
