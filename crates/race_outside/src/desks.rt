// A line of the desk.
ghost use Rattle.std.specs.Prelude.{◌≡◌, IfOk, OnErr, OnOk};
ghost use Rattle.std.specs.Arc.{arc_value};
ghost use Rattle.mem_base.specs.script.Race.{actor_number, alone, desk_number};
ghost use Rattle.mem_base.specs.script.RaceLines.{said_text};
ghost use Rattle.run_laws.specs.Fitting.{FitsCommand};
ghost use Rattle.desk_orders.specs.Records.{IsLater};
ghost use Rattle.race_lines.specs.DeskLines.{entry_got};
ghost use Rattle.race_levels.specs.Ready.{AreReady};
ghost use Rattle.race_outside.specs.Asked.{IsAsked, LooksAt, StopsAsking, TakesOwn, entry_of_receipt};
ghost use Rattle.race_levels.specs.Outside.{StepsOn, StopsIn};

use crate::levels::meet_all;
use desk_lock::{Receipt, Record};
use generation::Generation;
use mem_base::{Command, DeskOrder};
use race_lines::{Answered, KnownNames, LineSaid, LineTask, ResolvedTask, task_of};
use race_phases::DESK_NUMBER;
use std::alloc::{AllocError, Global};
use std::sync::{Arc, Wait};
use vcpu_pass::Vcpu;

// Gives the order of a line, where its task has one. Out of memory nothing was done.
fn own_order<R: Wait>(
    rt: &R,
    desk: &mut Record,
    task: &ResolvedTask<'_>,
) -> Result<Option<Receipt>, AllocError>
    ensures took { IfOk result (λ got. TakesOwn desk.old task.now got desk.new) }
    ensures later { IsLater desk.old desk.new }
    ensures err { OnErr result (desk.new ≡ desk.old) }
{
    match task {
        Ok(LineTask::Ordered { order, naming: _ }) => {
            let receipt = desk.order(rt, DESK_NUMBER, order)?;
            Ok(Some(receipt))
        }
        _ => Ok(None),
    }
}

// Asks for the current generation. Out of memory nothing was done.
fn look<R: Wait>(rt: &R, desk: &mut Record) -> Result<Arc<Generation, Global>, AllocError>
    ensures looked { IfOk result (λ current. LooksAt desk.old (arc_value current) desk.new) }
    ensures later { IsLater desk.old desk.new }
    ensures err { OnErr result (desk.new ≡ desk.old) }
{
    let Receipt {
        answer: _answer,
        from: _,
        to: _,
        note: _note,
        current,
    } = desk.order(rt, DESK_NUMBER, &DeskOrder::Look)?;
    match current {
        Some(current) => Ok(current),
        None => unreachable!(),
    }
}

// What a line asked for, and got.
#[derive(Drop)]
pub(crate) struct Asked<'a> {
    pub(crate) task: ResolvedTask<'a>,
    pub(crate) got: Option<Receipt>,
    pub(crate) current: Arc<Generation, Global>,
}

// Gives all orders of a line: its own, if it has one, and then asks for the current generation. Out of memory the line has not
// asked for that.
fn ask_line<'a, R: Wait>(
    rt: &R,
    alloc: Global,
    desk: &mut Record,
    known: &KnownNames,
    command: &'a Command,
) -> Result<Asked<'a>, AllocError>
    ensures asked { IfOk result (λ x. IsAsked desk.old known.now command.now x desk.new) }
    ensures stopped { OnErr result (StopsAsking desk.old known.now command.now desk.new) }
    ensures later { IsLater desk.old desk.new }
{
    let task = task_of(alloc, known, command)?;
    let got = own_order(rt, desk, &task)?;
    let current = look(rt, desk)?;
    Ok(Asked { task, got, current })
}

// What a line got for its order.
fn answered(got: &Option<Receipt>) -> Option<Answered<'_>>
    ensures { entry_got result ≡ entry_of_receipt got.now }
{
    match got {
        Some(receipt) => Some(Answered {
            answer: &receipt.answer,
            from: receipt.from,
            to: receipt.to,
        }),
        None => None,
    }
}

/// A line of the desk outside the block: the record takes its order, if it has one, and a look; all virtual CPUs meet what the
/// record has seen then; and it is told what is known after the line and what the line writes, which takes the place of what
/// stood in `said`.
///
/// The numbers of the command fit, as those of every script that was read do. It may wait where a `load` replaces a part of a word.
/// Out of memory the line was not done, or its own order was given, or the line was done and what it writes is lost; what is known
/// is then of no use any more. All have seen the same history then too.
pub fn desk_line<R: Wait>(
    rt: &R,
    alloc: Global,
    desk: &mut Record,
    cpus: &mut [Vcpu<'_>],
    known: &mut KnownNames,
    said: &mut LineSaid,
    number: u32,
    command: &Command,
) -> Result<(), AllocError>
    requires actor { actor_number command.now ≡ desk_number }
    requires fits { FitsCommand command.now }
    requires ready { AreReady desk.old cpus.old }
    ensures ready { AreReady desk.new cpus.new }
    ensures later { IsLater desk.old desk.new }
    ensures step { OnOk result (StepsOn desk.old known.old (alone (number, command.now)) desk.new known.new
        (said_text known.new.names desk.new.part.desk.listening.journal said.new)) }
    ensures stopped { OnErr result (StopsIn desk.old known.old (alone (number, command.now)) desk.new) }
{
    let asked = ask_line(rt, alloc, desk, known, command);
    desk.has_seen_legal();
    meet_all(desk, cpus);
    match asked {
        Ok(asked) => known.take_line(
            said,
            number,
            &asked.task,
            answered(&asked.got),
            &asked.current,
        ),
        Err(error) => Err(error),
    }
}
