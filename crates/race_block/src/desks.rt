// The desk that does its lines.
ghost use Rattle.std.specs.Prelude.{◌≡◌, true, false, IfOk, OnOk, OnErr};
ghost use Rattle.race_lines.specs.DeskLines.{entry_got};
ghost use Rattle.race_lines.specs.LineTasks.{HasItsNames};
ghost use Rattle.race_block.specs.Desks.{AreNotesOf, DoesDeskLine, Gives, GivesOwn, HasRun, IsAsked, IsNotDone, IsReady, KeepsNotes};
ghost use Rattle.race_block.specs.Desks.{LeavesLine, StopsIn, entry_of, line_meant};

use crate::tasks::OwnLine;
use desk_orders::{Clerk, Orderly, Receipt};
use epoch_rule::Note;
use generation::Generation;
use mem_base::{DeskAnswer, DeskOrder};
use outside::{Actor, Gate};
use race_lines::{Answered, KnownNames, LineSaid, LineTask, ResolvedTask, task_of};
use std::alloc::{AllocError, Global};
use std::sync::{Arc, Wait};

/// The desk in a block: what it knows of names, the clerk of its orders, its lines, and what they wrote.
#[derive(Drop)]
pub struct DeskActor<'a> {
    pub known: KnownNames,
    pub clerk: Clerk,
    pub lines: Vec<OwnLine<'a>>,
    /// What the first lines wrote, one for each.
    pub said: Vec<LineSaid>,
    /// A note of each order: what the writer had seen after it.
    pub notes: Vec<Note<Generation>>,
    /// Memory ran out before all lines were done, or before one's text was kept.
    pub out_of_memory: bool,
}

// What an order got.
#[derive(Drop)]
pub(crate) struct Given {
    pub(crate) answer: DeskAnswer,
    pub(crate) from: usize,
    pub(crate) to: usize,
    pub(crate) current: Option<Arc<Generation, Global>>,
}

// Gives an order, and keeps its note. Out of memory nothing was done.
fn ask<O: Orderly, R: Wait>(
    rt: &R,
    desk: &mut O,
    clerk: &mut Clerk,
    notes: &mut Vec<Note<Generation>>,
    order: &DeskOrder,
) -> Result<Given, AllocError>
    ensures given { IfOk result (λ got. Gives (O.cabinet desk.old) order.now clerk.old notes.old.items got clerk.new notes.new.items) }
    ensures err { OnErr result ((clerk.new ≡ clerk.old) × (notes.new.items ≡ notes.old.items)) }
    ensures own { KeepsNotes (O.cabinet desk.old) notes.old.items notes.new.items }
    ensures desk { O.cabinet desk.new ≡ O.cabinet desk.old }
{
    notes.reserve(1)?;
    let Receipt {
        answer,
        from,
        to,
        note,
        current,
    } = desk.give(rt, clerk, order)?;
    notes.push_reserved(note);
    Ok(Given {
        answer,
        from,
        to,
        current,
    })
}

// Gives the order of a line, where its task has one. Out of memory nothing was done.
fn ask_own<O: Orderly, R: Wait>(
    rt: &R,
    desk: &mut O,
    clerk: &mut Clerk,
    notes: &mut Vec<Note<Generation>>,
    task: &ResolvedTask<'_>,
) -> Result<Option<Given>, AllocError>
    ensures given { IfOk result (λ got. GivesOwn (O.cabinet desk.old) task.now clerk.old notes.old.items got clerk.new notes.new.items) }
    ensures err { OnErr result ((clerk.new ≡ clerk.old) × (notes.new.items ≡ notes.old.items)) }
    ensures own { KeepsNotes (O.cabinet desk.old) notes.old.items notes.new.items }
    ensures desk { O.cabinet desk.new ≡ O.cabinet desk.old }
{
    match task {
        Ok(LineTask::Ordered { order, naming: _ }) => {
            let got = ask(rt, desk, clerk, notes, order)?;
            Ok(Some(got))
        }
        _ => Ok(None),
    }
}

// What a line asked for, and got.
#[derive(Drop)]
pub(crate) struct Asked<'a> {
    pub(crate) task: ResolvedTask<'a>,
    pub(crate) got: Option<Given>,
    pub(crate) current: Arc<Generation, Global>,
}

// Gives all orders of a line: its own, if it has one, and then asks for the current generation. Out of memory the line has not asked for
// that yet.
fn ask_line<'a, O: Orderly, R: Wait>(
    rt: &R,
    alloc: Global,
    desk: &mut O,
    known: &KnownNames,
    clerk: &mut Clerk,
    notes: &mut Vec<Note<Generation>>,
    own: &OwnLine<'a>,
) -> Result<Asked<'a>, AllocError>
    ensures asked { IfOk result (λ x. IsAsked known.now (line_meant own.now) clerk.old notes.old.items x clerk.new notes.new.items) }
    ensures stopped { OnErr result (StopsIn known.now (line_meant own.now) clerk.old notes.old.items clerk.new notes.new.items) }
    ensures own { KeepsNotes (O.cabinet desk.old) notes.old.items notes.new.items }
    ensures desk { O.cabinet desk.new ≡ O.cabinet desk.old }
{
    let task = task_of(alloc, known, &own.line.1)?;
    let got = ask_own(rt, desk, clerk, notes, &task)?;
    let Given { current, .. } = ask(rt, desk, clerk, notes, &DeskOrder::Look)?;
    match current {
        Some(current) => Ok(Asked { task, got, current }),
        None => unreachable!(),
    }
}

fn answered(got: &Option<Given>) -> Option<Answered<'_>>
    ensures { entry_got result ≡ entry_of got.now }
{
    match got {
        Some(got) => Some(Answered {
            answer: &got.answer,
            from: got.from,
            to: got.to,
        }),
        None => None,
    }
}

// Keeps what a line wrote, and what is known after it. It fails only where memory runs out.
fn write_line(
    alloc: Global,
    known: &mut KnownNames,
    said: &mut Vec<LineSaid>,
    number: u32,
    asked: &Asked<'_>,
) -> Result<(), AllocError>
    requires names { IfOk asked.now.task (HasItsNames known.old) }
    ensures { OnOk result (LeavesLine known.old number asked.now said.old.items known.new said.new.items) }
{
    let mut written = LineSaid::new(alloc);
    known.take_line(
        &mut written,
        number,
        &asked.task,
        answered(&asked.got),
        &asked.current,
    )?;
    said.push(written)?;
    Ok(())
}

// Reaches the gate and does a line, and answers whether it was done, and what it wrote kept.
fn do_line<O: Orderly, G: Gate, R: Wait>(
    rt: &R,
    alloc: Global,
    gate: &G,
    desk: &mut O,
    known: &mut KnownNames,
    clerk: &mut Clerk,
    notes: &mut Vec<Note<Generation>>,
    said: &mut Vec<LineSaid>,
    own: &OwnLine<'_>,
) -> bool
    ensures done { result ≡ true → DoesDeskLine known.old (line_meant own.now) clerk.old notes.old.items said.old.items clerk.new notes.new.items
        known.new said.new.items }
    ensures stopped { result ≡ false → IsNotDone known.old (line_meant own.now) clerk.old notes.old.items clerk.new notes.new.items }
    ensures own { KeepsNotes (O.cabinet desk.old) notes.old.items notes.new.items }
    ensures desk { O.cabinet desk.new ≡ O.cabinet desk.old }
{
    gate.arrive(Actor::Desk, own.line.0);
    let Ok(asked) = ask_line(rt, alloc, desk, known, clerk, notes, own) else {
        return false;
    };
    let Ok(()) = write_line(alloc, known, said, own.line.0, &asked) else {
        return false;
    };
    true
}

impl<'a> DeskActor<'a> {
    /// Does the lines in order, and reaches the gate before each. Where memory runs out it stops, and has done the first of them; it may then
    /// have given the order of the next one.
    ///
    /// Nothing was done yet.
    pub fn run<O: Orderly, G: Gate, R: Wait>(
        self,
        rt: &R,
        alloc: Global,
        gate: &G,
        desk: &mut O,
    ) -> DeskActor<'a>
        requires ready { IsReady self }
        ensures run { HasRun self.entry result }
        ensures own { AreNotesOf (O.cabinet desk.old) result.notes.items }
        ensures desk { O.cabinet desk.new ≡ O.cabinet desk.old }
    {
        let DeskActor {
            mut known,
            mut clerk,
            lines,
            mut said,
            mut notes,
            out_of_memory: _,
        } = self;
        for at in 0..lines.len() {
            let own = &lines[at];
            let done = do_line(
                rt, alloc, gate, desk, &mut known, &mut clerk, &mut notes, &mut said, own,
            );
            if !done {
                return DeskActor {
                    known,
                    clerk,
                    lines,
                    said,
                    notes,
                    out_of_memory: true,
                };
            }
        }
        DeskActor {
            known,
            clerk,
            lines,
            said,
            notes,
            out_of_memory: false,
        }
    }
}
