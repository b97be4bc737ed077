// The lines of the desk: what is known after each, and what it writes.
ghost use Rattle.std.specs.Prelude.{◌≡◌, IfOk, None, OnOk, OnErr};
ghost use Rattle.mem_base.specs.script.RaceLines.{new_watcher, order_line, own_line, says, task_line, watch_line};
ghost use Rattle.mem_base.specs.script.RefusalLines.{refused_line};
ghost use Rattle.mem_base.specs.script.Tasks as tasks;
ghost use Rattle.mem_base.specs.script.Watching.{watch_refusal};
ghost use Rattle.race_lines.specs.DeskLines.{desk_line_by, entry_got, entry_with};
ghost use Rattle.race_lines.specs.LineTasks.{AreThere, HasItsNames, IsNaming, name_made, named_by, refused_text, resolved, task_meant};

use crate::answered::Answered;
use crate::answers::add_answer;
use crate::known::KnownNames;
use crate::passes::add_name_refused;
use crate::said::LineSaid;
use crate::shown::{add_found, add_shown};
use crate::tasks::{LineTask, Naming, Refused, ResolvedTask};
use generation::Generation;
use mem_base::{DeskAnswer, DeskOrder, Edition, Name, RegionId, WatcherId};
use script_lines::add_refused_line;
use std::alloc::AllocError;

impl LineSaid {
    /// The refusal of a line by one of its names, and nothing else.
    pub fn refuse(&mut self, number: u32, why: &Refused) -> Result<(), AllocError>
        ensures { OnOk result (self.new ≡ says (refused_line number (refused_text why.now))) }
    {
        self.clear();
        add_name_refused(&mut self.own, number, why)
    }
}

impl KnownNames {
    // What an accepted order does to names.
    fn take_naming(&mut self, naming: &Naming) -> Result<(), AllocError>
        requires { AreThere self.old naming.now }
        ensures known { OnOk result (self.new ≡ named_by self.old naming.now) }
        ensures unchanged { OnErr result (self.new ≡ self.old) }
    {
        match naming {
            Naming::Keeps => Ok(()),
            Naming::MakesRegion { name, kind } => self.make_region(name, *kind),
            Naming::MakesSpace { name } => self.make_space(name),
            Naming::MakesListener { name } => self.make_listener(name),
            Naming::DropsRegion { name, region } => self.drop_region(name, *region),
            Naming::DropsListener { name, listener } => self.drop_listener(name, *listener),
        }
    }

    /// What is known after an order of the desk and its answer: nothing more after a refusal.
    pub fn take_answer(
        &mut self,
        order: &DeskOrder,
        naming: &Naming,
        answer: &DeskAnswer,
    ) -> Result<(), AllocError>
        requires { IsNaming self.old order.now naming.now }
        ensures known { OnOk result (self.new ≡ tasks.after_order self.old (name_made naming.now) order.now answer.now) }
        ensures unchanged { OnErr result (self.new ≡ self.old) }
    {
        match answer {
            DeskAnswer::Refused(_) => Ok(()),
            _ => self.take_naming(naming),
        }
    }

    // A line with an order, by the answer and its deliveries.
    fn answered(
        &mut self,
        said: &mut LineSaid,
        number: u32,
        order: &DeskOrder,
        naming: &Naming,
        answer: &DeskAnswer,
        from: usize,
        to: usize,
    ) -> Result<(), AllocError>
        requires { IsNaming self.old order.now naming.now }
        ensures known { OnOk result (self.new ≡ tasks.after_order self.old (name_made naming.now) order.now answer.now) }
        ensures said { OnOk result (said.new ≡ (order_line self.old number order.now (entry_with answer.now from to)
            (tasks.after_order self.old (name_made naming.now) order.now answer.now)).said) }
    {
        self.take_answer(order, naming, answer)?;
        said.clear();
        said.from = from;
        said.to = to;
        add_answer(&mut said.own, self.names(), number, order, answer)
    }

    // A line with an order, by what it got.
    fn ordered(
        &mut self,
        said: &mut LineSaid,
        number: u32,
        order: &DeskOrder,
        naming: &Naming,
        got: Option<Answered>,
    ) -> Result<(), AllocError>
        requires { IsNaming self.old order.now naming.now }
        ensures known { OnOk result (self.new ≡ tasks.after_order self.old (name_made naming.now) order.now (entry_got got.entry).answer) }
        ensures said { OnOk result (said.new ≡ (order_line self.old number order.now (entry_got got.entry)
            (tasks.after_order self.old (name_made naming.now) order.now (entry_got got.entry).answer)).said) }
    {
        match got {
            Some(got) => self.answered(said, number, order, naming, got.answer, got.from, got.to),
            None => self.answered(said, number, order, naming, &DeskAnswer::Done, 0, 0),
        }
    }

    // A watcher joins, unless it is refused.
    fn watched(
        &mut self,
        said: &mut LineSaid,
        number: u32,
        name: &Name,
        region: RegionId,
        first: u64,
        last: u64,
        generation: &Generation,
    ) -> Result<(), AllocError>
        requires { tasks.watcher_named self.old name.now ≡ None }
        ensures known { OnOk result (self.new ≡ (watch_line self.old number generation.now.forest name.now
            (new_watcher self.old region first last) (watch_refusal self.old.watchers first last)).known) }
        ensures said { OnOk result (said.new ≡ (watch_line self.old number generation.now.forest name.now
            (new_watcher self.old region first last) (watch_refusal self.old.watchers first last)).said) }
    {
        said.clear();
        match self.watch_refusal(first, last) {
            Some(why) => add_refused_line(&mut said.own, number, self.names(), why),
            None => self.add_watcher(&mut said.own, name, region, first, last, generation),
        }
    }

    // What a task does and writes, before the watchers catch up.
    fn take_task(
        &mut self,
        said: &mut LineSaid,
        number: u32,
        task: &LineTask,
        got: Option<Answered>,
        generation: &Generation,
    ) -> Result<(), AllocError>
        requires { HasItsNames self.old task.now }
        ensures known { OnOk result (self.new
            ≡ (task_line self.old number (task_meant task.now) (entry_got got.entry) generation.now.number generation.now.forest).known) }
        ensures said { OnOk result (said.new
            ≡ (task_line self.old number (task_meant task.now) (entry_got got.entry) generation.now.number generation.now.forest).said) }
    {
        said.clear();
        match task {
            LineTask::Ordered { order, naming } => self.ordered(said, number, order, naming, got),
            LineTask::Shown { space } => add_shown(&mut said.own, self.names(), generation, *space),
            LineTask::Found { space, addr } => {
                add_found(&mut said.own, self.names(), generation, *space, *addr)
            }
            LineTask::Watched {
                name,
                region,
                first,
                last,
            } => self.watched(said, number, name, *region, *first, *last, generation),
            LineTask::Unwatched { name, watcher } => {
                self.remove_watcher(&mut said.own, name, *watcher)
            }
            _ => Ok(()),
        }
    }

    // The same of a line whose names may be refused.
    fn take_own(
        &mut self,
        said: &mut LineSaid,
        number: u32,
        task: &ResolvedTask,
        got: Option<Answered>,
        generation: &Generation,
    ) -> Result<(), AllocError>
        requires { IfOk task.now (HasItsNames self.old) }
        ensures known { OnOk result (self.new
            ≡ (own_line self.old number (resolved task.now) (entry_got got.entry) generation.now.number generation.now.forest).known) }
        ensures said { OnOk result (said.new
            ≡ (own_line self.old number (resolved task.now) (entry_got got.entry) generation.now.number generation.now.forest).said) }
    {
        match task {
            Ok(task) => self.take_task(said, number, task, got, generation),
            Err(why) => said.refuse(number, why),
        }
    }

    /// A line of the desk, once its order was answered and the current generation was asked for: what is known after it, and
    /// what it writes, which takes the place of what stood there.
    ///
    /// `number` is that of the line in the script, `task` what the line asks for by what is known, `got` what the desk
    /// answered to its order, if it has one, and `generation` the one that is current after that: the views that are shown
    /// and what the watchers are told are those of it. All orders of the line have been given by now, so out of memory the
    /// line is done and its text is lost; what is known is then of no use any more.
    pub fn take_line(
        &mut self,
        said: &mut LineSaid,
        number: u32,
        task: &ResolvedTask,
        got: Option<Answered>,
        generation: &Generation,
    ) -> Result<(), AllocError>
        requires { IfOk task.now (HasItsNames self.old) }
        ensures known { OnOk result (self.new ≡ (desk_line_by self.old number (resolved task.now) (entry_got got.entry)
            generation.now.number generation.now.forest).known) }
        ensures said { OnOk result (said.new ≡ (desk_line_by self.old number (resolved task.now) (entry_got got.entry)
            generation.now.number generation.now.forest).said) }
    {
        self.take_own(said, number, task, got, generation)?;
        said.notices.clear();
        self.catch_up(&mut said.notices, generation)
    }
}
