// Names that are made and let go, by what is known of names alone.
ghost use Rattle.std.specs.Prelude.{IfOk};
ghost use Rattle.race_lines.specs.LineTasks.{HasItsNames};

use mem_base::{Command, DeskAnswer};
use race_lines::{KnownNames, LineTask, ResolvedTask, task_of};
use script_text::{Script, parse};
use std::alloc::Global;

const ACCEPTED: &str = "region R ram 0x1000\n\
region C container 0x10000\n\
region W alias 0x100 R 0\n\
space S C\n\
add C 0 R\n\
listen L S prio 1\n\
drop W\n\
unlisten L\n\
region W rom 0x1000\n\
listen L S\n\
load R 0 0102\n\
watch N R 0 0xfff\n\
show S\n\
v2 dma S 0 8 to S 0x100\n\
v3 do move R 0x100\n\
reap\n";

// Takes the answer of a desk that accepts the order of a line, if it has one.
fn takes(known: &mut KnownNames, task: &ResolvedTask) -> bool
    requires { IfOk task.now (HasItsNames known.old) }
{
    match task {
        Ok(LineTask::Ordered { order, naming }) => {
            known.take_answer(order, naming, &DeskAnswer::Done).is_ok()
        }
        Ok(_) => true,
        Err(_) => false,
    }
}

// Whether a line has a task, and its order is accepted.
fn is_accepted(alloc: Global, known: &mut KnownNames, command: &Command) -> bool {
    match task_of(alloc, known, command) {
        Ok(task) => takes(known, &task),
        Err(_) => false,
    }
}

// Whether all lines are.
fn are_accepted(alloc: Global, known: &mut KnownNames, script: &Script) -> bool {
    for (_, command) in script.lines() {
        if !is_accepted(alloc, known, command) {
            return false;
        }
    }
    true
}

fn holds(alloc: Global) -> bool {
    let mut known = KnownNames::new(alloc);
    match parse(alloc, ACCEPTED.as_bytes()) {
        Ok(script) => are_accepted(alloc, &mut known, &script),
        Err(_) => false,
    }
}

#[test]
fn names_are_made_and_let_go(rt: HostRuntime) {
    assert!(rt; holds(rt.alloc()));
}
