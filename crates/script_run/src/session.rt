// What stands while a script runs, and the next command of it.
ghost use Rattle.std.specs.Prelude.{◌≡◌, ◌||◌, OnOk};
ghost use Rattle.mem_base.specs.script.Race.{is_end, is_par};
ghost use Rattle.mem_base.specs.script.Run.{step};
ghost use Rattle.mem_base.specs.script.Tasks.{known_at_first};
ghost use Rattle.run_laws.specs.Fitting.{FitsCommand};
ghost use Rattle.script_run.specs.Adding.{StepAdds};
ghost use Rattle.script_run.specs.Standing.{MayGoOn, state_of};

use crate::desk::desk_line;
use crate::passes::pass_line;
use mem_base::Command;
use race_lines::{KnownNames, LineSaid};
use script_lines::Line;
use script_machine::Machine;
use script_text::pass_of_line;
use std::alloc::{AllocError, Global};
use std::marker::Model;

/// The machine, and what is known of the names that a script made and of its watchers, as its commands so far left them.
///
/// `run_on` does a script's commands over one, one after another. Whoever wants to look between two commands does the same. It is
/// seen as what is known of names and the machine's world (`Standing`), which together are the state of the run (`state_of`).
#[derive(Drop)]
pub struct Session<M: Machine + Drop> {
    alloc: Global,
    machine: M,
    known: KnownNames,
    said: LineSaid,
}

impl<M: Machine + Drop> Model for Session<M> {
    ghost use Rattle.script_run.specs.Standing.{Standing};

    ghost Value = { Standing };

    ghost view = { λ s. record { known = s.known; world = M.world s.machine } };
}

// An end of a block, which does nothing in a plain run.
fn is_block_end(command: &Command) -> bool
    ensures { result ≡ (is_par command.now || is_end command.now) }
{
    matches!(command, Command::Par | Command::End)
}

impl<M: Machine + Drop> Session<M> {
    /// A session over a machine on which no command was done yet, with no names. It takes no memory.
    pub fn new(alloc: Global, machine: M) -> Session<M>
        ensures known { result.known ≡ known_at_first }
        ensures world { result.world ≡ M.world machine }
    {
        Session {
            alloc,
            machine,
            known: KnownNames::new(alloc),
            said: LineSaid::new(alloc),
        }
    }

    /// Does the command of line `number`, and adds what it writes to a text: its own lines, then the calls that listeners got by it.
    /// A refused command writes its refusal, and that is no error. After each of the desk's commands, refused ones too, the watchers
    /// catch up; the ends of a block do nothing.
    ///
    /// The caller has made the session, and done each command before this one with `Ok`; the numbers in the command are those of one
    /// that was read from a text. It fails only where memory runs out; the session may then have done a part of the command, and is
    /// to be dropped.
    pub fn step(
        &mut self,
        text: &mut Line,
        number: u32,
        command: &Command,
    ) -> Result<(), AllocError>
        requires ready { MayGoOn self.old }
        requires fits { FitsCommand command.now }
        ensures { OnOk result (StepAdds text.old text.new (step (state_of self.old) number command.now) self.new) }
    {
        if is_block_end(command) {
            return Ok(());
        }
        match pass_of_line(command) {
            Some(pass) => pass_line(
                self.alloc,
                &mut self.machine,
                &self.known,
                text,
                number,
                pass,
                command,
            ),
            None => desk_line(
                self.alloc,
                &mut self.machine,
                &mut self.known,
                &mut self.said,
                text,
                number,
                command,
            ),
        }
    }

    /// The machine, as the commands so far left it.
    pub fn machine(&self) -> &M
        ensures { M.world result.now ≡ self.now.world }
    {
        &self.machine
    }

    /// What is known of the names that the commands so far made, and of their watchers.
    pub fn known(&self) -> &KnownNames
        ensures { result.now ≡ self.now.known }
    {
        &self.known
    }
}
