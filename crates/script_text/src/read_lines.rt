// The lines of a script as they are read, and whose each is.
ghost use Rattle.std.specs.Prelude.{◌≡◌, [], ◌∷◌, ◌++◌, MatchOption, OnOk, map};
ghost use Rattle.mem_base.specs.script.Race.{actor_number, desk_number};

use mem_base::{Command, PassId};
use std::alloc::{AllocError, Global};
use std::marker::Model;

/// The number of the desk among the actors, after those of the sixteen passes.
pub const DESK_NUMBER: u32 = 16;

/// The number of the actor whose line a command is: that of its pass, or the desk's.
pub fn actor_number(command: &Command) -> u32
    ensures { result ≡ actor_number command.now }
{
    match command {
        Command::Pass { pass, command: _ } => pass.number(),
        _ => DESK_NUMBER,
    }
}

/// The pass whose line a command is; `None` for a line of the desk.
pub fn pass_of_line(command: &Command) -> Option<PassId>
    ensures { MatchOption result (actor_number command.now ≡ desk_number) (λ pass. actor_number command.now ≡ pass.0) }
{
    match command {
        Command::Pass { pass, command: _ } => Some(*pass),
        _ => None,
    }
}

/// Lines in order, and whose each is: the number of its actor, which is noted while the line is at hand. A block is dealt to its actors by
/// these numbers, so that the lines themselves need not be fetched for that.
#[derive(Debug, Drop)]
pub(crate) struct ReadLines {
    lines: Vec<(u32, Command)>,
    actors: Vec<u32>,
}

impl Model for ReadLines {
    ghost use Rattle.std.specs.Prelude.{◌≡◌, List, map};
    ghost use Rattle.mem_base.specs.script.Scripts.{Line};
    ghost use Rattle.mem_base.specs.script.Race.{actor_number};

    ghost Value = { List Line };

    ghost view = { λ r. r.lines.items };

    ghost invariant = { λ r. r.actors.items ≡ map (λ line. actor_number line.1) r.lines.items };
}

impl ReadLines {
    /// No line.
    pub(crate) fn new(alloc: Global) -> ReadLines
        ensures { result ≡ [] }
    {
        ReadLines {
            lines: Vec::new(alloc),
            actors: Vec::new(alloc),
        }
    }

    /// Puts a line after the others, or there is no memory for it, and they stay as they are.
    pub(crate) fn push(&mut self, number: u32, command: Command) -> Result<(), AllocError>
        ensures { OnOk result (self.new ≡ self.old ++ (number, command) ∷ []) }
    {
        if self.lines.reserve(1).is_err() || self.actors.reserve(1).is_err() {
            drop(command);
            return Err(AllocError);
        }
        self.actors.push_reserved(actor_number(&command));
        self.lines.push_reserved((number, command));
        Ok(())
    }

    /// The commands, each with the number of its line.
    pub(crate) fn as_slice(&self) -> &[(u32, Command)]
        ensures { result.now ≡ self.now }
    {
        &self.lines
    }

    /// Whose each line is.
    pub(crate) fn actors(&self) -> &[u32]
        ensures { result.now ≡ map (λ line. actor_number line.1) self.now }
    {
        &self.actors
    }
}
