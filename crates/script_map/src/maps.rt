// The map that a script leaves.
ghost use Rattle.std.specs.Prelude.{◌≡◌, ◌++◌, true, is_ok, IfOk, OnOk};
ghost use Rattle.mem_base.specs.map.Forest.{IsMade};
ghost use Rattle.mem_base.specs.script.States.{region_named, space_named};
ghost use Rattle.run_laws.specs.Fitting.{AreFitting, FitsCommand};
ghost use Rattle.script_run.specs.Standing.{MayGoOn, state_of};
ghost use Rattle.script_names.specs.Tables.{printed_names};
ghost use Rattle.script_map.specs.Left.{IsLeftBy, TakesLine, first_of, left_state, refused_in, shown_by, shown_in, state_after};

use crate::refused::{RefusedLine, note_refusal};
use generation::Generation;
use mem_base::{Command, MOST_PASSES, Name, RegionId, SpaceId};
use script_lines::Line;
use script_names::Names;
use script_run::Session;
use script_text::{Script, pool_words};
use std::alloc::{AllocError, Global};
use std::marker::Model;
use std::sync::Arc;
use world_core::World;

/// The map that commands left: the machine, the names that were made, and the commands that were refused.
///
/// It is seen as what is known of names, the machine's world, and the refusals, in order. The next command might come.
#[derive(Drop)]
pub struct ScriptMap {
    session: Session<World>,
    refused: Vec<RefusedLine>,
}

impl Model for ScriptMap {
    ghost use Rattle.script_run.specs.Standing.{MayGoOn};
    ghost use Rattle.script_map.specs.Left.{Left};

    ghost Value = { Left };

    ghost view = { λ m. record { known = m.session.known; world = m.session.world; refused = m.refused.items } };

    ghost invariant = { λ m. MayGoOn m.session };
}

impl ScriptMap {
    /// The current generation, which the last change that was published left.
    pub fn generation(&self) -> &Generation
        ensures shown { shown_by result.now ≡ shown_in (left_state self.now) }
        ensures made { IsMade result.now.forest }
    {
        let generation = self.session.machine().current();
        generation.knows_forest();
        generation
    }

    /// All names that were made, by which lines are written.
    pub fn names(&self) -> &Names
        ensures { printed_names result.now ≡ (left_state self.now).names }
    {
        self.session.known().names()
    }

    /// The space that a name stands for.
    pub fn space(&self, name: &Name) -> Option<SpaceId>
        ensures { result ≡ space_named (left_state self.now) name.now }
    {
        self.session.known().space(name)
    }

    /// The region that a name stands for: of all that had it, the one that was not dropped.
    pub fn region(&self, name: &Name) -> Option<RegionId>
        ensures { result ≡ region_named (left_state self.now) name.now }
    {
        self.session.known().region(name)
    }

    /// The commands that were refused, in order.
    pub fn refused(&self) -> &[RefusedLine]
        ensures { result.now ≡ self.now.refused }
    {
        &self.refused
    }
}

/// Does the next command, and notes its refusal, if it is refused. `said` is the caller's room, and comes with anything in it.
pub(crate) fn take_line(
    alloc: Global,
    session: &mut Session<World>,
    refused: &mut Vec<RefusedLine>,
    said: &mut Line,
    number: u32,
    command: &Command,
) -> Result<(), AllocError>
    requires ready { MayGoOn session.old }
    requires fits { FitsCommand command.now }
    ensures { OnOk result (TakesLine session.old refused.old.items session.new refused.new.items (number, command.now)) }
{
    said.clear();
    session.step(said, number, command)?;
    note_refusal(alloc, refused, number, said.as_bytes())
}

// Does commands one after another.
fn take_lines(
    alloc: Global,
    session: &mut Session<World>,
    refused: &mut Vec<RefusedLine>,
    lines: &[(u32, Command)],
) -> Result<(), AllocError>
    requires ready { MayGoOn session.old }
    requires fits { AreFitting lines.now }
    ensures state { OnOk result (state_of session.new ≡ state_after (state_of session.old) lines.now) }
    ensures refused { OnOk result (refused.new.items ≡ refused.old.items ++ refused_in (state_of session.old) lines.now) }
    ensures ready { OnOk result (MayGoOn session.new) }
{
    let mut said = Line::new(alloc);
    for (number, command) in lines {
        take_line(alloc, session, refused, &mut said, *number, command)?;
    }
    Ok(())
}

/// The map that was left, once all commands were done.
pub(crate) fn finished(
    session: Session<World>,
    refused: Vec<RefusedLine>,
    done: Result<(), AllocError>,
) -> Result<ScriptMap, AllocError>
    requires { OnOk done (MayGoOn session) }
    ensures { IfOk result (λ m. (m ≡ record { known = session.known; world = session.world; refused = refused.items }) × (is_ok done ≡ true)) }
{
    match done {
        Ok(()) => Ok(ScriptMap { session, refused }),
        Err(fault) => {
            drop(session);
            Err(fault)
        }
    }
}

/// A machine of its own for a script, before the first command.
pub(crate) fn opened(alloc: Global, script: &Script) -> Result<Session<World>, AllocError>
    ensures ready { IfOk result (λ s. MayGoOn s) }
    ensures state { IfOk result (λ s. state_of s ≡ first_of script.now) }
{
    // The pool of such a script is no larger than the largest one.
    script.knows_sound();
    let machine = World::new(alloc, pool_words(script), MOST_PASSES)?;
    Ok(Session::new(alloc, machine))
}

/// Does the commands of a script on a machine of its own, and hands out what they left.
///
/// It fails only where memory runs out.
pub fn after(alloc: Global, script: &Script) -> Result<ScriptMap, AllocError>
    ensures { IfOk result (λ map. IsLeftBy script.now map) }
{
    let mut session = opened(alloc, script)?;
    let mut refused = Vec::new(alloc);
    let done = take_lines(alloc, &mut session, &mut refused, script.lines());
    finished(session, refused, done)
}
