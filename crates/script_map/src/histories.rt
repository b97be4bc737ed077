// The generations that a script publishes.
ghost use Rattle.std.specs.Prelude.{◌≡◌, ◌++◌, IfOk, OnOk, map};
ghost use Rattle.run_laws.specs.Fitting.{AreFitting};
ghost use Rattle.script_run.specs.Standing.{MayGoOn, state_of};
ghost use Rattle.script_map.specs.Left.{IsLeftBy, all_shown, first_of, published_in, refused_in, shown_unless, state_after};

use crate::maps::{ScriptMap, finished, opened, take_line};
use crate::refused::RefusedLine;
use generation::Generation;
use mem_base::{Command, Edition};
use script_lines::Line;
use script_run::Session;
use script_text::Script;
use std::alloc::{AllocError, Global};
use std::sync::Arc;
use world_core::World;

/// What a script leaves, and each generation that it published on the way.
#[derive(Drop)]
pub struct History {
    /// What it leaves.
    pub map: ScriptMap,
    /// The generations that its commands published, in order.
    pub published: Vec<Arc<Generation, Global>>,
}

// The number of the current generation.
fn current_number(session: &Session<World>) -> u64
    ensures { result ≡ (state_of session.now).world.writer.generations.current }
{
    session.machine().current().number()
}

// Adds the current generation, where its number is not this one.
fn note_published(
    session: &Session<World>,
    before: u64,
    published: &mut Vec<Arc<Generation, Global>>,
) -> Result<(), AllocError>
    ensures { OnOk result (all_shown published.new.items ≡ all_shown published.old.items ++ shown_unless before (state_of session.now)) }
{
    let current = session.machine().current();
    if current.number() == before {
        return Ok(());
    }
    published.push(Arc::clone(current)?)?;
    Ok(())
}

// Does commands one after another, and notes the generations that they publish.
fn follow_lines(
    alloc: Global,
    session: &mut Session<World>,
    refused: &mut Vec<RefusedLine>,
    published: &mut Vec<Arc<Generation, Global>>,
    lines: &[(u32, Command)],
) -> Result<(), AllocError>
    requires ready { MayGoOn session.old }
    requires fits { AreFitting lines.now }
    ensures state { OnOk result (state_of session.new ≡ state_after (state_of session.old) lines.now) }
    ensures refused { OnOk result (refused.new.items ≡ refused.old.items ++ refused_in (state_of session.old) lines.now) }
    ensures ready { OnOk result (MayGoOn session.new) }
    ensures published { OnOk result
        (all_shown published.new.items ≡ all_shown published.old.items ++ published_in (state_of session.old) lines.now) }
{
    let mut said = Line::new(alloc);
    for (number, command) in lines {
        let before = current_number(session);
        take_line(alloc, session, refused, &mut said, *number, command)?;
        note_published(session, before, published)?;
    }
    Ok(())
}

/// Does the commands of a script on a machine of its own, and hands out what they left and the generations that they published.
///
/// It fails only where memory runs out. All generations are kept at once.
pub fn follow(alloc: Global, script: &Script) -> Result<History, AllocError>
    ensures map { IfOk result (λ h. IsLeftBy script.now h.map) }
    ensures published { IfOk result (λ h. all_shown h.published.items ≡ published_in (first_of script.now) script.now) }
{
    let mut session = opened(alloc, script)?;
    let mut refused = Vec::new(alloc);
    let mut published = Vec::new(alloc);
    let done = follow_lines(
        alloc,
        &mut session,
        &mut refused,
        &mut published,
        script.lines(),
    );
    match finished(session, refused, done) {
        Ok(map) => Ok(History { map, published }),
        Err(fault) => Err(fault),
    }
}
