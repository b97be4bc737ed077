// What takes memory before a block starts.
ghost use Rattle.std.specs.Prelude.{◌≡◌, IfOk, OnOk, length, map};
ghost use Rattle.mem_base.specs.map.Limits.{most_passes};
ghost use Rattle.mem_base.specs.script.Race.{block, desk_number, lines_by};
ghost use Rattle.run_laws.specs.Fitting.{AreFitting};
ghost use Rattle.race_phases.specs.Plain.{whose_line};
ghost use Rattle.race_block.specs.Desks.{lines_meant};
ghost use Rattle.race_seats.specs.Rooms.{AreIdle, AreOwn, AreWorksOf, HasDesksWork, IsRoomFor, acts, most_actors};

use crate::tasks::{deal, prepare_all};
use io_window::Bounce;
use mem_base::{Command, MOST_PASSES};
use race_block::{BlockActor, BlockLine, Clerk, OwnLine};
use race_lines::KnownNames;
use std::alloc::{AllocError, Global};
use vcpu_pass::Vcpu;

/// How many bytes a line copies at most.
const COPY_ROOM: usize = 64;

/// How many actors a block has at most: the passes, and after them the desk.
const MOST_ACTORS: u32 = 17;

/// What an actor has to do in a block: its lines, none where it waits; their tasks, where these were made before; and a bounce for what a
/// pass copies.
#[derive(Drop)]
pub struct Work<'a> {
    pub own: Vec<OwnLine<'a>>,
    pub tasks: Vec<BlockLine<'a>>,
    pub bounce: Bounce,
}

/// What the passes have to do in a block, which of them have lines, and room for those that wait, for all virtual CPUs after the block, and
/// for the actors' clerks.
#[derive(Drop)]
pub struct PassRoom<'a> {
    pub works: Vec<Work<'a>>,
    pub busy: Vec<bool>,
    pub waiting: Vec<Vcpu<'a>>,
    pub cpus: Vec<Vcpu<'a>>,
    pub clerks: Vec<Clerk>,
}

/// The lines of the desk in a block, room for the actors, and what the passes have.
#[derive(Drop)]
pub struct Room<'a, 'k> {
    pub desk_lines: Vec<OwnLine<'a>>,
    pub actors: Vec<BlockActor<'a, 'k>>,
    pub passes: PassRoom<'a>,
}

// What each actor has to do, before any line is dealt: nothing yet. There is room for this many lines of each.
fn no_works<'a>(alloc: Global, share: usize) -> Result<Vec<Work<'a>>, AllocError>
    ensures { IfOk result (λ works. AreIdle works.items) }
{
    let mut works = Vec::with_capacity(alloc, MOST_ACTORS as usize)?;
    for who in 0..MOST_ACTORS as usize {
        prove!(works.len() == who);
        let own = Vec::with_capacity(alloc, share)?;
        let bounce = Bounce::new(alloc, COPY_ROOM)?;
        works.push(Work {
            own,
            tasks: Vec::new(alloc),
            bounce,
        })?;
    }
    Ok(works)
}

// What the desk has to do, which is the last.
fn take_desk<'a>(works: &mut Vec<Work<'a>>) -> Vec<OwnLine<'a>>
    requires all { length works.old.items ≡ most_actors }
    ensures { HasDesksWork works.old.items works.new.items result.items }
{
    match works.pop() {
        Some(
            Work {
                own,
                tasks: _tasks,
                bounce: _bounce,
            },
        ) => own,
        None => unreachable!(),
    }
}

// Makes the tasks of the passes' lines, where the desk has lines: it may change the names, so they are resolved before.
fn prepare_for<'a>(
    alloc: Global,
    known: &KnownNames,
    lines: &[(u32, Command)],
    desk_lines: &[OwnLine<'a>],
    works: &mut Vec<Work<'a>>,
) -> Result<(), AllocError>
    requires fits { AreFitting lines.now }
    requires desk { lines_meant desk_lines.now ≡ lines_by desk_number (block lines.now) }
    requires own { AreOwn lines.now works.old.items }
    requires most { length works.old.items ≡ most_passes }
    ensures all { OnOk result (length works.new.items ≡ length works.old.items) }
    ensures works { OnOk result (AreWorksOf known.now lines.now works.new.items) }
{
    if desk_lines.is_empty() {
        return Ok(());
    }
    prepare_all(alloc, known, works)?;
    Ok(())
}

/// Whether a pass has something to do.
pub fn acts(work: &Work<'_>) -> bool
    ensures { result ≡ acts work.now }
{
    !work.own.is_empty()
}

// Which passes have something to do.
fn busy_of(alloc: Global, works: &[Work<'_>]) -> Result<Vec<bool>, AllocError>
    ensures { IfOk result (λ busy. busy.items ≡ map acts works.now) }
{
    let mut busy = Vec::with_capacity(alloc, works.len())?;
    for work in works {
        busy.push(acts(work))?;
    }
    Ok(busy)
}

/// The lines of a block by whose they are, those of passes with their tasks by what is known where the desk has lines too; and room for its
/// actors. It fails only where memory runs out.
pub fn room_for<'a, 'k>(
    alloc: Global,
    known: &KnownNames,
    lines: &'a [(u32, Command)],
    whose: &[u32],
) -> Result<Room<'a, 'k>, AllocError>
    requires fits { AreFitting lines.now }
    requires whose { whose.now ≡ map whose_line lines.now }
    ensures { IfOk result (IsRoomFor known.now lines.now) }
{
    let mut works = no_works(alloc, lines.len() / MOST_PASSES as usize)?;
    deal(lines, whose, &mut works)?;
    let desk_lines = take_desk(&mut works);
    prepare_for(alloc, known, lines, desk_lines.as_slice(), &mut works)?;
    let busy = busy_of(alloc, works.as_slice())?;
    let actors = Vec::with_capacity(alloc, MOST_ACTORS as usize)?;
    let waiting = Vec::with_capacity(alloc, MOST_PASSES as usize)?;
    let cpus = Vec::with_capacity(alloc, MOST_PASSES as usize)?;
    let clerks = Vec::with_capacity(alloc, MOST_ACTORS as usize)?;
    Ok(Room {
        desk_lines,
        actors,
        passes: PassRoom {
            works,
            busy,
            waiting,
            cpus,
            clerks,
        },
    })
}
