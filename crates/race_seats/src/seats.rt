// The virtual CPUs before a block and after it: those of its actors, and those that wait.
ghost use Rattle.std.specs.Prelude.{◌≡◌, ◌+◌, ◌<◌, ◌≤◌, [], List, Some, length, option_to_list, vec_capacity};
ghost use Rattle.mem_base.specs.map.Limits.{most_passes};
ghost use Rattle.mem_base.specs.script.Race.{block, desk_number, lines_by};
ghost use Rattle.mem_base.specs.script.Scripts.{Line};
ghost use Rattle.mem_base.specs.script.Tasks.{Known};
ghost use Rattle.desk_orders.specs.Records.{RecordState};
ghost use Rattle.race_block.specs.declared.blocks.BlockActor.TheVariants.{Pass};
ghost use Rattle.race_block.specs.Desks.{lines_meant};
ghost use Rattle.race_seats.specs.Rooms.{AreWorksOf, IsPassRoomFor};
ghost use Rattle.race_seats.specs.Seats.{AllComeBack, AreSeated, AreSeatsOf, GivesLines, HaveSeats, IsTold, KeepsKnown, SeatsDesk};
ghost use Rattle.race_seats.specs.Seats.{SeatsPass, TakesCpu, desks_known, names_then};

use crate::rooms::{PassRoom, Work, acts};
use mem_base::Command;
use race_block::{BlockActor, BlockLine, Clerk, DeskActor, OwnLine, PassActor, PassLines};
use race_lines::KnownNames;
use race_phases::DESK_NUMBER;
use std::alloc::Global;
use vcpu_pass::Vcpu;

/// The actors of a block, with room for their clerks; which passes are among them, and the virtual CPUs that wait; what is known, where
/// the desk waits; and room for all virtual CPUs after the block.
#[derive(Drop)]
pub struct Seated<'a, 'k> {
    pub actors: Vec<BlockActor<'a, 'k>>,
    pub clerks: Vec<Clerk>,
    pub known: &'k Option<KnownNames>,
    pub busy: Vec<bool>,
    pub waiting: Vec<Vcpu<'a>>,
    pub cpus: Vec<Vcpu<'a>>,
}

/// The desk takes its place as the first actor, where it has lines; else what is known is kept.
pub fn seat_desk<'a>(
    alloc: Global,
    known: KnownNames,
    own: Vec<OwnLine<'a>>,
    lines: &[(u32, Command)],
    actors: &mut Vec<BlockActor<'a, '_>>,
) -> Option<KnownNames>
    requires lines { lines_meant own.items ≡ lines_by desk_number (block lines.now) }
    requires empty { actors.old.items ≡ [] }
    requires room { 0 < vec_capacity actors.old }
    ensures desk { SeatsDesk known lines.now result actors.new.items }
    ensures capacity { vec_capacity actors.new ≡ vec_capacity actors.old }
{
    if own.is_empty() {
        return Some(known);
    }
    actors.push_reserved(BlockActor::Desk(DeskActor {
        known,
        clerk: Clerk::new(alloc, DESK_NUMBER),
        lines: own,
        said: Vec::new(alloc),
        notes: Vec::new(alloc),
        out_of_memory: false,
    }));
    None
}

// The lines of a pass: as they stand with what is known, where this is kept; else with the tasks that were made before.
fn lines_for<'a, 'k>(
    known: &'k Option<KnownNames>,
    own: Vec<OwnLine<'a>>,
    tasks: Vec<BlockLine<'a>>,
) -> PassLines<'a, 'k>
    ensures { GivesLines known.now own.entry.items tasks.entry.items result }
{
    match known {
        Some(names) => PassLines::Unresolved { lines: own, names },
        None => PassLines::Resolved(tasks),
    }
}

// A pass takes its place.
fn seat_pass<'a, 'k>(
    alloc: Global,
    who: u32,
    known: &'k Option<KnownNames>,
    cpu: Vcpu<'a>,
    work: Work<'a>,
    actors: &mut Vec<BlockActor<'a, 'k>>,
    waiting: &mut Vec<Vcpu<'a>>,
)
    requires actors_fit { length actors.old.items < vec_capacity actors.old }
    requires waiting_fit { length waiting.old.items < vec_capacity waiting.old }
    ensures seat { SeatsPass who known.now cpu.entry work.entry actors.old.items actors.new.items waiting.old.items waiting.new.items }
    ensures actors_room { vec_capacity actors.new ≡ vec_capacity actors.old }
    ensures waiting_room { vec_capacity waiting.new ≡ vec_capacity waiting.old }
{
    if !acts(&work) {
        waiting.push_reserved(cpu);
        return;
    }
    let Work { own, tasks, bounce } = work;
    let lines = lines_for(known, own, tasks);
    actors.push_reserved(BlockActor::Pass(PassActor {
        vcpu: cpu,
        bounce,
        clerk: Clerk::new(alloc, who),
        lines,
        got: Vec::new(alloc),
        out_of_memory: false,
        text: None,
    }));
}

// All passes take their places, by what each has to do.
fn seat_passes<'a, 'k>(
    alloc: Global,
    known: &'k Option<KnownNames>,
    cpus: &mut Vec<Vcpu<'a>>,
    works: &mut Vec<Work<'a>>,
    actors: &mut Vec<BlockActor<'a, 'k>>,
    waiting: &mut Vec<Vcpu<'a>>,
)
    requires most { length cpus.old.items ≤ most_passes }
    requires works { length works.old.items ≡ length cpus.old.items }
    requires actors_fit { length actors.old.items + length cpus.old.items ≤ vec_capacity actors.old }
    requires waiting_fit { length waiting.old.items + length cpus.old.items ≤ vec_capacity waiting.old }
    ensures seats { (k : Known) (lines : List Line) (r : RecordState) → KeepsKnown k lines known.now → AreSeatsOf r cpus.old.items
        → AreWorksOf k lines works.old.items
        → HaveSeats k lines r (length cpus.old.items) actors.old.items actors.new.items waiting.old.items waiting.new.items }
    ensures actors_most { length actors.new.items ≤ length actors.old.items + length cpus.old.items }
    ensures waiting_most { length waiting.new.items ≤ length waiting.old.items + length cpus.old.items }
    ensures actors_room { vec_capacity actors.new ≡ vec_capacity actors.old }
    ensures waiting_room { vec_capacity waiting.new ≡ vec_capacity waiting.old }
{
    let Some(cpu) = cpus.pop() else {
        return;
    };
    let Some(work) = works.pop() else {
        unreachable!();
    };
    let who = cpus.len() as u32;
    seat_passes(alloc, known, cpus, works, actors, waiting);
    seat_pass(alloc, who, known, cpu, work, actors, waiting);
}

/// All passes take their places before a block, after the desk.
pub fn seat<'a, 'k>(
    alloc: Global,
    known: &'k Option<KnownNames>,
    cpus: Vec<Vcpu<'a>>,
    lines: &[(u32, Command)],
    actors: Vec<BlockActor<'a, 'k>>,
    room: PassRoom<'a>,
) -> Seated<'a, 'k>
    requires all { length cpus.items ≡ most_passes }
    requires fit { most_passes + 1 ≤ vec_capacity actors }
    requires room { (k : Known) × SeatsDesk k lines.now known.now actors.items × IsPassRoomFor k lines.now room }
    ensures seated { (k : Known) (r : RecordState) → SeatsDesk k lines.now known.now actors.entry.items → IsPassRoomFor k lines.now room.entry
        → AreSeatsOf r cpus.entry.items → AreSeated k lines.now r result }
    ensures known { result.known.now ≡ known.now }
{
    let PassRoom {
        mut works,
        busy,
        mut waiting,
        cpus: after,
        clerks,
    } = room;
    let mut before = cpus;
    let mut seated = actors;
    seat_passes(
        alloc,
        known,
        &mut before,
        &mut works,
        &mut seated,
        &mut waiting,
    );
    Seated {
        actors: seated,
        clerks,
        known,
        busy,
        waiting,
        cpus: after,
    }
}

// The virtual CPU of a pass, of which all else is let go.
fn into_cpu<'a>(pass: PassActor<'a, '_>) -> Vcpu<'a>
    ensures { result ≡ pass.entry.vcpu }
{
    let PassActor {
        vcpu,
        bounce,
        clerk,
        lines,
        got,
        out_of_memory: _,
        text,
    } = pass;
    drop(bounce);
    drop(clerk);
    drop(lines);
    drop(got);
    drop(text);
    vcpu
}

// The virtual CPU of an actor.
fn cpu_of<'a>(actor: Option<BlockActor<'a, '_>>) -> Option<Vcpu<'a>>
    ensures { (a : PassActor) → actor.entry ≡ Some (Pass a) → result ≡ Some a.vcpu }
{
    match actor {
        Some(BlockActor::Pass(pass)) => Some(into_cpu(pass)),
        other => {
            drop(other);
            None
        }
    }
}

// The virtual CPU of the last pass that acts, or of the last one that waits.
fn take_cpu<'a>(
    acts: bool,
    actors: &mut Vec<BlockActor<'a, '_>>,
    waiting: &mut Vec<Vcpu<'a>>,
) -> Option<Vcpu<'a>>
    ensures { TakesCpu acts actors.old.items actors.new.items waiting.old.items waiting.new.items result }
{
    if acts {
        return cpu_of(actors.pop());
    }
    waiting.pop()
}

/// The first passes stand in order of their numbers again, from the ends of the actors, where they are busy, and of those that wait.
pub fn unseat_passes<'a>(
    busy: &[bool],
    actors: &mut Vec<BlockActor<'a, '_>>,
    waiting: &mut Vec<Vcpu<'a>>,
    cpus: &mut Vec<Vcpu<'a>>,
)
    requires fit { length cpus.old.items + length busy.now ≤ vec_capacity cpus.old }
    ensures back { AllComeBack busy.now actors.old.items actors.new.items waiting.old.items cpus.old.items cpus.new.items }
    ensures most { length cpus.new.items ≤ length cpus.old.items + length busy.now }
    ensures room { vec_capacity cpus.new ≡ vec_capacity cpus.old }
{
    let Some((acts, others)) = busy.split_last() else {
        return;
    };
    let cpu = take_cpu(*acts, actors, waiting);
    unseat_passes(others, actors, waiting, cpus);
    if let Some(cpu) = cpu {
        cpus.push_reserved(cpu);
    }
}

/// What the desk knows after a block, where it acted.
pub fn desks_known(desk: Option<BlockActor<'_, '_>>) -> Option<KnownNames>
    ensures { result ≡ desks_known (option_to_list desk.entry) }
{
    match desk {
        Some(BlockActor::Desk(lines)) => Some(lines.known),
        _ => None,
    }
}

/// What is known after a block: what was kept, or what the desk knows then.
pub fn known_after(desks: Option<KnownNames>, kept: Option<KnownNames>) -> KnownNames
    requires { IsTold kept desks }
    ensures { (k : Known) → result ≡ names_then k kept desks }
{
    match kept {
        Some(known) => {
            drop(desks);
            known
        }
        None => match desks {
            Some(known) => known,
            None => unreachable!(),
        },
    }
}
