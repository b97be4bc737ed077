// A block, from what its runner has before it to what it has after it.
ghost use Rattle.std.specs.Prelude.{◌≡◌, ℕ, ◌<◌, ◌≤◌, [], All, OnOk, length, map, slice_index_or, vec_capacity};
ghost use Rattle.mem_base.specs.script.Race.{block};
ghost use Rattle.mem_base.specs.script.Tasks.{Known};
ghost use Rattle.run_laws.specs.Fitting.{AreFitting};
ghost use Rattle.generation.specs.Published.{Published};
ghost use Rattle.epoch_rule.specs.Values.{PassValue};
ghost use Rattle.race_phases.specs.Plain.{whose_line};
ghost use Rattle.race_join.specs.HandedOn.{IsLater};
ghost use Rattle.race_block.specs.Blocks.{CanAct};
ghost use Rattle.race_levels.specs.Levels.{HasMet, IsHeard, IsOfCabinet};
ghost use Rattle.race_levels.specs.Ready.{AreReady};
ghost use Rattle.race_levels.specs.Outside.{StopsIn, WritesOn};
ghost use Rattle.race_seats.specs.Blocks.{HasRunAll};
ghost use Rattle.race_seats.specs.Seats.{AreSeated, IsTold, names_then};

use mem_base::{Command, Differs};
use outside::Gate;
use race_block::{BlockActor, Clerk};
use race_join::{Naming, Record, run_block};
use race_lines::KnownNames;
use race_outside::meet_all;
use race_seats::{
    Room, Seated, add_block, desks_known, known_after, room_for, seat, seat_desk, unseat_passes,
};
use script_lines::Line;
use std::alloc::{AllocError, Global};
use std::marker::Brand;
use std::sync::Wait;
use std::thread::Threads;
use vcpu_pass::Vcpu;

// Lets the actors of a block do their lines beside one another, behind one lock.
fn run_actors<'c, 'k, J: Naming + Send + Sync, G: Gate, R: Threads + Wait + Sync>(
    rt: &R,
    alloc: Global,
    gate: &G,
    first: Record,
    actors: &mut Vec<BlockActor<'c, 'k>>,
    clerks: &mut Vec<Clerk>,
) -> (Record, Option<Differs>)
    requires start { first ≡ J.start }
    requires ready { All (CanAct J.start.seat.cabinet) actors.old.items }
    requires empty { clerks.old.items ≡ [] }
    requires room { length actors.old.items ≤ vec_capacity clerks.old }
    ensures { HasRunAll first result.0 actors.old.items actors.new.items clerks.new.items result.1 }
{
    let (after, differs) = run_block::<J, G, R>(
        rt,
        alloc,
        gate,
        first,
        actors.as_mut_slice(),
        clerks,
    );
    (after, differs)
}

// All virtual CPUs meet what the record has seen.
fn meet<'c>(desk: &mut Record, cpus: &mut Vec<Vcpu<'c>>)
    requires own { All (IsOfCabinet desk.old.seat.cabinet) cpus.old.items }
    requires heard { All (IsHeard desk.old.seat.seen) cpus.old.items }
    ensures same { desk.new ≡ desk.old }
    ensures count { length cpus.new.items ≡ length cpus.old.items }
    ensures met { (i : ℕ) (d : PassValue Published) → i < length cpus.old.items
        → HasMet desk.old.seat.seen (slice_index_or cpus.old.items i d) (slice_index_or cpus.new.items i d) }
{
    meet_all(desk, cpus.as_mut_slice());
}

// Lets the actors of a block do their lines, once they have their places. It gives back what the desk knows then, where it acted.
fn run_in<'c, J: Naming + Send + Sync, G: Gate, R: Threads + Wait + Sync>(
    rt: &R,
    alloc: Global,
    gate: &G,
    desk: Record,
    seated: Seated<'c, '_>,
    lines: &[(u32, Command)],
    text: &mut Line,
) -> (
    Record,
    Vec<Vcpu<'c>>,
    Option<KnownNames>,
    Result<(), AllocError>,
)
    requires start { desk ≡ J.start }
    requires seated { (k : Known) × AreSeated k lines.now desk seated }
    ensures ready { AreReady result.0 result.1.items }
    ensures later { IsLater desk result.0 }
    ensures told { IsTold seated.entry.known.now result.2 }
    ensures step { (k : Known) → AreSeated k lines.now desk seated.entry
        → OnOk result.3 (WritesOn desk k (block lines.now) result.0 (names_then k seated.entry.known.now result.2) text.old text.new) }
    ensures stopped { (k : Known) → AreSeated k lines.now desk seated.entry → StopsIn desk k (block lines.now) result.0 }
{
    let Seated {
        mut actors,
        mut clerks,
        known,
        busy,
        mut waiting,
        mut cpus,
    } = seated;
    let (mut after, differs) = run_actors::<J, G, R>(
        rt,
        alloc,
        gate,
        desk,
        &mut actors,
        &mut clerks,
    );
    let done = add_block(
        text,
        known,
        after.journal(),
        actors.as_slice(),
        clerks.as_slice(),
        differs,
    );
    unseat_passes(busy.as_slice(), &mut actors, &mut waiting, &mut cpus);
    meet(&mut after, &mut cpus);
    let desks = desks_known(actors.pop());
    (after, cpus, desks, done)
}

/// A block of a race: its actors do their lines beside one another, each in a thread of its own where one can be made, over one lock before
/// the desk; then all have seen the same history, and what the block writes is added to the text.
///
/// It takes the record of the desk, the virtual CPUs and what is known of names, and gives back all of them. `whose` has whose each line is,
/// as it was noted when the script was read. The numbers of the commands fit, as those of every script that was read do, and the actors reach
/// the gate before each of their lines. Out of memory nothing was done, or each actor has done the first of its lines, or the block is whole
/// and its text is lost: the text may then end within the block's.
pub fn block<'c, G: Gate, R: Threads + Wait + Sync>(
    rt: &R,
    alloc: Global,
    gate: &G,
    desk: Record,
    cpus: Vec<Vcpu<'c>>,
    known: KnownNames,
    lines: &'c [(u32, Command)],
    whose: &[u32],
    text: &mut Line,
) -> (Record, Vec<Vcpu<'c>>, KnownNames, Result<(), AllocError>)
    requires fits { AreFitting lines.now }
    requires whose { whose.now ≡ map whose_line lines.now }
    requires ready { AreReady desk cpus.items }
    ensures ready { AreReady result.0 result.1.items }
    ensures later { IsLater desk result.0 }
    ensures step { OnOk result.3 (WritesOn desk known (block lines.now) result.0 result.2 text.old text.new) }
    ensures stopped { StopsIn desk known (block lines.now) result.0 }
{
    match room_for(alloc, &known, lines, whose) {
        Ok(room) => {
            let Room {
                desk_lines,
                mut actors,
                passes,
            } = room;
            let kept = seat_desk(alloc, known, desk_lines, lines, &mut actors);
            let seated = seat(alloc, &kept, cpus, lines, actors, passes);
            let (after, cpus, desks, done) = run_in::<Brand, G, R>(
                rt, alloc, gate, desk, seated, lines, text,
            );
            (after, cpus, known_after(desks, kept), done)
        }
        Err(error) => (desk, cpus, known, Err(error)),
    }
}
