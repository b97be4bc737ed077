// A block, and the history that all have seen after it.
ghost use Rattle.std.specs.Prelude.{◌≡◌, ℕ, ◌<◌, ◌≤◌, [], length, All, slice_index_or, vec_capacity};
ghost use Rattle.mem_base.specs.machine.Records.{Closes};
ghost use Rattle.epoch_rule.specs.Rule.{IsLegal};
ghost use Rattle.desk_orders.specs.Records.{IsLater, later_entries};
ghost use Rattle.race_block.specs.Blocks.{CanAct};
ghost use Rattle.race_block.specs.Desks.{AreNotesOf, HasHeard};
ghost use Rattle.race_block.specs.Joined.{HasJoined, HasMet, HasTold, IsHeard, IsOf, IsVcpuOf, Noted};

use crate::acting::act_all;
use desk_lock::{DeskLock, Naming, Record};
use desk_orders::Clerk;
use epoch_rule::Note;
use generation::Generation;
use mem_base::Differs;
use outside::Gate;
use race_block::{BlockActor, take_clerks};
use std::alloc::Global;
use std::sync::Wait;
use std::thread::Threads;

// The record hears all notes.
#[tactic(auto, using(desk_orders::proofs::RecordLaws::later_same))]
fn hear_notes(desk: &mut Record, notes: &mut Vec<Note<Generation>>)
    requires own { AreNotesOf desk.old.seat.cabinet notes.old.items }
    ensures heard { HasHeard notes.old.items desk.new.seat.seen }
    ensures later { IsLater desk.old desk.new }
    ensures entries { desk.new.entries ≡ desk.old.entries }
{
    if let Some(note) = notes.pop() {
        desk.hear(note);
        hear_notes(desk, notes);
    }
}

// The record hears what an actor has seen: its virtual CPU, or the notes of its orders.
#[tactic(auto, using(desk_orders::proofs::RecordLaws::later_same))]
fn hear_one(desk: &mut Record, actor: &mut BlockActor<'_, '_>)
    requires own { IsOf desk.old.seat.cabinet actor.old }
    ensures told { HasTold desk.new.seat.seen actor.old actor.new }
    ensures later { IsLater desk.old desk.new }
    ensures entries { desk.new.entries ≡ desk.old.entries }
{
    match actor {
        BlockActor::Pass(pass) => {
            let note = pass.vcpu.tell();
            desk.hear(note);
        }
        BlockActor::Desk(lines) => hear_notes(desk, &mut lines.notes),
        BlockActor::Gone => {}
    }
}

// The record hears what all actors have seen.
fn hear_all(desk: &mut Record, actors: &mut [BlockActor<'_, '_>])
    requires own { All (IsOf desk.old.seat.cabinet) actors.old }
    ensures told { (i : ℕ) (d : BlockActor) → i < length actors.old
        → HasTold desk.new.seat.seen (slice_index_or actors.old i d) (slice_index_or actors.new i d) }
    ensures later { IsLater desk.old desk.new }
    ensures entries { desk.new.entries ≡ desk.old.entries }
{
    for at in 0..actors.len() {
        hear_one(desk, &mut actors[at]);
    }
}

// The virtual CPU of an actor meets what the writer has seen.
fn meet_one(desk: &mut Record, actor: &mut BlockActor<'_, '_>)
    requires own { IsVcpuOf desk.old.seat.cabinet actor.old }
    requires heard { IsHeard desk.old.seat.seen actor.old }
    ensures same { desk.new ≡ desk.old }
    ensures met { HasMet desk.old.seat.seen actor.old actor.new }
{
    match actor {
        BlockActor::Pass(pass) => {
            let note = desk.note();
            pass.vcpu.meet(note);
        }
        _ => {}
    }
}

// All virtual CPUs meet what the writer has seen.
fn meet_all(desk: &mut Record, actors: &mut [BlockActor<'_, '_>])
    requires own { All (IsVcpuOf desk.old.seat.cabinet) actors.old }
    requires heard { All (IsHeard desk.old.seat.seen) actors.old }
    ensures same { desk.new ≡ desk.old }
    ensures met { (i : ℕ) (d : BlockActor) → i < length actors.old
        → HasMet desk.old.seat.seen (slice_index_or actors.old i d) (slice_index_or actors.new i d) }
{
    for at in 0..actors.len() {
        meet_one(desk, &mut actors[at]);
    }
}

// The record, beside how the clerks' lists differ from it.
fn closed<J: Naming>(lock: DeskLock<J>, clerks: &[Clerk]) -> (Record, Option<Differs>)
    ensures later { IsLater J.start result.0 }
    ensures closes { Closes (later_entries J.start result.0) clerks.now result.1 }
{
    match lock.close(clerks) {
        Ok(desk) => (desk, None),
        Err((differs, desk)) => (desk, Some(differs)),
    }
}

/// Lets the actors of a block do their lines beside one another, over one lock before the desk, and brings together what they have seen.
///
/// The desk's record and all virtual CPUs have then seen the same history. Each actor's clerk, which has what its orders got, goes
/// into `clerks`, and it is told how these stand to the record: they are what it has, or the first difference. The virtual CPUs are of
/// the desk's machine, and there is room for the clerks. Where memory runs out for an actor, it has done the first of its lines.
pub fn run_block<J: Naming + Send + Sync, G: Gate, R: Threads + Wait + Sync>(
    rt: &R,
    alloc: Global,
    gate: &G,
    first: Record,
    actors: &mut [BlockActor<'_, '_>],
    clerks: &mut Vec<Clerk>,
) -> (Record, Option<Differs>)
    requires start { first ≡ J.start }
    requires ready { All (CanAct J.start.seat.cabinet) actors.old }
    requires empty { clerks.old.items ≡ [] }
    requires room { length actors.old ≤ vec_capacity clerks.old }
    ensures later { IsLater first result.0 }
    ensures legal { IsLegal result.0.seat.sizes result.0.seat.seen }
    ensures closes { Closes (later_entries first result.0) clerks.new.items result.1 }
    ensures count { length clerks.new.items ≡ length actors.old }
    ensures joined { (i : ℕ) (d : BlockActor) (c : Noted) → i < length actors.old
        → HasJoined result.0.seat.seen (slice_index_or actors.old i d) (slice_index_or actors.new i d) (slice_index_or clerks.new.items i c) }
{
    let lock = DeskLock::<J>::new(first);
    act_all(rt, alloc, gate, &lock, actors);
    take_clerks(alloc, actors, clerks);
    let (mut desk, differs) = closed(lock, clerks.as_slice());
    hear_all(&mut desk, actors);
    meet_all(&mut desk, actors);
    desk.has_seen_legal();
    (desk, differs)
}
