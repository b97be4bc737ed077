// A whole race.
ghost use Rattle.std.specs.Prelude.{◌≡◌, ◌≤◌, [], IfOk, OnErr, OnOk, IsErrOf, false, true, replicate, vec_capacity};
ghost use Rattle.outside.specs.Causes.{Rose};
ghost use Rattle.outside.specs.Sink.{Writes};
ghost use Rattle.mem_base.specs.lists.Every.{Every};
ghost use Rattle.mem_base.specs.map.Limits.{most_passes};
ghost use Rattle.mem_base.specs.script.Race.{IsAlone, IsTextOfRace, phases_of};
ghost use Rattle.mem_base.specs.script.Run.{pool_words, text_of};
ghost use Rattle.mem_base.specs.script.Tasks.{known_at_first};
ghost use Rattle.race_inside.specs.HandedOn.{IsUnused};
ghost use Rattle.race_run.specs.Ends.{IsFresh};
ghost use Rattle.race_run.specs.Racing.{HasStopped, IsReady, TakesOne};

use crate::closing::close;
use crate::opening::hand_out;
use crate::phases::go_through;
use crate::racers::Racer;
use epoch_rule::Cabinet;
use generation::Generation;
use io_window::Bounce;
use mem_base::MOST_PASSES;
use outside::{Gate, Sink};
use race_inside::{Config, Record};
use race_lines::KnownNames;
use script_run::RunFault;
use script_text::Script;
use std::alloc::{AllocError, Global};
use std::sync::Wait;
use std::thread::Threads;
use vcpu_pass::Vcpu;

// How many bytes a line copies at most.
const MOST_COPIED: usize = 64;

// Room for the virtual CPUs, and the bytes that a copy goes through.
fn room_for<'c>(alloc: Global) -> Result<(Vec<Vcpu<'c>>, Bounce), AllocError>
    ensures empty { IfOk result (λ room. room.0.items ≡ []) }
    ensures room { IfOk result (λ room. most_passes ≤ vec_capacity room.0) }
    ensures bounce { IfOk result (λ room. room.1 ≡ 64) }
{
    let cpus = Vec::with_capacity(alloc, MOST_PASSES as usize)?;
    let bounce = Bounce::new(alloc, MOST_COPIED)?;
    Ok((cpus, bounce))
}

// A race of which nothing was done yet.
fn begin<'c>(
    alloc: Global,
    cabinet: &'c Cabinet<Generation>,
    config: Config,
    cpus: Vec<Vcpu<'c>>,
) -> Racer<'c>
    requires own { config.seat.cabinet ≡ cabinet.now.id }
    requires unused { IsUnused config }
    requires seen { config.seat.seen ≡ [] }
    requires out { config.seat.out ≡ replicate most_passes false }
    requires empty { cpus.items ≡ [] }
    requires room { most_passes ≤ vec_capacity cpus }
    ensures ready { IsReady result }
    ensures known { result.known ≡ known_at_first }
    ensures seen { result.desk.seat.seen ≡ [] }
    ensures out { result.desk.seat.out ≡ replicate most_passes true }
    ensures part { result.desk.part ≡ config.part }
    ensures same { (result.desk.seat.cabinet ≡ config.seat.cabinet) × (result.desk.seat.sizes ≡ config.seat.sizes) }
{
    let mut desk = Record::new(alloc, config);
    let mut all = cpus;
    hand_out(cabinet, &mut desk, &mut all);
    Racer {
        desk,
        cpus: all,
        known: KnownNames::new(alloc),
    }
}

/// Runs a script on the running machine, with the desk and the passes of its block beside one another, and writes its text.
///
/// The desk is of this cabinet, and no call was made on it; it has sixteen passes, and the pool that the script names. It comes back with all
/// passes taken in, whatever the result, so it has seen the whole history of the cabinet. It may wait where a part of a word is replaced, and
/// where actors wait for one another's orders.
///
/// It answers `Write` only where a write failed. After that and after `Memory` the passes leave; what was written then is the beginning of the
/// text of a history of the script that begins with what was seen before.
pub fn race<'c, R: Threads + Wait + Sync, S: Sink, G: Gate>(
    rt: &R,
    alloc: Global,
    script: &'c Script,
    cabinet: &'c Cabinet<Generation>,
    config: Config,
    sink: &mut S,
    gate: &G,
) -> (Config, Result<(), RunFault>)
    requires own { config.seat.cabinet ≡ cabinet.now.id }
    requires fresh { IsFresh (pool_words script.now) config }
    // Ok: the history that the desk has seen is one of the script, and the sink took its text
    ensures text { OnOk result.1 (TakesOne S.written S.holds sink.old sink.new (IsTextOfRace script.now result.0.seat.seen)) }
    // a fault: what the sink took begins the text of a history of the script that begins with what the desk has seen, without the last leaves
    ensures fault { OnErr result.1 (TakesOne S.written S.holds sink.old sink.new (HasStopped script.now result.0)) }
    ensures write { IsErrOf result.1 RunFault.Write → Rose (S.faults sink.old) (S.faults sink.new) }
    ensures later { S.faults sink.old ≤ S.faults sink.new }
    // a script without a block, or with an empty one, has the text of its run
    ensures run { Every IsAlone (phases_of script.now)
        → Writes S.written S.holds S.faults sink.old sink.new (text_of script.now) RunFault.Write result.1 }
    ensures home { result.0.seat.out ≡ replicate most_passes false }
    ensures same { (result.0.seat.cabinet ≡ config.seat.cabinet) × (result.0.seat.sizes ≡ config.seat.sizes) }
{
    let _lines = script.lines();
    let (cpus, bounce) = match room_for(alloc) {
        Ok(room) => room,
        Err(AllocError) => return (config, Err(RunFault::Memory)),
    };
    let racer = begin(alloc, cabinet, config, cpus);
    let (racer, done) = go_through(rt, alloc, racer, bounce, script, sink, gate);
    let Racer {
        desk,
        cpus,
        known: _known,
    } = racer;
    (close(desk, cpus), done)
}
