// The actors of a block beside one another.
ghost use Rattle.std.specs.Prelude.{ℕ, ◌<◌, length, All, slice_index_or};
ghost use Rattle.race_block.specs.Blocks.{CanAct, HasActed};

use desk_lock::{DeskLock, Naming, Shared};
use outside::Gate;
use race_block::{BlockActor, act};
use std::alloc::Global;
use std::sync::Wait;
use std::thread;
use std::thread::Threads;

// Lets an actor do its lines, by orders to the lock.
fn act_by<J: Naming, G: Gate, R: Wait>(
    rt: &R,
    alloc: Global,
    gate: &G,
    lock: &DeskLock<J>,
    actor: &mut BlockActor<'_, '_>,
)
    requires ready { CanAct J.start.seat.cabinet actor.old }
    ensures acted { HasActed J.start.seat.cabinet actor.old actor.new }
{
    let mut desk = Shared { lock };
    act(rt, alloc, gate, &mut desk, actor);
    let Shared { lock: _lock } = desk;
}

/// Lets all actors do their lines, each in a thread of its own where one can be made.
pub fn act_all<J: Naming + Send + Sync, G: Gate, R: Threads + Wait + Sync>(
    rt: &R,
    alloc: Global,
    gate: &G,
    lock: &DeskLock<J>,
    actors: &mut [BlockActor<'_, '_>],
)
    requires ready { All (CanAct J.start.seat.cabinet) actors.old }
    ensures acted { (i : ℕ) (d : BlockActor) → i < length actors.old
        → HasActed J.start.seat.cabinet (slice_index_or actors.old i d) (slice_index_or actors.new i d) }
{
    thread::for_each_mut(
        rt,
        actors,
        17,
        &|_, actor: &mut BlockActor<'_, '_>|
            requires { CanAct J.start.seat.cabinet actor.now }
            ensures { HasActed J.start.seat.cabinet actor.entry.now actor.exit.now }
        { act_by(rt, alloc, gate, lock, actor) },
    );
}
