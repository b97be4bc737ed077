// An actor of a block.
ghost use Rattle.std.specs.Prelude.{◌≡◌};
ghost use Rattle.race_block.specs.Blocks.{CanAct, HasActed};

use crate::desks::DeskActor;
use crate::passes::PassActor;
use desk_orders::Orderly;
use outside::Gate;
use std::alloc::Global;
use std::mem;
use std::sync::Wait;

/// Who acts in a block.
#[derive(Drop)]
pub enum BlockActor<'a, 'k> {
    Desk(DeskActor<'a>),
    Pass(PassActor<'a, 'k>),
    /// Nobody: the actor was taken out.
    Gone,
}

/// Lets an actor do its lines.
pub fn act<O: Orderly, G: Gate, R: Wait>(
    rt: &R,
    alloc: Global,
    gate: &G,
    desk: &mut O,
    actor: &mut BlockActor<'_, '_>,
)
    requires ready { CanAct (O.cabinet desk.old) actor.old }
    ensures acted { HasActed (O.cabinet desk.old) actor.old actor.new }
    ensures desk { O.cabinet desk.new ≡ O.cabinet desk.old }
{
    match mem::replace(actor, BlockActor::Gone) {
        BlockActor::Desk(lines) => {
            let done = BlockActor::Desk(lines.run(rt, alloc, gate, desk));
            drop(mem::replace(actor, done));
        }
        BlockActor::Pass(pass) => {
            let done = BlockActor::Pass(pass.run(rt, alloc, gate, desk));
            drop(mem::replace(actor, done));
        }
        BlockActor::Gone => {}
    }
}
