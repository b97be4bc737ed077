// The clerks of the actors, which each has for its orders.
ghost use Rattle.std.specs.Prelude.{◌≡◌, ℕ, ◌<◌, ◌≤◌, [], length, map, slice_index_or, vec_capacity};
ghost use Rattle.race_block.specs.Joined.{IsNew, clerk_of, without_clerk};

use crate::blocks::BlockActor;
use desk_orders::Clerk;
use std::alloc::Global;
use std::mem;

// A clerk; it begins anew.
fn taken(alloc: Global, clerk: &mut Clerk) -> Clerk
    ensures taken { result ≡ clerk.old }
    ensures new { IsNew clerk.old.who clerk.new }
{
    let who = clerk.who();
    mem::replace(clerk, Clerk::new(alloc, who))
}

// The clerk of an actor.
fn take_clerk(alloc: Global, actor: &mut BlockActor<'_, '_>) -> Clerk
    ensures clerk { result ≡ clerk_of actor.old }
    ensures rest { actor.new ≡ without_clerk actor.old }
{
    match actor {
        BlockActor::Desk(desk) => taken(alloc, &mut desk.clerk),
        BlockActor::Pass(pass) => taken(alloc, &mut pass.clerk),
        BlockActor::Gone => Clerk::new(alloc, 0),
    }
}

/// The clerks of all actors, into the room that was taken for them.
pub fn take_clerks(alloc: Global, actors: &mut [BlockActor<'_, '_>], clerks: &mut Vec<Clerk>)
    requires empty { clerks.old.items ≡ [] }
    requires room { length actors.old ≤ vec_capacity clerks.old }
    ensures clerks { clerks.new.items ≡ map clerk_of actors.old }
    ensures rest { (i : ℕ) (d : BlockActor) → i < length actors.old → slice_index_or actors.new i d ≡ without_clerk (slice_index_or actors.old i d) }
{
    for at in 0..actors.len() {
        clerks.push_reserved(take_clerk(alloc, &mut actors[at]));
    }
}
