// What is prepared before a generation becomes current.
ghost use Rattle.std.specs.Prelude.{◌≡◌, None, Some};
ghost use Rattle.std.specs.Arc.{arc_value};
ghost use Rattle.touched_spaces.specs.Reached.{reached_in};
ghost use Rattle.transact.specs.Spares.{IsNext};

use crate::spare::Next;
use generation::Generation;
use mem_base::{Changes, SpaceId};
use std::alloc::Global;
use std::marker::Model;
use std::sync::Arc;
use touched_spaces::Regions;

/// A generation that is ready to become current, with the listeners' calls and, where a call was prepared, that call and the
/// tree after it. To drop it leaves the desk as it was, but for that the next change has to copy the tree.
#[derive(Drop)]
pub struct Prepared {
    pub(crate) generation: Arc<Generation, Global>,
    pub(crate) changes: Changes,
    pub(crate) next: Option<Next>,
    pub(crate) reached: Vec<(SpaceId, Regions)>,
}

impl Model for Prepared {
    ghost use Rattle.std.specs.Prelude.{◌≡◌, IfSome, option_map};
    ghost use Rattle.std.specs.Arc.{arc_value};
    ghost use Rattle.transact.specs.Preparing.{Readied};
    ghost use Rattle.touched_spaces.specs.Reached.{reached_in};
    ghost use Rattle.transact.specs.Spares.{IsNext};

    ghost Value = { Readied };

    ghost view = { λ p. record { generation = arc_value p.generation; changes = p.changes; call = option_map (λ n. n.call) p.next } };

    ghost invariant = { λ p. (p.reached.items ≡ reached_in (arc_value p.generation).forest)
        × IfSome p.next (IsNext (arc_value p.generation).forest) };
}

impl Prepared {
    /// What is prepared of the desk's own forest.
    pub(crate) fn new(
        generation: Arc<Generation, Global>,
        changes: Changes,
        reached: Vec<(SpaceId, Regions)>,
    ) -> Prepared
        requires { reached.items ≡ reached_in (arc_value generation).forest }
        ensures generation { result.generation ≡ arc_value generation }
        ensures changes { result.changes ≡ changes }
        ensures call { result.call ≡ None }
    {
        Prepared {
            generation,
            changes,
            next: None,
            reached,
        }
    }

    /// The same, with the tree after the call that was prepared.
    pub(crate) fn with_next(self, next: Next) -> Prepared
        requires { IsNext self.generation.forest next }
        ensures generation { result.generation ≡ self.generation }
        ensures changes { result.changes ≡ self.changes }
        ensures call { result.call ≡ Some next.call }
    {
        Prepared {
            next: Some(next),
            ..self
        }
    }

    /// The generation that is to become current.
    pub fn generation(&self) -> &Arc<Generation, Global>
        ensures { arc_value result.now ≡ self.now.generation }
    {
        &self.generation
    }

    /// What the listeners are to be told: the changes from the current generation to it, of the spaces that they hear.
    pub fn changes(&self) -> &Changes
        ensures { result.now ≡ self.now.changes }
    {
        &self.changes
    }
}

/// What a commit comes to.
#[derive(Drop)]
pub enum Step {
    /// An inner transaction is closed.
    Inner,
    /// The outermost transaction is closed, and nothing was pending in it.
    Empty,
    /// The outermost transaction has a change pending, which is ready to be published; the transaction is open still.
    Ready(Prepared),
}
