// The desk at which the writer changes the map.
ghost use Rattle.std.specs.Prelude.{◌≡◌, ◌≢◌, ◌^◌, ◌+◌, ◌<◌, ◌≤◌, ◌==◌, ◌&&◌, not, true, false, Ok, Err, Some, None, IfOk, IfErr, OnOk, OnErr};
ghost use Rattle.std.specs.Arc.{arc_value};
ghost use Rattle.mem_base.specs.declared.map.calls.Config.TheVariants as configs;
ghost use Rattle.mem_base.specs.declared.map.forests.Forest.{Forest};
ghost use Rattle.mem_base.specs.map.Limits.{most_nested};
ghost use Rattle.mem_base.specs.map.Forest.{IsMade};
ghost use Rattle.mem_base.specs.map.Calls.{after, answer_of, is_quiet};
ghost use Rattle.mem_base.specs.machine.Committed.{transaction_after};
ghost use Rattle.transact.specs.Desks.{first_state, with_state};
ghost use Rattle.transact.specs.Preparing.{AreDeskPlaces, readied, IsOfDesk, when_done, most_carves};
ghost use Rattle.transact.specs.Commits.{IsStep};

use crate::prepared::{Prepared, Step};
use crate::preparing::prepare;
use crate::spare::{Next, Spare, lacking, replace, second};
use generation::Generation;
use mem_base::{Applied, Call, Edition, Listener, MOST_NESTED, Place, Refusal, SpaceId};
use region_tree::Tree;
use std::alloc::{AllocError, Global};
use std::marker::Model;
use std::sync::Arc;
use std::sync::ledger::Ledger;
use step_counter::Steps;
use touched_spaces::{Noted, Regions, noting};

/// What the writer keeps of the map: the tree, the transactions that are open, and the current generation.
///
/// It is seen as the forest with the transactions that are open, and the current generation. It keeps a second tree, on which
/// a change is prepared: what it lacks of the calls is done then, so that nothing has to be copied. The trees change places
/// when the change is done.
#[derive(Drop)]
pub struct Desk {
    alloc: Global,
    tree: Tree,
    // the second tree, but at first, and where it was given up or went with what was prepared
    spare: Option<Spare>,
    depth: u32,
    pending: bool,
    current: Arc<Generation, Global>,
    // the regions that are reached in each space of the current generation
    reached: Vec<(SpaceId, Regions)>,
    // the regions that calls may have changed since then, where they are few
    noted: Option<Noted>,
}

impl Model for Desk {
    ghost use Rattle.std.specs.Arc.{arc_value};
    ghost use Rattle.mem_base.specs.machine.Committed.{transaction};
    ghost use Rattle.transact.specs.Desks.{DeskState, desk_state, IsDesk};

    ghost Value = { DeskState };

    ghost view = { λ d. desk_state (transaction d.tree d.depth d.pending) (arc_value d.current) };

    ghost invariant = { λ d. IsDesk (desk_state (transaction d.tree d.depth d.pending) (arc_value d.current)) d.reached.items d.noted d.spare };
}

impl Desk {
    /// An empty map, which generation 0 publishes.
    ///
    /// It fails only where memory runs out.
    pub fn new(alloc: Global) -> Result<Desk, AllocError>
        ensures { IfOk result (λ desk. desk ≡ first_state) }
    {
        let tree = Tree::new(alloc);
        let forest = tree.forest()?;
        let generation = Generation::new(0, forest, Vec::new(alloc), Vec::new(alloc));
        Ok(Desk {
            alloc,
            tree,
            spare: None,
            depth: 0,
            pending: false,
            current: Arc::new(alloc, generation)?,
            reached: Vec::new(alloc),
            noted: Some(Noted::none(alloc)),
        })
    }

    /// The forest of regions as the calls have made it, those of open transactions included.
    pub fn tree(&self) -> &Tree
        ensures value { result.now ≡ self.now.state.forest }
        ensures made { IsMade self.now.state.forest }
    {
        &self.tree
    }

    /// A law: the forest is one that accepted calls make. It does nothing.
    pub fn knows_forest(&self)
        ensures { IsMade self.now.state.forest }
    {
        let _ = &self.tree;
    }

    /// How many transactions are open, one within another.
    pub fn depth(&self) -> u32
        ensures value { result ≡ self.now.state.depth }
        ensures within { result ≤ most_nested }
    {
        self.depth
    }

    /// Whether a change was made in the transactions that are open.
    pub fn pending(&self) -> bool
        ensures value { result ≡ self.now.state.pending }
        ensures idle { self.now.state.depth ≡ 0 → self.now.state.pending ≡ false }
    {
        self.pending
    }

    /// A law: nothing is pending outside transactions. It does nothing.
    pub fn knows_idle(&self)
        ensures { self.now.state.depth ≡ 0 → self.now.state.pending ≡ false }
    {
        let _ = &self.tree;
    }

    /// The generation that is current.
    pub fn current(&self) -> &Arc<Generation, Global>
        ensures { arc_value result.now ≡ self.now.current }
    {
        &self.current
    }

    /// The number of the current generation. Each publish had a call of its own, so 64 bits hold the numbers after it.
    pub fn number(&self) -> u64
        ensures value { result ≡ self.now.current.number }
        ensures fits { result + 2 < 2 ^ 64 }
    {
        self.current.number()
    }

    /// A law: 64 bits hold the two numbers after the current one. It does nothing.
    pub fn knows_number(&self)
        ensures { self.now.current.number + 2 < 2 ^ 64 }
    {
        let _ = &self.current;
    }

    /// Opens a transaction, inside of those that are open. QEMU's core, `memory_region_transaction_begin`.
    ///
    /// Refused with `TooNested` where 64 are open, and then nothing changes; the bound is this project's own.
    pub fn begin(&mut self) -> Result<(), Refusal>
        ensures begun { OnOk result (self.new ≡ with_state (transaction_after self.old.state configs.Begin) self.old) }
        ensures accepted { OnOk result (self.old.state.depth < most_nested) }
        ensures refused { OnErr result (result ≡ Err Refusal.TooNested) }
        ensures nested { OnErr result (self.old.state.depth ≡ most_nested) }
        ensures unchanged { OnErr result (self.new ≡ self.old) }
    {
        if self.depth >= MOST_NESTED {
            return Err(Refusal::TooNested);
        }
        self.depth += 1;
        Ok(())
    }

    /// Does a call that publishes nothing: inside a transaction any call, outside one a call that makes or drops a region.
    ///
    /// It is refused for the forest's first reason, or where memory runs out, and then nothing changes.
    pub fn call(&mut self, call: &Call) -> Result<Applied, Refusal>
        requires { (self.old.state.depth == 0) && not (is_quiet call.now) ≡ false }
        ensures applied { IfOk result (λ x. (after self.old.state.forest call.now ≡ Ok self.new.state.forest)
            × (x ≡ answer_of self.old.state.forest call.now)) }
        ensures state { OnOk result (self.new ≡ with_state (transaction_after self.old.state (configs.Call call.now)) self.old) }
        ensures refused { IfErr result (λ why. why ≢ Refusal.Memory → after self.old.state.forest call.now ≡ Err why) }
        ensures unchanged { OnErr result (self.new ≡ self.old) }
    {
        call.knows_fits();
        let applied = self.tree.apply(call)?;
        self.spare = lacking(self.spare.take(), call);
        self.noted = noting(self.noted.take(), call, applied);
        if !call.is_quiet() {
            self.pending = true;
        }
        Ok(applied)
    }

    /// Prepares a change outside all transactions, which is one by itself. The desk stays as it is until `done`.
    ///
    /// `places` are the places of all regions that have words, in order of making, and after the pool the notifiers'. How a
    /// space differs is prepared only where one of the `listeners` hears it. It is refused for the forest's first reason,
    /// before anything is carved, or where memory runs out. A step is one carve: at most the square of the root's weight for
    /// each space that the change touches, and none for any other. The whole tree is copied only where the desk has no second
    /// one: at the first change, after 64 calls that were no changes of their own, and after memory ran out or what was
    /// prepared was dropped.
    pub fn call_prepare<L: Ledger>(
        &mut self,
        call: &Call,
        places: &[Place],
        listeners: &[Listener],
        steps: &mut Steps<L>,
    ) -> Result<Prepared, Refusal>
        requires outside { self.old.state.depth ≡ 0 }
        requires change { is_quiet call.now ≡ false }
        requires places { AreDeskPlaces self.old.state.forest places.now }
        ensures applied { IfOk result (λ p. after self.old.state.forest call.now ≡ Ok p.generation.forest) }
        ensures prepared { IfOk result (λ p. p ≡ readied self.old.current p.generation.forest places.now listeners.now (Some call.now)) }
        ensures refused { IfErr result (λ why. why ≢ Refusal.Memory → after self.old.state.forest call.now ≡ Err why) }
        ensures unchanged { self.new ≡ self.old }
        ensures carves { (f : Forest) → after self.old.state.forest call.now ≡ Ok f → steps.new ≤ steps.old + most_carves self.old.current.forest f }
        ensures spared { IfErr result (λ why. why ≢ Refusal.Memory → steps.new ≡ steps.old) }
    {
        call.knows_fits();
        let (mut tree, mut missing) = second(self.alloc, &self.tree, self.spare.take())?;
        let applied = match tree.apply(call) {
            Ok(applied) => applied,
            Err(why) => {
                self.spare = Some(Spare::new(tree, missing));
                return Err(why);
            }
        };
        missing.push(*call)?;
        self.noted = noting(self.noted.take(), call, applied);
        let prepared = prepare(
            self.alloc,
            &self.current,
            self.reached.as_slice(),
            &self.noted,
            &tree,
            places,
            listeners,
            steps,
        )?;
        Ok(prepared.with_next(Next {
            tree,
            call: *call,
            missing,
        }))
    }

    /// Closes an inner transaction, or the outermost one where nothing is pending; or else prepares what is pending, and the
    /// desk stays as it is until `done`. QEMU's core, `memory_region_transaction_commit`.
    ///
    /// `places` and `listeners` as for `call_prepare`. It is refused with `NoTransaction` where none is open, or where memory
    /// runs out, and then nothing changes. It carves at most as often as `call_prepare` may.
    pub fn commit_prepare<L: Ledger>(
        &mut self,
        places: &[Place],
        listeners: &[Listener],
        steps: &mut Steps<L>,
    ) -> Result<Step, Refusal>
        requires { AreDeskPlaces self.old.state.forest places.now }
        ensures step { IfOk result (λ step. IsStep self.old places.now listeners.now self.new step) }
        ensures refused { IfErr result (λ why. why ≢ Refusal.Memory → (why ≡ Refusal.NoTransaction) × (self.old.state.depth ≡ 0)) }
        ensures unchanged { OnErr result (self.new ≡ self.old) }
        ensures carves { steps.new ≤ steps.old + most_carves self.old.current.forest self.old.state.forest }
        ensures spared { IfErr result (λ why. why ≢ Refusal.Memory → steps.new ≡ steps.old) }
    {
        if self.depth == 0 {
            return Err(Refusal::NoTransaction);
        }
        if self.depth > 1 {
            self.depth -= 1;
            return Ok(Step::Inner);
        }
        if !self.pending {
            self.depth = 0;
            return Ok(Step::Empty);
        }
        let prepared = prepare(
            self.alloc,
            &self.current,
            self.reached.as_slice(),
            &self.noted,
            &self.tree,
            places,
            listeners,
            steps,
        )?;
        Ok(Step::Ready(prepared))
    }

    /// Makes a prepared generation the current one: no transaction is open then, and nothing is pending.
    ///
    /// What is handed in was prepared of the desk as it stands. It takes no memory, and cannot fail.
    pub fn done(&mut self, prepared: Prepared)
        requires { IsOfDesk self.old prepared }
        ensures { self.new ≡ when_done prepared }
    {
        prepared.generation.knows_forest();
        let Prepared {
            generation,
            next,
            reached,
            ..
        } = prepared;
        replace(&mut self.tree, &mut self.spare, next);
        self.depth = 0;
        self.pending = false;
        self.current = generation;
        self.reached = reached;
        self.noted = Some(Noted::none(self.alloc));
    }
}
