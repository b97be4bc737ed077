// The desk with its pool.
ghost use Rattle.std.specs.Prelude.{◌≡◌, ◌≢◌, ◌==◌, ◌&&◌, ◌+◌, ◌≤◌, ◌<◌, ◌^◌, not, false, Ok, Err, Some, None, IfOk, IfErr, OnOk, OnErr, length};
ghost use Rattle.std.specs.List.Sorted.{IsSearchInRange};
ghost use Rattle.mem_base.specs.declared.map.calls.Config.TheVariants as configs;
ghost use Rattle.mem_base.specs.declared.map.forests.Forest.{Forest};
ghost use Rattle.mem_base.specs.map.Limits.{most_nested};
ghost use Rattle.mem_base.specs.lists.Sorting.{place_of};
ghost use Rattle.mem_base.specs.map.Refusals.{bad_size};
ghost use Rattle.mem_base.specs.map.Region.{node_of};
ghost use Rattle.mem_base.specs.map.Calls.{after, is_quiet};
ghost use Rattle.mem_base.specs.machine.Committed.{transaction_after};
ghost use Rattle.mem_base.specs.access.PlacesByRegion.{place_in};
ghost use Rattle.mem_base.specs.access.Places.{extent, extent_of, words_of};
ghost use Rattle.generation.specs.Published.{AscendByRegion};
ghost use Rattle.transact.specs.Desks.{with_state};
ghost use Rattle.transact.specs.Preparing.{AreDeskPlaces, readied, when_done, most_carves};
ghost use Rattle.transact.specs.Commits.{IfReady, IsStep};
ghost use Rattle.transact.specs.Backed.{first_backed, forest_at, all_places, extent_made, words_made, refusal_at};
ghost use Rattle.transact.specs.Backed.{by_region, without, backing_without};
ghost use Rattle.transact.specs.Backed.{IsCalled, IsOfBackedDesk};

use crate::desk::Desk;
use crate::prepared::{Prepared, Step};
use backing_pool::Pool;
use mem_base::{Applied, Call, Kind, Listener, Place, Refusal, RegionId, Size};
use region_tree::Tree;
use std::alloc::{AllocError, Global};
use std::marker::Model;
use std::sync::ledger::Ledger;
use step_counter::Steps;

/// What the writer keeps of the map, with the words of its regions.
///
/// It is seen as its desk and its pool.
#[derive(Drop)]
pub struct BackedDesk {
    desk: Desk,
    pool: Pool,
    // the number of regions made, which is the id of the next
    made: u32,
    // the places of the pool, and after them the notifiers'
    places: Vec<Place>,
}

impl Model for BackedDesk {
    ghost use Rattle.transact.specs.Backed.{BackedState, backed_state, IsBackedDesk};

    ghost Value = { BackedState };

    ghost view = { λ b. backed_state b.desk b.pool };

    ghost invariant = { λ b. IsBackedDesk (backed_state b.desk b.pool) b.made b.places.items };
}

// The bytes of data and the registers of a region of a kind and of a size that the kind may have.
fn extent(kind: Kind, size: Size) -> (u64, u32)
    ensures value { bad_size kind size ≡ None → extent result.0 result.1 ≡ extent_of kind size }
    ensures none { result.0 ≡ 0 → result.1 ≡ 0 → words_of (extent_of kind size) ≡ 0 }
{
    match kind {
        Kind::Ram | Kind::Rom => (bytes(size), 0),
        Kind::RomDevice(device) => (bytes(size), device.regs),
        Kind::Io(device) => (0, device.regs),
        _ => (0, 0),
    }
}

// The bytes of a size; the most that 64 bits hold where they are more.
fn bytes(size: Size) -> u64
    ensures value { size < 2 ^ 64 → result ≡ size }
    ensures none { result ≡ 0 → size ≡ 0 }
{
    u64::try_from(size.get()).unwrap_or(u64::MAX)
}

// Where the place of a region stands, or where it would.
fn position(places: &[Place], region: RegionId) -> Result<usize, usize>
    requires { AscendByRegion places.now }
    ensures place { result ≡ place_of (by_region region) places.now }
    ensures bound { IsSearchInRange result (length places.now) }
{
    places.binary_search_by(|place| place.region.0.cmp(&region.0))
}

// Takes the place of a region out of a list.
fn forget(places: &mut Vec<Place>, region: RegionId)
    requires { AscendByRegion places.old.items }
    ensures { places.new.items ≡ without places.old.items region }
{
    if let Ok(at) = position(places.as_slice(), region) {
        places.remove(at);
    }
}

impl BackedDesk {
    /// An empty map over a pool of this many words, none of which is taken.
    ///
    /// It fails only where memory runs out.
    pub fn new(alloc: Global, words: usize) -> Result<BackedDesk, AllocError>
        ensures { IfOk result (λ desk. desk ≡ first_backed words) }
    {
        let mut places = Vec::new(alloc);
        places.push(Place::notifiers(words))?;
        Ok(BackedDesk {
            desk: Desk::new(alloc)?,
            pool: Pool::new(alloc, words)?,
            made: 0,
            places,
        })
    }

    /// The desk: the tree, the transactions that are open, and the current generation.
    pub fn desk(&self) -> &Desk
        ensures { result.now ≡ self.now.desk }
    {
        &self.desk
    }

    /// The places in which there are words: those of regions, in order of making, and after the pool the notifiers'.
    pub fn places(&self) -> &[Place]
        ensures places { result.now ≡ all_places self.now.backing }
        ensures fit { AreDeskPlaces (forest_at self.now) result.now }
    {
        self.desk.knows_forest();
        // It tells what holds of the pool.
        let _ = self.pool.place_of(RegionId(0));
        self.places.as_slice()
    }

    /// A law: the places are those of just the forest's regions that have words, and then the notifiers'. It does nothing.
    pub fn knows_places(&self)
        ensures { AreDeskPlaces (forest_at self.now) (all_places self.now.backing) }
    {
        self.desk.knows_forest();
    }

    /// The place of a region: `None` exactly where it has none.
    pub fn place_of(&self, region: RegionId) -> Option<Place>
        ensures { result ≡ place_in self.now.backing.places region }
    {
        self.pool.place_of(region)
    }

    /// Opens a transaction, inside of those that are open.
    ///
    /// Refused with `TooNested` where 64 are open, and then nothing changes.
    pub fn begin(&mut self) -> Result<(), Refusal>
        ensures begun { OnOk result (self.new.desk ≡ with_state (transaction_after self.old.desk.state configs.Begin) self.old.desk) }
        ensures accepted { OnOk result (self.old.desk.state.depth < most_nested) }
        ensures backing { self.new.backing ≡ self.old.backing }
        ensures refused { OnErr result (result ≡ Err Refusal.TooNested) }
        ensures nested { OnErr result (self.old.desk.state.depth ≡ most_nested) }
        ensures unchanged { OnErr result (self.new ≡ self.old) }
    {
        self.desk.begin()
    }

    /// Does a call that publishes nothing: inside a transaction any call, outside one a call that makes or drops a region. A
    /// region that is made with words gets the first words of the hole of least start that has as many.
    ///
    /// It is refused for the forest's first reason, then with `NoBacking` where no hole has the words, or where memory runs out;
    /// and then nothing changes.
    pub fn call(&mut self, call: &Call) -> Result<Applied, Refusal>
        requires { (self.old.desk.state.depth == 0) && not (is_quiet call.now) ≡ false }
        ensures done { IfOk result (λ x. IsCalled self.old call.now self.new x) }
        ensures refused { IfErr result (λ why. why ≢ Refusal.Memory → refusal_at self.old call.now ≡ Some why) }
        ensures unchanged { OnErr result (self.new ≡ self.old) }
    {
        let Call::Region { kind, size } = *call else {
            return self.plain_call(call);
        };
        let (bytes, regs) = extent(kind, size);
        if bytes > 0 || regs > 0 {
            return self.make(kind, size, bytes, regs);
        }
        self.plain_call(call)
    }

    // Does such a call that makes no words.
    fn plain_call(&mut self, call: &Call) -> Result<Applied, Refusal>
        requires private { (self.old.desk.state.depth == 0) && not (is_quiet call.now) ≡ false }
        requires wordless { words_made (extent_made call.now) ≡ 0 }
        ensures done { IfOk result (λ x. IsCalled self.old call.now self.new x) }
        ensures refused { IfErr result (λ why. why ≢ Refusal.Memory → refusal_at self.old call.now ≡ Some why) }
        ensures unchanged { OnErr result (self.new ≡ self.old) }
    {
        self.desk.knows_forest();
        let applied = self.desk.call(call)?;
        if let Applied::Made(region) = applied {
            self.desk.knows_forest();
            self.made = region.0 + 1;
        }
        Ok(applied)
    }

    // Makes a region that has bytes or registers.
    fn make(&mut self, kind: Kind, size: Size, bytes: u64, regs: u32) -> Result<Applied, Refusal>
        requires extent { bad_size kind size ≡ None → extent bytes regs ≡ extent_of kind size }
        requires some { 0 < bytes + regs }
        ensures done { IfOk result (λ x. IsCalled self.old (Call.Region kind size) self.new x) }
        ensures refused { IfErr result (λ why. why ≢ Refusal.Memory → refusal_at self.old (Call.Region kind size) ≡ Some why) }
        ensures unchanged { OnErr result (self.new ≡ self.old) }
    {
        let call = Call::Region { kind, size };
        if let Some(why) = self.desk.tree().refusal_of(&call)? {
            return Err(why);
        }
        self.places.reserve(1)?;
        let region = RegionId(self.made);
        let place = self.pool.take(region, bytes, regs)?;
        match self.desk.call(&call) {
            Ok(applied) => {
                let last = self.places.len() - 1;
                self.places.insert(last, place)?;
                self.made += 1;
                Ok(applied)
            }
            Err(why) => {
                let _ = self.pool.give(region);
                Err(why)
            }
        }
    }

    /// Prepares a change outside all transactions, which is one by itself. The desk stays as it is until `done`.
    ///
    /// How a space differs is prepared only where one of the `listeners` hears it. The call is refused for the forest's first
    /// reason, before anything is carved, or where memory runs out. A step is one carve: at most the square of the root's
    /// weight for each space that the change touches, and none for any other.
    pub fn call_prepare<L: Ledger>(
        &mut self,
        call: &Call,
        listeners: &[Listener],
        steps: &mut Steps<L>,
    ) -> Result<Prepared, Refusal>
        requires outside { self.old.desk.state.depth ≡ 0 }
        requires change { is_quiet call.now ≡ false }
        ensures applied { IfOk result (λ p. after (forest_at self.old) call.now ≡ Ok p.generation.forest) }
        ensures prepared { IfOk result (λ p. p ≡ readied self.old.desk.current p.generation.forest (all_places self.old.backing) listeners.now (Some call.now)) }
        ensures ready { IfOk result (λ p. IsOfBackedDesk self.new p) }
        ensures refused { IfErr result (λ why. why ≢ Refusal.Memory → after (forest_at self.old) call.now ≡ Err why) }
        ensures unchanged { self.new ≡ self.old }
        ensures carves { (f : Forest) → after (forest_at self.old) call.now ≡ Ok f → steps.new ≤ steps.old + most_carves self.old.desk.current.forest f }
        ensures spared { IfErr result (λ why. why ≢ Refusal.Memory → steps.new ≡ steps.old) }
    {
        self.desk.knows_forest();
        self.desk
            .call_prepare(call, self.places.as_slice(), listeners, steps)
    }

    /// Closes an inner transaction, or the outermost one where nothing is pending; or else prepares what is pending, and the
    /// desk stays as it is until `done`.
    ///
    /// `listeners` as for `call_prepare`. It is refused with `NoTransaction` where none is open, or where memory runs out, and
    /// then nothing changes. It carves at most as often as `call_prepare` may.
    pub fn commit_prepare<L: Ledger>(
        &mut self,
        listeners: &[Listener],
        steps: &mut Steps<L>,
    ) -> Result<Step, Refusal>
        ensures step { IfOk result (λ step. IsStep self.old.desk (all_places self.old.backing) listeners.now self.new.desk step) }
        ensures backing { self.new.backing ≡ self.old.backing }
        ensures ready { IfOk result (λ step. IfReady step (IsOfBackedDesk self.new)) }
        ensures refused { IfErr result (λ why. why ≢ Refusal.Memory → (why ≡ Refusal.NoTransaction) × (self.old.desk.state.depth ≡ 0)) }
        ensures unchanged { OnErr result (self.new ≡ self.old) }
        ensures carves { steps.new ≤ steps.old + most_carves self.old.desk.current.forest (forest_at self.old) }
        ensures spared { IfErr result (λ why. why ≢ Refusal.Memory → steps.new ≡ steps.old) }
    {
        self.desk.knows_forest();
        self.desk
            .commit_prepare(self.places.as_slice(), listeners, steps)
    }

    /// Makes a prepared generation the current one: no transaction is open then, and nothing is pending.
    ///
    /// What is handed in was prepared of the desk as it stands. It takes no memory, and cannot fail.
    pub fn done(&mut self, prepared: Prepared)
        requires { IsOfBackedDesk self.old prepared }
        ensures desk { self.new.desk ≡ when_done prepared }
        ensures backing { self.new.backing ≡ self.old.backing }
    {
        self.desk.done(prepared);
    }

    /// Gives the place of a region back that was dropped: `None` exactly where it has none. It takes no memory.
    ///
    /// That no generation which a pass may still use names the region is for the caller to know: its words may be another
    /// region's from then on.
    pub fn release(&mut self, region: RegionId) -> Option<Place>
        requires { node_of (forest_at self.old).nodes region ≡ None }
        ensures place { result ≡ place_in self.old.backing.places region }
        ensures desk { self.new.desk ≡ self.old.desk }
        ensures backing { self.new.backing ≡ backing_without self.old.backing region }
    {
        self.desk.knows_forest();
        let place = self.pool.give(region)?;
        forget(&mut self.places, region);
        Some(place)
    }
}
