// The calls that change the forest.

ghost use Rattle.std.specs.Prelude.{◌≡◌, ◌≢◌, ◌<◌, None, IsSome, IfOk, IfErr, OnOk, OnErr};
ghost use Rattle.mem_base.specs.map.Changes.{changed, made_region};
ghost use Rattle.mem_base.specs.map.Calls.{after, answer_of, counted, refusal_of};
ghost use Rattle.mem_base.specs.map.Edits.{edits};

use crate::conditions::{no_more_calls, no_place};
use crate::tree::Tree;
use mem_base::{Applied, Call, Entries, Events, Kind, Node, Refusal, RegionId, Size, SpaceId};
use region_extents::{Join, place_of_target};
use region_slots::place_of;
use std::alloc::{AllocError, Global};

/// A region as it is made.
fn new_node(alloc: Global, id: RegionId, kind: Kind, size: Size) -> Node
    ensures { result ≡ made_region id kind size }
{
    Node {
        id,
        kind,
        size,
        parent: None,
        offset: 0,
        priority: 0,
        placing: 0,
        enabled: true,
        readonly: false,
        nonvolatile: false,
        romd: kind.is_rom_device(),
        unmergeable: false,
        log: 0,
        entries: Entries::new(alloc),
        events: Events::new(alloc),
    }
}

impl Tree {
    /// Does a call: the forest is then the one after the call, and the answer for a `Region` is the id of the
    /// region that was made, which is the number of regions made before it.
    ///
    /// A call that is refused changes nothing. It is refused for the first reason that stands, in the order
    /// that is this project's own, or where memory runs out.
    pub fn apply(&mut self, call: &Call) -> Result<Applied, Refusal>
        ensures applied { IfOk result (λ x. (after self.old call.now ≡ Ok self.new) × (x ≡ answer_of self.old call.now)) }
        ensures refused { IfErr result (λ why. why ≢ Refusal.Memory → after self.old call.now ≡ Err why) }
        ensures unchanged { OnErr result (self.new ≡ self.old) }
    {
        if let Call::Add {
            parent,
            offset,
            child,
            priority,
        } = *call
        {
            let done = self.apply_add(parent, offset, child, priority)?;
            return Ok(done);
        }
        if let Some(why) = self.refusal_of(call)? {
            return Err(why);
        }
        Ok(self.accept(call)?)
    }

    /// Does an `Add`, or says why it is refused. Where it makes no loop and no path too long, only what stands above
    /// the container is looked at.
    fn apply_add(
        &mut self,
        parent: RegionId,
        offset: u64,
        child: RegionId,
        priority: i32,
    ) -> Result<Applied, Refusal>
        ensures applied { IfOk result (λ x. (after self.old (Call.Add parent offset child priority) ≡ Ok self.new)
            × (x ≡ answer_of self.old (Call.Add parent offset child priority))) }
        ensures refused { IfErr result (λ why. why ≢ Refusal.Memory → after self.old (Call.Add parent offset child priority) ≡ Err why) }
        ensures unchanged { OnErr result (self.new ≡ self.old) }
    {
        if let Some(why) = no_place(self, parent, child) {
            return Err(why);
        }
        let is_spent = no_more_calls(self).is_some();
        if is_spent {
            let done = self.apply_add_slowly(parent, offset, child, priority)?;
            return Ok(done);
        }
        let is_joined = self
            .kept
            .join(self.alloc, self.slots.as_slice(), Join { parent, child });
        if !is_joined {
            let done = self.apply_add_slowly(parent, offset, child, priority)?;
            return Ok(done);
        }
        match self
            .slots
            .place(parent, offset, child, priority, self.placings)
        {
            Ok(()) => {
                self.placings += 1;
                self.calls += 1;
                Ok(Applied::Done)
            }
            Err(_) => {
                self.kept.fresh = false;
                Err(Refusal::Memory)
            }
        }
    }

    /// The same by a look at all regions.
    fn apply_add_slowly(
        &mut self,
        parent: RegionId,
        offset: u64,
        child: RegionId,
        priority: i32,
    ) -> Result<Applied, Refusal>
        ensures applied { IfOk result (λ x. (after self.old (Call.Add parent offset child priority) ≡ Ok self.new)
            × (x ≡ answer_of self.old (Call.Add parent offset child priority))) }
        ensures refused { IfErr result (λ why. why ≢ Refusal.Memory → after self.old (Call.Add parent offset child priority) ≡ Err why) }
        ensures unchanged { OnErr result (self.new ≡ self.old) }
    {
        if let Some(why) = self.refusal_of_add(parent, offset, child, priority)? {
            return Err(why);
        }
        self.add(parent, offset, child, priority)?;
        Ok(Applied::Done)
    }

    /// Does a call that is not refused.
    fn accept(&mut self, call: &Call) -> Result<Applied, AllocError>
        requires { refusal_of self.old call.now ≡ None }
        ensures ok { IfOk result (λ x. (self.new ≡ counted (changed self.old call.now)) × (x ≡ answer_of self.old call.now)) }
        ensures err { OnErr result (self.new ≡ self.old) }
    {
        match *call {
            Call::Region { kind, size } => return Ok(Applied::Made(self.make(kind, size)?)),
            Call::Space { space, root } => self.open(space, root)?,
            Call::Add {
                parent,
                offset,
                child,
                priority,
            } => self.add(parent, offset, child, priority)?,
            Call::Del { parent, child } => self.del(parent, child),
            Call::Move { child, offset } => self.shift(child, offset)?,
            Call::Global { on } => self.set_global(on),
            Call::Drop { region } => self.discard(region),
            _ => self.edit(call)?,
        }
        Ok(Applied::Done)
    }

    /// Makes a region.
    fn make(&mut self, kind: Kind, size: Size) -> Result<RegionId, AllocError>
        requires { refusal_of self.old (Call.Region kind size) ≡ None }
        ensures made { OnOk result (self.new ≡ counted (changed self.old (Call.Region kind size))) }
        ensures id { IfOk result (λ id. id.0 ≡ self.old.made) }
        ensures err { OnErr result (self.new ≡ self.old) }
    {
        size.knows_most();
        let id = RegionId(self.made);
        let at = place_of_target(self.slots.as_slice(), kind.target());
        let extent = self.kept.extent_made(at);
        self.slots
            .push(self.alloc, new_node(self.alloc, id, kind, size))?;
        self.kept.enlist(self.alloc, at, extent, id);
        self.made += 1;
        self.calls += 1;
        Ok(id)
    }

    /// Makes a space.
    fn open(&mut self, space: SpaceId, root: RegionId) -> Result<(), AllocError>
        requires { refusal_of self.old (Call.Space space root) ≡ None }
        ensures ok { OnOk result (self.new ≡ counted (changed self.old (Call.Space space root))) }
        ensures err { OnErr result (self.new ≡ self.old) }
    {
        self.spaces.push((space, root))?;
        self.calls += 1;
        Ok(())
    }

    /// Places a region in a container, and finds anew how deep and how wide all regions are.
    fn add(
        &mut self,
        parent: RegionId,
        offset: u64,
        child: RegionId,
        priority: i32,
    ) -> Result<(), AllocError>
        requires { refusal_of self.old (Call.Add parent offset child priority) ≡ None }
        ensures ok { OnOk result (self.new ≡ counted (changed self.old (Call.Add parent offset child priority))) }
        ensures err { OnErr result (self.new ≡ self.old) }
    {
        self.slots
            .place(parent, offset, child, priority, self.placings)?;
        self.kept.renew(self.alloc, self.slots.as_slice());
        self.placings += 1;
        self.calls += 1;
        Ok(())
    }

    /// Takes a region out of its container.
    fn del(&mut self, parent: RegionId, child: RegionId)
        requires { refusal_of self.old (Call.Del parent child) ≡ None }
        ensures { self.new ≡ counted (changed self.old (Call.Del parent child)) }
    {
        self.slots.take_out(parent, child);
        self.kept
            .resettle(self.alloc, self.slots.as_slice(), parent);
        self.calls += 1;
    }

    /// Moves a region in its container.
    fn shift(&mut self, child: RegionId, offset: u64) -> Result<(), AllocError>
        requires { refusal_of self.old (Call.Move child offset) ≡ None }
        ensures ok { OnOk result (self.new ≡ counted (changed self.old (Call.Move child offset))) }
        ensures err { OnErr result (self.new ≡ self.old) }
    {
        let count = self.slots.shift(child, offset, self.placings)?;
        self.placings += count;
        self.calls += 1;
        Ok(())
    }

    /// Switches global logging.
    fn set_global(&mut self, on: bool)
        requires { refusal_of self.old (Call.Global on) ≡ None }
        ensures { self.new ≡ counted (changed self.old (Call.Global on)) }
    {
        self.global = on;
        self.calls += 1;
    }

    /// Changes the fields of one region.
    fn edit(&mut self, call: &Call) -> Result<(), AllocError>
        requires free { refusal_of self.old call.now ≡ None }
        requires some { IsSome (edits call.now) }
        ensures ok { OnOk result (self.new ≡ counted (changed self.old call.now)) }
        ensures err { OnErr result (self.new ≡ self.old) }
    {
        call.knows_fits();
        let Some(region) = call.edits() else {
            unreachable!()
        };
        self.slots.edit(region, call)?;
        self.calls += 1;
        Ok(())
    }

    /// Drops a region.
    fn discard(&mut self, region: RegionId)
        requires { refusal_of self.old (Call.Drop region) ≡ None }
        ensures { self.new ≡ counted (changed self.old (Call.Drop region)) }
    {
        let slots = self.slots.as_slice();
        let Some(at) = place_of(slots, region) else {
            unreachable!()
        };
        let target = place_of_target(slots, slots[at].node.kind.target());
        self.kept.forget(at, target, region);
        self.slots.remove(region);
        self.calls += 1;
    }
}
