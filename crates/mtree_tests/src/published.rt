// Drawn desks with several spaces, which are changed by drawn calls: the view of each space that is published is the one that is rendered
// from nothing, what is told of the change is told as by membership, to those who listen alone, and just the regions that are shown have
// places.
ghost use Rattle.std.specs.Prelude.{◌≡◌, ◌<◌};

use crate::changes::{any_call, building};
use crate::draws::draw;
use crate::maps::{add, alias, latch, listener, region, space};
use crate::plain_walks::{are_without, is_plain_walk};
use crate::trees::viewed;
use generation::Generation;
use ioevents::live;
use mem_base::{
    Applied, Call, Change, Edition, FlatRange, Kind, Listener, Live, Lives, Place, Refusal,
    RegionId, SpaceId, View,
};
use rand_pcg::Lcg64Xsh32;
use region_tree::Tree;
use std::alloc::{AllocError, Global};
use std::marker::Brand;
use std::sync::ledger::{Blank, Ledger};
use step_counter::Steps;
use transact::{BackedDesk, Prepared, Step};

/// How many desks are drawn, and how many changes and transactions of each are published: 10,000.
const DESKS: u64 = 50;

const CHANGES: u32 = 200;

/// The words of a pool.
const WORDS: usize = 1 << 17;

/// The space to which nobody listens.
const UNHEARD: SpaceId = SpaceId(1);

/// Who listens: one to the first space, and one to the last.
fn listeners() -> [Listener; 2] {
    [listener(0), listener(2)]
}

/// A desk, a tree on which the same calls are done, and the generator that draws them.
#[derive(Drop)]
struct Drawn {
    desk: BackedDesk,
    tree: Tree,
    rng: Lcg64Xsh32,
    made: u32,
}

/// Two containers of 16 pages, an alias of the one in the other, and an alias of that over a space of its own.
fn beginnings() -> [Call; 16] {
    [
        region(Kind::Container, 0x1_0000),
        region(Kind::Ram, 0x6000),
        region(Kind::Ram, 0x2000),
        region(latch(), 0x2000),
        region(latch(), 0x1000),
        region(Kind::Container, 0x1_0000),
        alias(0x7000, 0, 0x1800),
        alias(0x9000, 5, 0x2000),
        space(0, 0),
        space(1, 5),
        space(2, 7),
        add(5, 0x3800, 6, 1),
        add(5, 0x800, 1, 0),
        add(0, 0x8000, 2, 0),
        add(0, 0x2000, 3, 1),
        add(0, 0xc000, 4, 0),
    ]
}

impl Drawn {
    /// Does a call in the transaction that is open, or a quiet one, if it is not refused.
    fn call(&mut self, call: &Call) -> Result<(), Refusal> {
        if self.desk.desk().depth() == 0 && !call.is_quiet() {
            return Ok(());
        }
        match self.desk.call(call) {
            Ok(applied) => {
                if let Applied::Made(_) = applied {
                    self.made = self.made.saturating_add(1);
                }
                self.tree.apply(call)?;
            }
            Err(Refusal::Memory) => return Err(Refusal::Memory),
            Err(_) => {}
        }
        Ok(())
    }

    fn build(&mut self) -> Result<(), Refusal> {
        for call in beginnings() {
            self.call(&call)?;
        }
        for _ in 0..20 {
            let call = building(&mut self.rng, self.made);
            self.call(&call)?;
        }
        Ok(())
    }

    fn call_some(&mut self) -> Result<(), Refusal> {
        let calls = draw(&mut self.rng, 5).saturating_add(1);
        for _ in 0..calls {
            let call = any_call(&mut self.rng, self.made);
            self.call(&call)?;
        }
        Ok(())
    }

    /// Commits, and says whether all is published and told as it is to be.
    fn commit<L: Ledger>(&mut self, alloc: Global, steps: &mut Steps<L>) -> Result<bool, Refusal> {
        match self.desk.commit_prepare(&listeners(), steps)? {
            Step::Ready(prepared) => {
                let is_so = is_right(alloc, &self.desk, &self.tree, &prepared);
                self.desk.done(prepared);
                Ok(is_so?)
            }
            Step::Inner | Step::Empty => Ok(true),
        }
    }

    /// The same of a transaction of one to five calls.
    fn transact<L: Ledger>(
        &mut self,
        alloc: Global,
        steps: &mut Steps<L>,
    ) -> Result<bool, Refusal> {
        self.desk.begin()?;
        self.call_some()?;
        self.commit(alloc, steps)
    }

    /// The same of a call that is a change of its own, if it is not refused.
    fn change<L: Ledger>(&mut self, alloc: Global, steps: &mut Steps<L>) -> Result<bool, Refusal> {
        let call = any_call(&mut self.rng, self.made);
        if call.is_quiet() || self.desk.desk().depth() != 0 {
            self.call(&call)?;
            return Ok(true);
        }
        match self.desk.call_prepare(&call, &listeners(), steps) {
            Ok(prepared) => {
                self.tree.apply(&call)?;
                let is_so = is_right(alloc, &self.desk, &self.tree, &prepared);
                self.desk.done(prepared);
                Ok(is_so?)
            }
            Err(Refusal::Memory) => Err(Refusal::Memory),
            Err(_) => Ok(true),
        }
    }

    fn step<L: Ledger>(&mut self, alloc: Global, steps: &mut Steps<L>) -> Result<bool, Refusal> {
        if draw(&mut self.rng, 3) == 0 {
            return self.transact(alloc, steps);
        }
        self.change(alloc, steps)
    }
}

/// What a generation shows of a space; nothing where there is no such space.
fn ranges_in(generation: &Generation, space: SpaceId) -> &[FlatRange] {
    match generation.atlas(space) {
        Some(atlas) => atlas.view().as_slice(),
        None => &[],
    }
}

/// The ioeventfds that it shows there.
fn lives_in(alloc: Global, generation: &Generation, space: SpaceId) -> Result<Lives, AllocError> {
    match generation.atlas(space) {
        Some(atlas) => live(alloc, atlas.view(), generation.forest()),
        None => Ok(Lives::new(Vec::new(alloc))),
    }
}

/// Whether ioeventfds are lost and gained as by membership.
fn is_gained(change: &Change, before: &[Live], after: &[Live]) -> bool {
    are_without(change.lost.as_slice(), before, after)
        && are_without(change.gained.as_slice(), after, before)
}

/// Whether a change is the one from the ioeventfds of one generation's view of its space to those of a view in another.
fn are_lives_told(
    alloc: Global,
    change: &Change,
    old: &Generation,
    new: &Generation,
    after: &View,
) -> Result<bool, AllocError> {
    let was = lives_in(alloc, old, change.space)?;
    let is = live(alloc, after, new.forest())?;
    Ok(is_gained(change, was.as_slice(), is.as_slice()))
}

/// Whether a change of a space is told as by membership, and the space shows this view.
fn is_told_of(
    alloc: Global,
    old: &Generation,
    new: &Generation,
    change: &Change,
    after: &View,
) -> Result<bool, AllocError> {
    let (before, now) = (ranges_in(old, change.space), ranges_in(new, change.space));
    if now != after.as_slice() || !is_plain_walk(change.walk.as_slice(), before, now) {
        return Ok(false);
    }
    are_lives_told(alloc, change, old, new, after)
}

/// The same of the view that is rendered from nothing.
fn is_told(
    alloc: Global,
    old: &Generation,
    tree: &Tree,
    new: &Generation,
    change: &Change,
) -> Result<bool, AllocError> {
    let after = viewed(alloc, tree, change.space)?;
    let is_so = is_told_of(alloc, old, new, change, &after);
    is_so
}

/// Whether a region is a leaf of a generation, by a look at all ranges of its views.
fn is_shown(generation: &Generation, region: RegionId) -> bool {
    for (space, _) in generation.forest().spaces.as_slice() {
        if let Some(atlas) = generation.atlas(*space)
            && atlas
                .view()
                .as_slice()
                .iter()
                .any(|range| range.leaf == region)
        {
            return true;
        }
    }
    false
}

/// Whether a generation has of these places just those of the regions that it shows. The notifiers' is passed over.
fn has_its_places(places: &[Place], generation: &Generation) -> bool {
    for place in places {
        if place.region != RegionId::NOTIFIERS {
            let found = generation.place_of(place.region);
            let wanted = is_shown(generation, place.region).then_some(*place);
            if found != wanted {
                return false;
            }
        }
    }
    true
}

/// Whether these are the changes of the spaces of a generation to which somebody listens, in order.
fn are_heard(changes: &[Change], generation: &Generation) -> bool {
    let mut told: usize = 0;
    for (space, _) in generation.forest().spaces.as_slice() {
        if *space != UNHEARD {
            if changes.get(told).map(|change| change.space) != Some(*space) {
                return false;
            }
            told = told.saturating_add(1);
        }
    }
    told == changes.len()
}

/// The same of all spaces to which somebody listens, and whether the generation has the places of just the regions that it shows.
fn is_right(
    alloc: Global,
    desk: &BackedDesk,
    tree: &Tree,
    prepared: &Prepared,
) -> Result<bool, AllocError> {
    let old = desk.desk().current();
    let changes = prepared.changes().as_slice();
    if !are_heard(changes, prepared.generation()) {
        return Ok(false);
    }
    for change in changes {
        if !is_told(alloc, old, tree, prepared.generation(), change)? {
            return Ok(false);
        }
    }
    Ok(has_its_places(desk.places(), prepared.generation()))
}

/// How many changes of a drawn desk are right, up to the first that is not.
fn right_ones<L: Ledger>(
    alloc: Global,
    drawn: &mut Drawn,
    steps: &mut Steps<L>,
) -> Result<u32, Refusal> {
    drawn.desk.begin()?;
    drawn.build()?;
    if !drawn.commit(alloc, steps)? {
        return Ok(0);
    }
    for right in 0..CHANGES {
        if !drawn.step(alloc, steps)? {
            return Ok(right);
        }
    }
    Ok(CHANGES)
}

fn all_right<L: Ledger>(alloc: Global, seed: u64, blank: Blank) -> Result<u32, Refusal>
    requires name { blank.name ≡ L.name }
    requires parts { blank.parts ≡ L.parts }
    requires some { 0 < L.parts }
{
    let mut steps = Steps::<L>::new(blank);
    let mut drawn = Drawn {
        desk: BackedDesk::new(alloc, WORDS)?,
        tree: Tree::new(alloc),
        rng: Lcg64Xsh32::new(seed, 54),
        made: 0,
    };
    let right = right_ones(alloc, &mut drawn, &mut steps);
    right
}

#[test]
fn drawn_desks_show_what_is_rendered_from_nothing(rt: HostRuntime) {
    for seed in 0..DESKS {
        let right = all_right::<Brand>(rt.alloc(), seed, Blank::new(1));
        assert!(rt; right == Ok(CHANGES), "seed {seed}");
    }
}
